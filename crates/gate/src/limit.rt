// The two travel limits of a gate: their range, their sixteen bits in two's complement, and the travel between them.
ghost use Rattle.std.specs.Prelude.{◌≡◌, IfOk};
ghost use Rattle.refusals.specs.Refusals.{status_of};
ghost use Rattle.gate.specs.Limit.{in_range, limits_refusal, bits16, signed16, travel_of};

use refusals::Refusal;

// Whether a limit lies in -30,000..30,000.
#[tactic(auto, unfolding(crate::specs::Limit::in_range))]
fn in_range(limit: i32) -> bool
    ensures { result ≡ in_range limit }
{
    (-30000..=30000).contains(&limit)
}

// The two limits of a gate.
#[derive(Clone, Copy)]
pub(crate) struct Limits {
    pub(crate) closed: i16,
    pub(crate) opened: i16,
}

impl Limits {
    // Two limits that lie in range and differ, or the first refusal that applies. In range the casts keep them; `try_from` would bring a refusal that cannot come.
    #[tactic(auto, using(crate::proofs::Numbers::true_same, crate::proofs::Numbers::same_false), unfolding(crate::specs::Limit::in_range))]
    pub(crate) fn new(closed: i32, opened: i32) -> Result<Limits, Refusal>
        ensures number { status_of result ≡ limits_refusal closed opened }
        ensures limits { IfOk result (λ limits. (limits.closed ≡ closed) × (limits.opened ≡ opened)) }
    {
        if !(in_range(closed) && in_range(opened)) {
            return Err(Refusal::LimitRange);
        }
        if closed == opened {
            return Err(Refusal::LimitsEqual);
        }
        Ok(Limits {
            closed: closed as i16,
            opened: opened as i16,
        })
    }

    // Open minus closed, widened first so that the difference is exact.
    pub(crate) fn travel(self) -> i32
        ensures { result ≡ travel_of self.closed self.opened }
    {
        i32::from(self.opened) - i32::from(self.closed)
    }
}

// The sixteen bits of a limit.
#[tactic(auto, unfolding(crate::specs::Limit::bits16))]
pub(crate) fn bits_of(limit: i16) -> u16
    ensures { result ≡ bits16 limit }
{
    limit.cast_unsigned()
}

// The limit that sixteen bits stand for.
#[tactic(auto, unfolding(crate::specs::Limit::signed16))]
pub(crate) fn limit_of(bits: u16) -> i16
    ensures { result ≡ signed16 bits }
{
    bits.cast_signed()
}
