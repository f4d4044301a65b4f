// New limits into a good record, its label kept: the refusals in their order, then the bytes.
ghost use Rattle.std.specs.Prelude.{◌≡◌, IfOk};
ghost use Rattle.refusals.specs.Refusals.{status_of};
ghost use Rattle.gate.specs.Limiting.{limits_of, limited_of};

use crate::form::{RECORD_BYTES, put_limits, seal};
use crate::limit::Limits;
use crate::reading::read;
use refusals::Refusal;

// The new limits of a good record, or the first refusal that applies.
#[tactic(auto, unfolding(crate::specs::Limiting::limits_of))]
fn check(bytes: &[u8], closed: i32, opened: i32) -> Result<Limits, Refusal>
    ensures number { status_of result ≡ limits_of bytes.now closed opened }
    ensures limits { IfOk result (λ limits. (limits.closed ≡ closed) × (limits.opened ≡ opened)) }
{
    match read(bytes)? {
        Some(_) => Limits::new(closed, opened),
        None => Err(Refusal::NoGate),
    }
}

// Sets the limits of a good record: bytes 0-3 and the sum change, and nothing beside them. Or returns the first refusal that
// applies, and leaves the record as it was; a free record is refused as no gate (our reading, docs/DECISIONS.md).
#[tactic(auto, using(crate::proofs::Limited::limited_refused, crate::proofs::Limited::limits_taken))]
pub fn set_limits(bytes: &mut [u8], closed: i32, opened: i32) -> Result<(), Refusal>
    ensures number { status_of result ≡ limits_of bytes.old closed opened }
    ensures bytes { bytes.new ≡ limited_of bytes.old closed opened }
{
    let bytes = bytes
        .as_mut_array::<RECORD_BYTES>()
        .ok_or(Refusal::RecordLength)?;
    let limits = check(bytes, closed, opened)?;
    put_limits(bytes, limits);
    seal(bytes);
    Ok(())
}
