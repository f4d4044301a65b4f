// Bytes in general: whether all are equal, their sum, and sixteen bits as two of them.
ghost use Rattle.std.specs.Prelude.{◌≡◌, ◌+◌, ◌≤◌, ◌<◌, ◌/◌, ◌%◌, length, get_or, set};
ghost use Rattle.gate.specs.Bytes.{all, total, pair};

// Whether each byte of s is b.
#[tactic(auto, using(crate::proofs::Walks::each_is))]
pub(crate) fn all_are(s: &[u8], b: u8) -> bool
    ensures { result ≡ all b s.now }
{
    s.iter().all(|x| *x == b)
}

// The sum of at most thirty bytes.
#[tactic(auto, using(crate::proofs::Walks::total_is))]
pub(crate) fn sum(s: &[u8]) -> u16
    requires { length s.now ≤ 30 }
    ensures { (result ≡ total s.now) × (result ≤ 7650) }
{
    s.iter().map(|b| u16::from(*b)).sum()
}

// The sixteen bits of two bytes from byte at on, high byte first. Which pair it is is what its callers say, so it takes the row and the place.
pub(crate) fn pair_at(s: &[u8], at: usize) -> u16
    requires { at + 1 < length s.now }
    ensures { result ≡ pair (get_or s.now at 0) (get_or s.now (at + 1) 0) }
{
    u16::from_be_bytes([s[at], s[at + 1]])
}

// Puts sixteen bits into two bytes from byte at on, high byte first; the place as in `pair_at`.
pub(crate) fn put_pair(d: &mut [u8], at: usize, bits: u16)
    requires { at + 1 < length d.old }
    ensures { d.new ≡ set (set d.old at (bits / 256)) (at + 1) (bits % 256) }
{
    d[at..at + 2].copy_from_slice(&bits.to_be_bytes());
}
