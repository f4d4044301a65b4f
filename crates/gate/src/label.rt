// The label of a gate: which bytes it may hold, and its length without trailing spaces.
ghost use Rattle.std.specs.Prelude.{◌≡◌, length, take};
ghost use Rattle.gate.specs.Label.{label_byte, is_label, trimmed_length};

// Whether a byte may stand in a label: 20h-7Eh and A1h-FEh, characters of ISO 8859-1.
#[tactic(auto, unfolding(crate::specs::Label::label_byte))]
pub(crate) fn label_byte(b: u8) -> bool
    ensures { result ≡ label_byte b }
{
    matches!(b, 0x20..=0x7e | 0xa1..=0xfe)
}

// Whether each byte of s may stand in a label.
#[tactic(auto, using(crate::proofs::Walks::each_is))]
pub(crate) fn is_label(s: &[u8]) -> bool
    ensures { result ≡ is_label s.now }
{
    s.iter().all(|b| label_byte(*b))
}

// What is left of s without the spaces at its end.
pub(crate) fn trimmed(s: &[u8]) -> &[u8]
    ensures { let left = trimmed_length s.now (length s.now) in (result.now ≡ take left s.now) × (length result.now ≡ left) }
{
    s.iter()
        .rposition(|b| *b != 0x20)
        .map_or(&[], |last| &s[..=last])
}
