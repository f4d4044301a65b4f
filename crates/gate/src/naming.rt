// The name shown for a record: its own label without trailing spaces, or the standard label.
ghost use Rattle.std.specs.Prelude.{◌≡◌, ◌≢◌, MatchOption, length, take, drop};
ghost use Rattle.gate.specs.Reading.{read_of};
ghost use Rattle.gate.specs.Naming.{own_length, span_of, name_of};

use crate::answer::Shown;
use crate::label::trimmed;
use crate::reading::read;

// What is shown of the record's label; none of a record that is free, refused or blank.
#[tactic(auto, using(crate::proofs::Answers::good_length))]
fn own_label(bytes: &[u8]) -> Option<&[u8]>
    ensures { let own = own_length bytes.now (read_of bytes.now) in
        MatchOption result (own ≡ 0) (λ label. (own ≢ 0) × (length label.now ≡ own) × (label.now ≡ take own (drop 6 bytes.now))) }
{
    let Ok(Some(gate)) = read(bytes) else {
        return None;
    };
    let label = trimmed(&bytes[6..6 + gate.length]);
    if label.is_empty() { None } else { Some(label) }
}

// Where the name shown lies (which slice, from where, how many bytes), for a caller that cannot take a slice back.
#[tactic(auto, using(crate::proofs::Names::standard_span, crate::proofs::Names::own_span))]
pub fn shown_span(bytes: &[u8], standard: &[u8]) -> Shown
    ensures { result ≡ span_of bytes.now standard.now }
{
    match own_label(bytes) {
        Some(label) => Shown {
            own: true,
            start: 6,
            len: label.len(),
        },
        None => Shown {
            own: false,
            start: 0,
            len: standard.len(),
        },
    }
}

// The name shown: a part of the record, or the whole standard label.
#[tactic(auto, using(crate::proofs::Names::standard_name, crate::proofs::Names::own_name))]
pub fn shown_name<'a>(bytes: &'a [u8], standard: &'a [u8]) -> &'a [u8]
    ensures { result.now ≡ name_of bytes.now standard.now }
{
    own_label(bytes).unwrap_or(standard)
}
