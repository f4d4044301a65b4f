// Writing a record into a lent buffer: the refusals in their order, then the bytes.
ghost use Rattle.std.specs.Prelude.{◌≡◌};
ghost use Rattle.refusals.specs.Refusals.{status_of};
ghost use Rattle.gate.specs.Writing.{write_of, written_of};

use crate::form::{LABEL_BYTES, RECORD_BYTES, put_record};
use crate::label::is_label;
use crate::limit::Limits;
use refusals::Refusal;

// Writes the record of two limits and a label into a buffer of 32 bytes; or returns the first refusal that applies, and leaves the
// buffer as it was. Limits come in 32 bits, so that one of more than sixteen is refused and not cut (our reading,
// docs/DECISIONS.md).
#[tactic(auto, using(crate::proofs::Writes::written_refused), unfolding(crate::specs::Writing::write_of))]
pub fn write(buffer: &mut [u8], closed: i32, opened: i32, label: &[u8]) -> Result<(), Refusal>
    ensures number { status_of result ≡ write_of buffer.old closed opened label.now }
    ensures bytes { buffer.new ≡ written_of buffer.old closed opened label.now }
{
    let buffer = buffer
        .as_mut_array::<RECORD_BYTES>()
        .ok_or(Refusal::RecordLength)?;
    if LABEL_BYTES < label.len() {
        return Err(Refusal::LabelLength);
    }
    if !is_label(label) {
        return Err(Refusal::LabelByte);
    }
    let limits = Limits::new(closed, opened)?;
    put_record(buffer, limits, label);
    Ok(())
}
