// Reading a record: the refusals in their order, then what it holds.
ghost use Rattle.std.specs.Prelude.{◌≡◌, eqb, length, take};
ghost use Rattle.gate.specs.Answer.{read_as};
ghost use Rattle.gate.specs.Bytes.{total};
ghost use Rattle.gate.specs.Reading.{is_free, sum_at, label_fits, content_of, read_of};

use crate::answer::Gate;
use crate::bytes::{all_are, pair_at, sum};
use crate::form::{LABEL_BYTES, RECORD_BYTES};
use crate::label::is_label;
use crate::limit::{Limits, limit_of};
use refusals::Refusal;

// Whether the stored sum is that of bytes 0-29.
fn sum_right(bytes: &[u8; RECORD_BYTES]) -> bool
    ensures { result ≡ eqb (sum_at bytes.now) (total (take 30 bytes.now)) }
{
    pair_at(bytes, 30) == sum(&bytes[..30])
}

// Whether length, label and padding are as the layout has them.
#[tactic(auto, unfolding(crate::specs::Reading::label_fits))]
fn label_fits(bytes: &[u8; RECORD_BYTES]) -> bool
    ensures { result ≡ label_fits bytes.now }
{
    let length = usize::from(bytes[5]);
    if LABEL_BYTES < length {
        return false;
    }
    let end = 6 + length;
    is_label(&bytes[6..end]) && all_are(&bytes[end..30], 0x20)
}

// The gate of a record whose label fits, unless its limits are refused.
#[tactic(auto, using(crate::proofs::Numbers::wide_back), unfolding(crate::specs::Reading::content_of))]
fn content(bytes: &[u8; RECORD_BYTES]) -> Result<Option<Gate>, Refusal>
    ensures { read_as result ≡ content_of bytes.now }
{
    let closed = limit_of(pair_at(bytes, 0));
    let opened = limit_of(pair_at(bytes, 2));
    let Ok(limits) = Limits::new(i32::from(closed), i32::from(opened)) else {
        return Err(Refusal::RecordContent);
    };
    Ok(Some(Gate {
        closed,
        opened,
        travel: limits.travel(),
        length: usize::from(bytes[5]),
    }))
}

// Whether all bytes are FFh: 32 of them are a free record.
#[tactic(auto, unfolding(crate::specs::Reading::is_free))]
pub fn is_free(bytes: &[u8]) -> bool
    ensures { result ≡ is_free bytes.now }
{
    all_are(bytes, 0xff)
}

// The gate that 32 bytes hold as a record, or none where the record is free; any other number of bytes is refused.
#[tactic(auto, unfolding(crate::specs::Reading::read_of))]
pub fn read(bytes: &[u8]) -> Result<Option<Gate>, Refusal>
    ensures { read_as result ≡ read_of bytes.now }
{
    let bytes = bytes
        .as_array::<RECORD_BYTES>()
        .ok_or(Refusal::RecordLength)?;
    if is_free(bytes) {
        return Ok(None);
    }
    if bytes[4] != 0xa5 {
        return Err(Refusal::NoGate);
    }
    if !sum_right(bytes) {
        return Err(Refusal::RecordSum);
    }
    if !label_fits(bytes) {
        return Err(Refusal::RecordContent);
    }
    content(bytes)
}
