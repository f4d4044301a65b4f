// The thirty-two bytes of a record, put into a buffer part by part.
ghost use Rattle.std.specs.Prelude.{◌≡◌, ◌++◌, ◌≤◌, length, take, drop, replicate};
ghost use Rattle.gate.specs.Form.{limit_bytes, front_of, sealed_of, record_of};

use crate::bytes::{put_pair, sum};
use crate::limit::{Limits, bits_of};

// How many bytes a record has.
pub(crate) const RECORD_BYTES: usize = 32;

// How many bytes a label has at most.
pub(crate) const LABEL_BYTES: usize = 24;

// Puts limits into bytes 0-3, and leaves the others.
pub(crate) fn put_limits(buffer: &mut [u8; RECORD_BYTES], limits: Limits)
    ensures { buffer.new ≡ limit_bytes limits.closed limits.opened ++ drop 4 buffer.old }
{
    put_pair(buffer, 0, bits_of(limits.closed));
    put_pair(buffer, 2, bits_of(limits.opened));
}

// Puts the sum of bytes 0-29 behind them.
#[tactic(auto, using(crate::proofs::Build::sealed))]
pub(crate) fn seal(buffer: &mut [u8; RECORD_BYTES])
    ensures { buffer.new ≡ sealed_of (take 30 buffer.old) }
{
    let total = sum(&buffer[..30]);
    put_pair(buffer, 30, total);
}

// Puts limits, the state byte and the label length in front, and spaces behind them.
fn put_front(buffer: &mut [u8; RECORD_BYTES], limits: Limits, n: u8)
    ensures { buffer.new ≡ front_of limits.closed limits.opened n ++ replicate 26 0x20 }
{
    buffer.fill(0x20);
    put_limits(buffer, limits);
    buffer[4] = 0xa5;
    buffer[5] = n;
}

// Puts the record of two limits and a label of at most 24 bytes, a length that the cast keeps, over the whole buffer. The label is copied byte by byte: a
// slice's copy of a length that only the caller knows is a call of `memmove`, which firmware would have to bring.
#[tactic(auto, using(crate::proofs::Build::built))]
pub(crate) fn put_record(buffer: &mut [u8; RECORD_BYTES], limits: Limits, label: &[u8])
    requires { length label.now ≤ 24 }
    ensures { buffer.new ≡ record_of limits.closed limits.opened label.now }
{
    put_front(buffer, limits, label.len() as u8);
    for (place, byte) in label.iter().enumerate() {
        buffer[6 + place] = *byte;
    }
    seal(buffer);
}
