// The four functions of a gate's record.
ghost use Rattle.std.specs.Prelude.{◌≡◌};
ghost use Rattle.gate.specs.Limiting.{limits_of, limited_of};
ghost use Rattle.gate.specs.Writing.{write_of, written_of};
ghost use Rattle.crepulanter.specs.Records.{ReadSays, NameSays};

use chip_bytes::flag_byte;
use gate::answer::Given;
use gate::{read, set_limits, shown_span, write};
use refusals::status;

// Writes a record into a buffer of 32 bytes. Refused with 7, 8, 9, 10 or 11 it writes nothing.
#[unsafe(no_mangle)]
pub extern "C" fn crep_record_write(bytes: &mut [u8], closed: i32, opened: i32, label: &[u8]) -> u8
    ensures { (result ≡ write_of bytes.old closed opened label.now) × (bytes.new ≡ written_of bytes.old closed opened label.now) }
{
    status(&write(bytes, closed, opened, label))
}

// Puts new limits into a good record, and leaves its label. Refused with 7, 12 (a free record too), 13, 14, 10 or 11 it writes nothing.
#[unsafe(no_mangle)]
pub extern "C" fn crep_record_limits(bytes: &mut [u8], closed: i32, opened: i32) -> u8
    ensures { (result ≡ limits_of bytes.old closed opened) × (bytes.new ≡ limited_of bytes.old closed opened) }
{
    status(&set_limits(bytes, closed, opened))
}

// Reads a record: its limits, its travel, its label's length, and whether it is free. Refused with 7, 12, 13 or 14 all are 0.
// The length is at most 24, which the cast keeps.
#[tactic(auto, using(crate::proofs::Labels::given_short))]
#[unsafe(no_mangle)]
pub extern "C" fn crep_record_read(
    bytes: &[u8],
    closed: &mut i32,
    opened: &mut i32,
    travel: &mut i32,
    length: &mut u8,
    free: &mut u8,
) -> u8
    ensures { ReadSays bytes.now result closed.new opened.new travel.new length.new free.new }
{
    let answer = read(bytes);
    let given = Given::from(answer);
    *closed = i32::from(given.closed);
    *opened = i32::from(given.opened);
    *travel = given.travel;
    *length = given.length as u8;
    *free = flag_byte(matches!(answer, Ok(None)));
    given.number
}

// Where the name to show lies: how many bytes from where, and whether in the record. It always answers, with 0.
#[unsafe(no_mangle)]
pub extern "C" fn crep_name(
    bytes: &[u8],
    standard: &[u8],
    start: &mut usize,
    count: &mut usize,
    own: &mut u8,
) -> u8
    ensures { NameSays bytes.now standard.now result start.new count.new own.new }
{
    let shown = shown_span(bytes, standard);
    *start = shown.start;
    *count = shown.len;
    *own = flag_byte(shown.own);
    0
}
