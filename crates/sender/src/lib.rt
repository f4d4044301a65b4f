// The sender: the events that put a gate's record into its sector, written into a lent buffer for a trace or for a driver of the two
// wires. It knows no chip but the part; what its events do to one is proved in crates/promises.
#![tactic(auto)]

ghost use Rattle.std.specs.Prelude.{◌≡◌};
ghost use Rattle.refusals.specs.Refusals.{status_of};
ghost use Rattle.sender.specs.Sending.{event_count, send_refusal, sent_as, sent_of, sent_buffer};

mod spelling;

use crate::spelling::Writer;
use gate::read;
use parts::register::has_register;
use refusals::Refusal;

// How many events a record takes: 77 that set PEL, 635 after which it waits, and the program-done that stores it.
pub const EVENTS: usize = 713;

// How many on the part without a register, which has no PEL.
pub const EVENTS_X24F129: usize = 636;

// How many events a record takes on this part.
fn event_count(part: u8) -> usize
    ensures { result ≡ event_count part }
{
    if has_register(part) {
        EVENTS
    } else {
        EVENTS_X24F129
    }
}

// Refuses by the first refusal that applies: what reading refuses, a free record as no gate, then the gate, the select, the part and
// the room.
#[tactic(auto, unfolding(crate::specs::Sending::send_refusal))]
fn check(part: u8, select: u8, gate: u16, bytes: &[u8], room: usize) -> Result<(), Refusal>
    ensures { status_of result ≡ send_refusal part select gate bytes.now room }
{
    let Some(_) = read(bytes)? else {
        return Err(Refusal::NoGate);
    };
    if 511 < gate {
        return Err(Refusal::GateNumber);
    }
    if 7 < select {
        return Err(Refusal::Select);
    }
    if 2 < part {
        return Err(Refusal::NoSuchChip);
    }
    if room < event_count(part) {
        return Err(Refusal::EventRoom);
    }
    Ok(())
}

// Writes the events that set PEL, where the part has one, and put a good record into the sector of its gate, protect pin low in each, and
// answers their number. Refused, also with a free record, it writes nothing. Bytes past the events stay. The number
// is at most 713, which the cast keeps; `try_from` would bring a refusal that cannot come.
#[tactic(auto, using(crate::proofs::Sends::send_taken), unfolding(crate::specs::Sending::sent_of, crate::specs::Sending::sent_buffer, trace::specs::Trace::unless))]
pub fn send(
    part: u8,
    select: u8,
    gate: u16,
    bytes: &[u8],
    events: &mut [u8],
) -> Result<u16, Refusal>
    ensures value { sent_as result ≡ sent_of part select gate bytes.now events.old }
    ensures events_after { events.new ≡ sent_buffer part select gate bytes.now events.old }
{
    check(part, select, gate, bytes, events.len())?;
    let mut writer = Writer { events, end: 0 };
    writer.lead(part, select);
    writer.message(select, gate * 32, bytes);
    writer.put(&[8]);
    Ok(writer.end as u16)
}
