// The function that sends a gate's record.
ghost use Rattle.crepulanter.specs.Sending.{SendSays};

use refusals::status;
use sender::send;

// Writes the events that put a gate's record into its sector on this part, and leaves their number. Refused with 7, 12 (a free record too),
// 13, 14, 15, 16, 3 or 17 it writes nothing and leaves 0.
#[tactic(auto, using(sender::proofs::Sends::sent_refusal, sender::proofs::Sends::sent_count))]
#[unsafe(no_mangle)]
pub extern "C" fn crep_send(
    part: u8,
    select: u8,
    gate: u16,
    bytes: &[u8],
    trace: &mut [u8],
    events: &mut u16,
) -> u8
    ensures { SendSays part select gate bytes.now trace.old result trace.new events.new }
{
    let sent = send(part, select, gate, bytes, trace);
    *events = sent.unwrap_or(0);
    status(&sent)
}
