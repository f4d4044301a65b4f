// Running a trace: event bytes in, one answer byte for each, the chip and its array carried on. Chip and array stay two parameters, as C lends them apart.
#![tactic(auto)]

ghost use Rattle.std.specs.Prelude.{◌≡◌, ◌++◌, ◌≤◌, length, drop};
ghost use Rattle.refusals.specs.Refusals.{status_of};
ghost use Rattle.chip.specs.Run.{world};
ghost use Rattle.trace.specs.Bytes.{event_of, sample_byte, all_events, answer_byte};
ghost use Rattle.trace.specs.Trace.{after, answers_of, run_refusal, run_array, run_answers, ran_of, ran_as};

use chip::chip::Chip;
use chip::wire::{Event, Sample};
use parts::note::note_or_0;
use parts::phase::{bit_of, weigh};
use parts::wait::{EVERY_PLACE, FIRST_HALF, NO_PLACE};
use refusals::Refusal;

// The event of an event byte.
#[tactic(auto, unfolding(crate::specs::Bytes::event_of))]
pub fn event_of(byte: u8) -> Event
    ensures { result ≡ event_of byte }
{
    match byte {
        8 => Event::ProgramDone,
        9 => Event::PowerUp {
            choices: EVERY_PLACE,
        },
        10 => Event::PowerUp { choices: NO_PLACE },
        11 => Event::PowerUp {
            choices: FIRST_HALF,
        },
        _ => Event::Sample(Sample {
            scl: bit_of(byte, 0),
            sda: bit_of(byte, 1),
            pin: bit_of(byte, 2),
        }),
    }
}

// The event byte of a sample.
pub fn sample_byte(scl: bool, sda: bool, pin: bool) -> u8
    ensures { result ≡ sample_byte scl sda pin }
{
    weigh(scl, 1) + weigh(sda, 2) + weigh(pin, 4)
}

// The answer byte of a line and the number of a note; of any number, bits 0-2, as its clause has it. So it takes a number and not a `Note`.
pub fn answer_byte(line: bool, note: u8) -> u8
    ensures { result ≡ answer_byte line note }
{
    weigh(line, 1) + note % 8 * 2
}

// Whether every byte is an event byte.
fn all_events(trace: &[u8]) -> bool
    ensures { result ≡ all_events trace.now }
{
    trace.iter().all(|byte| *byte <= 11)
}

// Refuses a trace: first as the chip and the array are refused, then for its length, for too few places for its answers, and for a byte that is no event.
#[tactic(auto, unfolding(crate::specs::Trace::run_refusal))]
pub fn check(chip: &Chip, array: &[u8], trace: &[u8], room: usize) -> Result<(), Refusal>
    ensures { status_of result ≡ run_refusal chip.now array.now trace.now room }
{
    chip.check(array)?;
    if 65536 < trace.len() {
        return Err(Refusal::TraceLength);
    }
    if room < trace.len() {
        return Err(Refusal::AnswerRoom);
    }
    if !all_events(trace) {
        return Err(Refusal::NoEvent);
    }
    Ok(())
}

// Runs the events one after the other, an answer byte for each; by number, since events and answers are two rows.
fn run_events(chip: &mut Chip, array: &mut [u8], trace: &[u8], answers: &mut [u8])
    requires { length trace.now ≤ length answers.old }
    ensures chip { chip.new ≡ (after trace.now (world chip.old array.old)).chip }
    ensures array_after { array.new ≡ (after trace.now (world chip.old array.old)).array }
    ensures answers_after { answers.new ≡ answers_of trace.now (world chip.old array.old) ++ drop (length trace.now) answers.old }
{
    for (i, byte) in trace.iter().enumerate() {
        let note = chip.next(array, event_of(*byte));
        answers[i] = answer_byte(chip.line, note_or_0(note));
    }
}

// Runs a trace of up to 65,536 events. Refused as `check` has it, it runs nothing and writes nothing: chip, array and answers stay as they were.
#[tactic(auto, using(crate::proofs::RunLaws::run_room), unfolding(crate::specs::Trace::ran_of, crate::specs::Trace::run_array, crate::specs::Trace::run_answers, crate::specs::Trace::unless))]
pub fn run(
    chip: &mut Chip,
    array: &mut [u8],
    trace: &[u8],
    answers: &mut [u8],
) -> Result<(), Refusal>
    ensures value { ran_as result chip.new ≡ ran_of chip.old array.old trace.now answers.old }
    ensures array_after { array.new ≡ run_array chip.old array.old trace.now answers.old }
    ensures answers_after { answers.new ≡ run_answers chip.old array.old trace.now answers.old }
{
    check(chip, &array[..], trace, answers.len())?;
    run_events(chip, array, trace, answers);
    Ok(())
}
