// An event and a trace that keep the map beside the array. Chip, array, map and answers stay parameters of their own, as C lends them apart.
ghost use Rattle.std.specs.Prelude.{◌≡◌, true, ◌++◌, map as mapped, ◌-◌, ◌≤◌, ◌<◌, length, drop, take};
ghost use Rattle.refusals.specs.Refusals.{status_of};
ghost use Rattle.parts.specs.Wait.{target_fits};
ghost use Rattle.chip.specs.Event.{answer_as};
ghost use Rattle.chip.specs.Run.{world};
ghost use Rattle.chip.specs.View.{is_sample, samples};
ghost use Rattle.chip.specs.declared.wire.Event.TheVariants.{PowerUp};
ghost use Rattle.trace.specs.Bytes.{event_of};
ghost use Rattle.trace.specs.Trace.{after, answers_of, ran_as};
ghost use Rattle.map.specs.Keeping.{ended, entered_for, kept_over, answer_of, answer_array, answer_map, trace_ran, trace_array, trace_answers, trace_map, Taken, Piece};

use crate::sectors::{enter, with_map};
use chip::chip::Chip;
use chip::event::Answer;
use chip::wire::Event;
use parts::wait::Target;
use refusals::Refusal;
use trace::{check, event_of};

// Whether an event is a sample.
#[tactic(auto, unfolding(chip::specs::View::is_sample))]
fn is_sample(event: Event) -> bool
    ensures { result ≡ is_sample event }
{
    matches!(event, Event::Sample(_))
}

// What waits in the cycle that this event ends; nothing where it ends none.
#[tactic(auto, unfolding(crate::specs::Keeping::ended))]
fn ended_by(chip: &Chip, event: Event) -> Target
    ensures { result ≡ ended event chip.now }
{
    let ends = chip.busy & !is_sample(event);
    if ends {
        return chip.wait.target;
    }
    Target::None
}

// Enters the sector that waited, from the array as the end of its cycle left it.
#[tactic(auto, using(crate::proofs::KeepLaws::sector_low), unfolding(crate::specs::Keeping::entered_for))]
fn follow(map: &mut [u8], array: &[u8], target: Target)
    requires { (target_fits target ≡ true) × (length map.old ≡ 64) × (length array.now ≡ 16384) }
    ensures { map.new ≡ entered_for target array.now map.old }
{
    if let Target::Sector { number } = target {
        enter(map, array, usize::from(number));
    }
}

// One event, with the map kept. Refused as an event without a map is, or for the map's length: chip, array and map stay as they were.
#[tactic(auto, unfolding(crate::specs::Keeping::answer_refusal, crate::specs::Keeping::answer_of, crate::specs::Keeping::answer_array, crate::specs::Keeping::answer_map, crate::specs::Keeping::kept, chip::specs::Run::step, trace::specs::Trace::unless))]
pub fn event(
    chip: &mut Chip,
    array: &mut [u8],
    map: &mut [u8],
    event: Event,
) -> Result<Answer, Refusal>
    ensures value { answer_as result chip.new ≡ answer_of event chip.old array.old map.old }
    ensures array_after { array.new ≡ answer_array event chip.old array.old map.old }
    ensures map_after { map.new ≡ answer_map event chip.old array.old map.old }
{
    with_map(chip.check(&array[..]), &map[..])?;
    let target = ended_by(chip, event);
    let note = chip.next(array, event);
    follow(map, &array[..], target);
    Ok(Answer {
        line: chip.line,
        note,
    })
}

// A power-up with any choices, with the map kept. Refused as an event is. It does not call `event`, for the sake of speed, as `Chip::power_up`.
#[tactic(auto, using(crate::proofs::KeepLaws::with_taken, crate::proofs::KeepLaws::event_taken), unfolding(crate::specs::Keeping::answer_refusal, crate::specs::Keeping::answer_of, crate::specs::Keeping::answer_array, crate::specs::Keeping::answer_map, crate::specs::Keeping::kept, chip::specs::Run::step, trace::specs::Trace::unless))]
pub fn power_up(
    chip: &mut Chip,
    array: &mut [u8],
    map: &mut [u8],
    choices: u32,
) -> Result<Answer, Refusal>
    ensures value { answer_as result chip.new ≡ answer_of (PowerUp choices) chip.old array.old map.old }
    ensures array_after { array.new ≡ answer_array (PowerUp choices) chip.old array.old map.old }
    ensures map_after { map.new ≡ answer_map (PowerUp choices) chip.old array.old map.old }
{
    with_map(chip.check(&array[..]), &map[..])?;
    let target = ended_by(chip, Event::PowerUp { choices });
    let answer = chip.power_up(array, choices);
    follow(map, &array[..], target);
    answer
}

// Where the piece that begins at a place of a trace ends: before the next program-done or power-up.
fn piece_end(trace: &[u8], from: usize) -> usize
    requires { from < length trace.now }
    ensures { (from < result) × (result ≤ length trace.now) × (samples (mapped event_of (drop 1 (take (result - from) (drop from trace.now)))) ≡ true) }
{
    let Some(samples) = trace[from + 1..].iter().position(|event| 8 <= *event) else {
        return trace.len();
    };
    from + 1 + samples
}

// Runs one piece. Only its first event can end a cycle, and no other writes a byte of the array.
fn run_piece(chip: &mut Chip, array: &mut [u8], map: &mut [u8], piece: &[u8], answers: &mut [u8])
    requires { Piece chip.old array.old map.old piece.now answers.old }
    ensures chip { chip.new ≡ (after piece.now (world chip.old array.old)).chip }
    ensures array_after { array.new ≡ (after piece.now (world chip.old array.old)).array }
    ensures map_after { map.new ≡ kept_over (mapped event_of piece.now) (world chip.old array.old) map.old }
    ensures answers_after { answers.new ≡ answers_of piece.now (world chip.old array.old) }
{
    let target = ended_by(chip, event_of(piece[0]));
    trace::run(chip, array, piece, answers).unwrap();
    follow(map, &array[..], target);
}

// Runs a trace piece by piece, by the one loop over events that there is.
fn run_pieces(chip: &mut Chip, array: &mut [u8], map: &mut [u8], trace: &[u8], answers: &mut [u8])
    requires { Taken chip.old array.old map.old trace.now answers.old }
    ensures chip { chip.new ≡ (after trace.now (world chip.old array.old)).chip }
    ensures array_after { array.new ≡ (after trace.now (world chip.old array.old)).array }
    ensures map_after { map.new ≡ kept_over (mapped event_of trace.now) (world chip.old array.old) map.old }
    ensures answers_after { answers.new ≡ answers_of trace.now (world chip.old array.old) ++ drop (length trace.now) answers.old }
{
    // A piece is as long as its events have it, so the loop goes from end to end and not by a count.
    let mut i: usize = 0;
    while i < trace.len() {
        let end = piece_end(trace, i);
        run_piece(chip, array, map, &trace[i..end], &mut answers[i..end]);
        i = end;
    }
}

// Runs a trace of up to 65,536 events, with the map kept. Refused as a trace without a map is, or for the map's length, it runs nothing and writes
// nothing: chip, array, map and answers stay as they were.
#[tactic(auto, using(crate::proofs::KeepLaws::run_taken), unfolding(crate::specs::Keeping::trace_refusal, crate::specs::Keeping::trace_ran, crate::specs::Keeping::trace_array, crate::specs::Keeping::trace_map, crate::specs::Keeping::trace_answers, trace::specs::Trace::unless))]
pub fn run(
    chip: &mut Chip,
    array: &mut [u8],
    map: &mut [u8],
    trace: &[u8],
    answers: &mut [u8],
) -> Result<(), Refusal>
    ensures value { ran_as result chip.new ≡ trace_ran chip.old array.old map.old trace.now answers.old }
    ensures array_after { array.new ≡ trace_array chip.old array.old map.old trace.now answers.old }
    ensures map_after { map.new ≡ trace_map chip.old array.old map.old trace.now answers.old }
    ensures answers_after { answers.new ≡ trace_answers chip.old array.old map.old trace.now answers.old }
{
    with_map(check(chip, &array[..], trace, answers.len()), &map[..])?;
    run_pieces(chip, array, map, trace, answers);
    Ok(())
}
