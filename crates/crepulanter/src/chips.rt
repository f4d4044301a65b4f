// The five functions of a chip.
ghost use Rattle.std.specs.Prelude.{◌≡◌};
ghost use Rattle.crepulanter.specs.Calls.{unfit, Loads, NewSays, EventSays, RunSays, PowerUpSays, RecoverSays};

use crate::acts::with_chip;
use chip::chip::Chip;
use chip_bytes::{at, bytes_fit, pack, unpack};
use recovery::recover;
use refusals::{Refusal, status};
use trace::run;

// The chip of these bytes. Where no chip has them, they are refused: first for the array's length, if it is wrong too.
#[tactic(auto, unfolding(crate::specs::Calls::unfit))]
fn load(state: &[u8; at::SIZE], array: &[u8]) -> Result<Chip, Refusal>
    ensures { Loads state.now (unfit array.now) result }
{
    if bytes_fit(state) {
        return Ok(unpack(state));
    }
    if array.len() == Chip::BYTES {
        return Err(Refusal::ChipRange);
    }
    Err(Refusal::ArrayLength)
}

// Makes a new chip; refused with 3, the standard chip.
#[unsafe(no_mangle)]
pub extern "C" fn crep_new(state: &mut [u8; at::SIZE], part: u8, select: u8) -> u8
    ensures { NewSays part select result state.new }
{
    let made = Chip::new(part, select);
    let chip = made.unwrap_or(Chip::standard());
    *state = pack(&chip);
    status(&made)
}

// Runs a trace. Refused with 1, 2, 4, 5 or 6 it changes nothing and writes no answer.
#[unsafe(no_mangle)]
pub extern "C" fn crep_run(
    state: &mut [u8; at::SIZE],
    array: &mut [u8],
    trace: &[u8],
    answers: &mut [u8],
) -> u8
    ensures { RunSays state.old array.old trace.now answers.old result state.new array.new answers.new }
{
    let loaded = load(state, &array[..]);
    let done = with_chip(state, loaded, &mut |chip| run(chip, array, trace, answers));
    status(&done)
}

// Runs one event, as a trace of one. Refused with 1, 2 or 6 it changes nothing, and answers that the line is high, with note 0.
#[unsafe(no_mangle)]
pub extern "C" fn crep_event(
    state: &mut [u8; at::SIZE],
    array: &mut [u8],
    event: u8,
    answer: &mut u8,
) -> u8
    ensures { EventSays state.old array.old event result state.new array.new answer.new }
{
    let trace = [event];
    let mut told = [1u8; 1];
    let refused = crep_run(state, array, &trace, &mut told);
    *answer = told[0];
    refused
}

// A power-up with any 32 choices. Refused with 1 or 2 it changes nothing. It answers that the line is high, with note 0, in every case.
#[unsafe(no_mangle)]
pub extern "C" fn crep_power_up(
    state: &mut [u8; at::SIZE],
    array: &mut [u8],
    choices: u32,
    answer: &mut u8,
) -> u8
    ensures { PowerUpSays state.old array.old choices result state.new array.new answer.new }
{
    *answer = 1;
    let loaded = load(state, &array[..]);
    let done = with_chip(state, loaded, &mut |chip| chip.power_up(array, choices));
    status(&done)
}

// Frees the bus. Refused with 1 or 2 it changes nothing and reports 0 pulses.
#[unsafe(no_mangle)]
pub extern "C" fn crep_recover(
    state: &mut [u8; at::SIZE],
    array: &mut [u8],
    pin: u8,
    pulses: &mut u8,
) -> u8
    ensures { RecoverSays state.old array.old pin result state.new array.new pulses.new }
{
    let loaded = load(state, &array[..]);
    let freed = with_chip(state, loaded, &mut |chip| recover(chip, array, pin != 0));
    *pulses = freed.unwrap_or(0);
    status(&freed)
}
