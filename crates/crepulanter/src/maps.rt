// The five functions with a map.
ghost use Rattle.std.specs.Prelude.{◌≡◌};
ghost use Rattle.map.specs.Finding.{found_as};
ghost use Rattle.map.specs.Sectors.{with_map, build_refusal, built_of};
ghost use Rattle.crepulanter.specs.Calls.{unfit, Loads};
ghost use Rattle.crepulanter.specs.Maps.{sector_number, FirstSays, MapEventSays, MapRunSays, MapPowerUpSays};

use crate::acts::with_chip;
use chip::chip::Chip;
use chip_bytes::{at, bytes_fit, pack, unpack};
use map::{build, first_free, power_up, run};
use refusals::{Refusal, status};

// What C is told where no sector is found: one past the last.
const NONE: u16 = 512;

// The chip of these bytes. Where no chip has them, they are refused: first for the array's length, then for the map's, if they are wrong too. The map's refusal
// stands between those of `load` without a map, so that neither calls the other.
#[tactic(auto, unfolding(crate::specs::Calls::unfit, map::specs::Sectors::with_map))]
fn load(state: &[u8; at::SIZE], array: &[u8], map: &[u8]) -> Result<Chip, Refusal>
    ensures { Loads state.now (with_map (unfit array.now) map.now) result }
{
    if bytes_fit(state) {
        return Ok(unpack(state));
    }
    if array.len() != Chip::BYTES {
        return Err(Refusal::ArrayLength);
    }
    if map.len() != map::BYTES {
        return Err(Refusal::MapLength);
    }
    Err(Refusal::ChipRange)
}

// The sector found, or 512: of none and of a refusal, a line for each, as each is a case of its own in the definition.
fn sector_number(found: &Result<Option<u16>, Refusal>) -> u16
    ensures { result ≡ sector_number (found_as found.now) }
{
    match *found {
        Ok(Some(number)) => number,
        Ok(None) => NONE,
        Err(_) => NONE,
    }
}

// Builds the map of an array. Refused with 1 or 18 it writes nothing.
#[unsafe(no_mangle)]
pub extern "C" fn crep_map_build(array: &[u8], map: &mut [u8]) -> u8
    ensures { (result ≡ build_refusal array.now map.old) × (map.new ≡ built_of array.now map.old) }
{
    status(&build(array, map))
}

// The first free sector by a map, or 512 where none is free. Refused with 18 it leaves 512 too.
#[unsafe(no_mangle)]
pub extern "C" fn crep_map_first(map: &[u8], sector: &mut u16) -> u8
    ensures { FirstSays map.now result sector.new }
{
    let found = first_free(map);
    *sector = sector_number(&found);
    status(&found)
}

// Runs a trace and keeps the map. Refused with 1, 18, 2, 4, 5 or 6 it changes nothing and writes no answer.
#[unsafe(no_mangle)]
pub extern "C" fn crep_map_run(
    state: &mut [u8; at::SIZE],
    array: &mut [u8],
    map: &mut [u8],
    trace: &[u8],
    answers: &mut [u8],
) -> u8
    ensures { MapRunSays state.old array.old map.old trace.now answers.old result state.new array.new map.new answers.new }
{
    let loaded = load(state, &array[..], &map[..]);
    let done = with_chip(
        state,
        loaded,
        &mut |chip| run(chip, array, map, trace, answers),
    );
    status(&done)
}

// Runs one event, as a trace of one, and keeps the map. Refused with 1, 18, 2 or 6 it changes nothing, and answers that the line is high, with
// note 0. Its four lines are those of `crep_event`, around another call.
#[unsafe(no_mangle)]
pub extern "C" fn crep_map_event(
    state: &mut [u8; at::SIZE],
    array: &mut [u8],
    map: &mut [u8],
    event: u8,
    answer: &mut u8,
) -> u8
    ensures { MapEventSays state.old array.old map.old event result state.new array.new map.new answer.new }
{
    let trace = [event];
    let mut told = [1u8; 1];
    let refused = crep_map_run(state, array, map, &trace, &mut told);
    *answer = told[0];
    refused
}

// A power-up with any 32 choices, with the map kept. Refused with 1, 18 or 2 it changes nothing. It answers that the line is high, with note 0,
// in every case.
#[unsafe(no_mangle)]
pub extern "C" fn crep_map_power_up(
    state: &mut [u8; at::SIZE],
    array: &mut [u8],
    map: &mut [u8],
    choices: u32,
    answer: &mut u8,
) -> u8
    ensures { MapPowerUpSays state.old array.old map.old choices result state.new array.new map.new answer.new }
{
    *answer = 1;
    let loaded = load(state, &array[..], &map[..]);
    let done = with_chip(
        state,
        loaded,
        &mut |chip| power_up(chip, array, map, choices),
    );
    status(&done)
}
