// The exports of the kit for C, in libcrepulanter.a: each only calls the function of the same name in crate `crepulanter`, and promises what that
// one promises, word for word. They stand twice because a crate is a library, which `operations` and its theorems need, or a static library, which C
// needs. include/crepulanter.h is the other side of this interface.
#![tactic(auto)]

ghost use Rattle.std.specs.Prelude.{◌≡◌};
ghost use Rattle.gate.specs.Limiting.{limits_of, limited_of};
ghost use Rattle.gate.specs.Writing.{write_of, written_of};
ghost use Rattle.map.specs.Sectors.{build_refusal, built_of};
ghost use Rattle.crepulanter.specs.Calls.{NewSays, EventSays, RunSays, PowerUpSays, RecoverSays};
ghost use Rattle.crepulanter.specs.Maps.{FirstSays, MapEventSays, MapRunSays, MapPowerUpSays};
ghost use Rattle.crepulanter.specs.Records.{ReadSays, NameSays};
ghost use Rattle.crepulanter.specs.Sending.{SendSays};

use chip_bytes::at;

// Makes a new chip; refused with 3, the standard chip.
#[unsafe(no_mangle)]
pub extern "C" fn crep_new(state: &mut [u8; at::SIZE], part: u8, select: u8) -> u8
    ensures { NewSays part select result state.new }
{
    crepulanter::crep_new(state, part, select)
}

// Runs a trace. Refused with 1, 2, 4, 5 or 6 it changes nothing and writes no answer.
#[unsafe(no_mangle)]
pub extern "C" fn crep_run(
    state: &mut [u8; at::SIZE],
    array: &mut [u8],
    trace: &[u8],
    answers: &mut [u8],
) -> u8
    ensures { RunSays state.old array.old trace.now answers.old result state.new array.new answers.new }
{
    crepulanter::crep_run(state, array, trace, answers)
}

// Runs one event, as a trace of one. Refused with 1, 2 or 6 it changes nothing, and answers that the line is high, with note 0.
#[unsafe(no_mangle)]
pub extern "C" fn crep_event(
    state: &mut [u8; at::SIZE],
    array: &mut [u8],
    event: u8,
    answer: &mut u8,
) -> u8
    ensures { EventSays state.old array.old event result state.new array.new answer.new }
{
    crepulanter::crep_event(state, array, event, answer)
}

// A power-up with any 32 choices. Refused with 1 or 2 it changes nothing. It answers that the line is high, with note 0, in every case.
#[unsafe(no_mangle)]
pub extern "C" fn crep_power_up(
    state: &mut [u8; at::SIZE],
    array: &mut [u8],
    choices: u32,
    answer: &mut u8,
) -> u8
    ensures { PowerUpSays state.old array.old choices result state.new array.new answer.new }
{
    crepulanter::crep_power_up(state, array, choices, answer)
}

// Frees the bus. Refused with 1 or 2 it changes nothing and reports 0 pulses.
#[unsafe(no_mangle)]
pub extern "C" fn crep_recover(
    state: &mut [u8; at::SIZE],
    array: &mut [u8],
    pin: u8,
    pulses: &mut u8,
) -> u8
    ensures { RecoverSays state.old array.old pin result state.new array.new pulses.new }
{
    crepulanter::crep_recover(state, array, pin, pulses)
}

// Builds the map of an array. Refused with 1 or 18 it writes nothing.
#[unsafe(no_mangle)]
pub extern "C" fn crep_map_build(array: &[u8], map: &mut [u8]) -> u8
    ensures { (result ≡ build_refusal array.now map.old) × (map.new ≡ built_of array.now map.old) }
{
    crepulanter::crep_map_build(array, map)
}

// The first free sector by a map, or 512 where none is free. Refused with 18 it leaves 512 too.
#[unsafe(no_mangle)]
pub extern "C" fn crep_map_first(map: &[u8], sector: &mut u16) -> u8
    ensures { FirstSays map.now result sector.new }
{
    crepulanter::crep_map_first(map, sector)
}

// Runs a trace and keeps the map. Refused with 1, 18, 2, 4, 5 or 6 it changes nothing and writes no answer.
#[unsafe(no_mangle)]
pub extern "C" fn crep_map_run(
    state: &mut [u8; at::SIZE],
    array: &mut [u8],
    map: &mut [u8],
    trace: &[u8],
    answers: &mut [u8],
) -> u8
    ensures { MapRunSays state.old array.old map.old trace.now answers.old result state.new array.new map.new answers.new }
{
    crepulanter::crep_map_run(state, array, map, trace, answers)
}

// Runs one event, as a trace of one, and keeps the map. Refused with 1, 18, 2 or 6 it changes nothing, and answers that the line is high, with
// note 0.
#[unsafe(no_mangle)]
pub extern "C" fn crep_map_event(
    state: &mut [u8; at::SIZE],
    array: &mut [u8],
    map: &mut [u8],
    event: u8,
    answer: &mut u8,
) -> u8
    ensures { MapEventSays state.old array.old map.old event result state.new array.new map.new answer.new }
{
    crepulanter::crep_map_event(state, array, map, event, answer)
}

// A power-up with any 32 choices, with the map kept. Refused with 1, 18 or 2 it changes nothing. It answers that the line is high, with note 0,
// in every case.
#[unsafe(no_mangle)]
pub extern "C" fn crep_map_power_up(
    state: &mut [u8; at::SIZE],
    array: &mut [u8],
    map: &mut [u8],
    choices: u32,
    answer: &mut u8,
) -> u8
    ensures { MapPowerUpSays state.old array.old map.old choices result state.new array.new map.new answer.new }
{
    crepulanter::crep_map_power_up(state, array, map, choices, answer)
}

// Writes a record into a buffer of 32 bytes. Refused with 7, 8, 9, 10 or 11 it writes nothing.
#[unsafe(no_mangle)]
pub extern "C" fn crep_record_write(bytes: &mut [u8], closed: i32, opened: i32, label: &[u8]) -> u8
    ensures { (result ≡ write_of bytes.old closed opened label.now) × (bytes.new ≡ written_of bytes.old closed opened label.now) }
{
    crepulanter::crep_record_write(bytes, closed, opened, label)
}

// Puts new limits into a good record, and leaves its label. Refused with 7, 12 (a free record too), 13, 14, 10 or 11 it writes nothing.
#[unsafe(no_mangle)]
pub extern "C" fn crep_record_limits(bytes: &mut [u8], closed: i32, opened: i32) -> u8
    ensures { (result ≡ limits_of bytes.old closed opened) × (bytes.new ≡ limited_of bytes.old closed opened) }
{
    crepulanter::crep_record_limits(bytes, closed, opened)
}

// Reads a record: its limits, its travel, its label's length, and whether it is free. Refused with 7, 12, 13 or 14 all are 0.
#[unsafe(no_mangle)]
pub extern "C" fn crep_record_read(
    bytes: &[u8],
    closed: &mut i32,
    opened: &mut i32,
    travel: &mut i32,
    length: &mut u8,
    free: &mut u8,
) -> u8
    ensures { ReadSays bytes.now result closed.new opened.new travel.new length.new free.new }
{
    crepulanter::crep_record_read(bytes, closed, opened, travel, length, free)
}

// Where the name to show lies: how many bytes from where, and whether in the record. It always answers, with 0.
#[unsafe(no_mangle)]
pub extern "C" fn crep_name(
    bytes: &[u8],
    standard: &[u8],
    start: &mut usize,
    count: &mut usize,
    own: &mut u8,
) -> u8
    ensures { NameSays bytes.now standard.now result start.new count.new own.new }
{
    crepulanter::crep_name(bytes, standard, start, count, own)
}

// Writes the events that put a gate's record into its sector on this part, and leaves their number. Refused with 7, 12 (a free record too),
// 13, 14, 15, 16, 3 or 17 it writes nothing and leaves 0.
#[unsafe(no_mangle)]
pub extern "C" fn crep_send(
    part: u8,
    select: u8,
    gate: u16,
    bytes: &[u8],
    trace: &mut [u8],
    events: &mut u16,
) -> u8
    ensures { SendSays part select gate bytes.now trace.old result trace.new events.new }
{
    crepulanter::crep_send(part, select, gate, bytes, trace, events)
}
