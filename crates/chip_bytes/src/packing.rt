// From a chip to its bytes.
ghost use Rattle.std.specs.Prelude.{◌≡◌, ◌++◌, map, ◌+◌, ◌≤◌, length, take, drop};
ghost use Rattle.chip_bytes.specs.State.{flag_byte, phase_bytes, target_bytes, wait_bytes, head_bytes, bytes_of};
ghost use Rattle.chip_bytes.specs.At as at;

use crate::at;
use chip::chip::Chip;
use parts::phase::Phase;
use parts::wait::{Target, Wait};

// 1 for a flag that is set, else 0.
pub fn flag_byte(on: bool) -> u8
    ensures { result ≡ flag_byte on }
{
    u8::from(on)
}

// The four bytes of a phase: its number, bits, byte and high, where 0 stands for what it does not carry. The numbers are those of the C interface.
#[tactic(auto, unfolding(crate::specs::State::phase_bytes))]
fn phase_bytes(phase: Phase) -> [u8; 4]
    ensures { result ≡ phase_bytes phase }
{
    match phase {
        Phase::Standby => [0, 0, 0, 0],
        Phase::Slave { bits, got } => [1, bits, got, 0],
        Phase::First { bits, got } => [2, bits, got, 0],
        Phase::Second { high, bits, got } => [3, bits, got, high],
        Phase::Data { bits, got } => [4, bits, got, 0],
        Phase::AckWrite => [5, 0, 0, 0],
        Phase::AckRead => [6, 0, 0, 0],
        Phase::AckFirst { high } => [7, 0, 0, high],
        Phase::AckByte => [8, 0, 0, 0],
        Phase::Sending { bit, byte } => [9, bit, byte, 0],
        Phase::Waiting => [10, 0, 0, 0],
        Phase::Next => [11, 0, 0, 0],
    }
}

// The five bytes of what waits: its kind, the two of its sector's number, its PPEN and BL, where 0 stands for what it does not carry.
// The kinds are numbers of the C interface.
#[tactic(auto, unfolding(crate::specs::State::target_bytes))]
fn target_bytes(target: Target) -> [u8; 5]
    ensures { result ≡ target_bytes target }
{
    match target {
        Target::None => [0, 0, 0, 0, 0],
        Target::Sector { number } => {
            let [high, low] = number.to_be_bytes();
            [1, high, low, 0, 0]
        }
        Target::Locks { ppen, bl } => [2, 0, 0, flag_byte(ppen), bl],
    }
}

// The bytes before the load's places.
#[tactic(auto, unfolding(crate::specs::State::head_bytes))]
fn head_bytes(chip: &Chip) -> [u8; at::PLACES]
    ensures { result ≡ head_bytes chip.now }
{
    let register = chip.register;
    let [counter_high, counter_low] = chip.counter.to_be_bytes();
    let [number, bits, byte, high] = phase_bytes(chip.phase);
    [
        chip.part,
        chip.select,
        flag_byte(register.ppen),
        register.bl,
        flag_byte(register.rpel),
        flag_byte(register.pel),
        counter_high,
        counter_low,
        flag_byte(chip.mark),
        flag_byte(chip.busy),
        flag_byte(chip.scl),
        flag_byte(chip.line),
        number,
        bits,
        byte,
        high,
        chip.load.count,
    ]
}

// A byte for each flag. The array's own `map` takes five times the instructions.
fn flag_bytes(flags: &[bool; Chip::SECTOR]) -> [u8; Chip::SECTOR]
    ensures { result ≡ map flag_byte flags.now }
{
    let mut bytes = [0; Chip::SECTOR];
    for (place, on) in flags.iter().enumerate() {
        bytes[place] = flag_byte(*on);
    }
    bytes
}

// Copies what waits into the bytes of a chip, which end with it.
fn copy_wait(state: &mut [u8; at::SIZE], wait: &Wait)
    ensures { state.new ≡ take at.wait state.old ++ wait_bytes wait.now }
{
    state[at::WAIT..at::WAIT_PLACES].copy_from_slice(&target_bytes(wait.target));
    state[at::WAIT_PLACES..at::WAIT_BYTES].copy_from_slice(&flag_bytes(&wait.places));
    state[at::WAIT_BYTES..].copy_from_slice(&wait.bytes);
}

// Copies each field of a chip into its place.
fn copy_chip(state: &mut [u8; at::SIZE], chip: &Chip)
    ensures { state.new ≡ bytes_of chip.now }
{
    state[at::PART..at::PLACES].copy_from_slice(&head_bytes(chip));
    state[at::PLACES..at::LOAD].copy_from_slice(&flag_bytes(&chip.load.places));
    state[at::LOAD..at::SPOIL].copy_from_slice(&chip.load.bytes);
    state[at::SPOIL] = chip.spoil;
    copy_wait(state, &chip.wait);
}

// The bytes of a chip. As a function of its own it would copy them once more at each call of C.
#[inline(always)]
pub fn pack(chip: &Chip) -> [u8; at::SIZE]
    ensures { result ≡ bytes_of chip.now }
{
    let mut state = [0; at::SIZE];
    copy_chip(&mut state, chip);
    state
}
