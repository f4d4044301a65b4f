// From the bytes of a chip to the chip, and whether they are bytes of a chip at all.
ghost use Rattle.std.specs.Prelude.{◌≡◌, map, ◌+◌, ◌*◌, ◌≤◌, get_or};
ghost use Rattle.chip_bytes.specs.State.{row, flag_of, phase_of, target_of, wait_of, all_flags, wait_fits, bytes_fit, chip_of};
ghost use Rattle.chip_bytes.specs.At.{size, wait, wait_ppen, wait_places};

use crate::at;
use chip::chip::Chip;
use parts::load::Load;
use parts::phase::Phase;
use parts::register::Register;
use parts::wait::{Target, Wait};

// The phase of a number from 0 to 11, with those of the three bytes beside it that it carries. The numbers are those of the C interface,
// and each byte has a name here, which a row would not give it.
#[tactic(auto, unfolding(crate::specs::State::phase_of))]
fn phase_of(number: u8, bits: u8, byte: u8, high: u8) -> Phase
    ensures { result ≡ phase_of number bits byte high }
{
    match number {
        0 => Phase::Standby,
        1 => Phase::Slave { bits, got: byte },
        2 => Phase::First { bits, got: byte },
        3 => Phase::Second {
            high,
            bits,
            got: byte,
        },
        4 => Phase::Data { bits, got: byte },
        5 => Phase::AckWrite,
        6 => Phase::AckRead,
        7 => Phase::AckFirst { high },
        8 => Phase::AckByte,
        9 => Phase::Sending { bit: bits, byte },
        10 => Phase::Waiting,
        _ => Phase::Next,
    }
}

// What waits by its kind from 0 to 2, with those of the four bytes beside it that it carries. The kinds are numbers of the C interface,
// and the bytes have names as in `phase_of`.
#[tactic(auto, unfolding(crate::specs::State::target_of))]
fn target_of(kind: u8, high: u8, low: u8, ppen: u8, bl: u8) -> Target
    ensures { result ≡ target_of kind high low ppen bl }
{
    match kind {
        0 => Target::None,
        1 => Target::Sector {
            number: u16::from_be_bytes([high, low]),
        },
        _ => Target::Locks {
            ppen: ppen == 1,
            bl,
        },
    }
}

// The row of a byte for each place that stands at an offset.
fn row_at(state: &[u8; at::SIZE], offset: usize) -> [u8; Chip::SECTOR]
    requires { offset + 32 ≤ size }
    ensures { result ≡ row 32 offset state.now }
{
    let mut bytes = [0; Chip::SECTOR];
    bytes.copy_from_slice(&state[offset..offset + Chip::SECTOR]);
    bytes
}

// The row of a flag for each place that stands at an offset; by a loop for the same reason as `flag_bytes`.
fn flags_at(state: &[u8; at::SIZE], offset: usize) -> [bool; Chip::SECTOR]
    requires { offset + 32 ≤ size }
    ensures { result ≡ map flag_of (row 32 offset state.now) }
{
    let mut flags = [false; Chip::SECTOR];
    for (place, byte) in state[offset..offset + Chip::SECTOR].iter().enumerate() {
        flags[place] = *byte == 1;
    }
    flags
}

// What waits in the chip: a sector with its places and bytes, any other with none.
#[tactic(auto, unfolding(crate::specs::State::wait_of, crate::specs::State::with_places))]
fn wait_of(state: &[u8; at::SIZE]) -> Wait
    ensures { result ≡ wait_of state.now }
{
    let target = target_of(
        state[at::WAIT],
        state[at::WAIT_HIGH],
        state[at::WAIT_LOW],
        state[at::WAIT_PPEN],
        state[at::WAIT_BL],
    );
    match target {
        Target::Sector { .. } => Wait {
            target,
            places: flags_at(state, at::WAIT_PLACES),
            bytes: row_at(state, at::WAIT_BYTES),
        },
        Target::None | Target::Locks { .. } => Wait::alone(target),
    }
}

// The chip that the bytes stand for.
#[tactic(auto, unfolding(crate::specs::State::chip_of))]
pub fn unpack(state: &[u8; at::SIZE]) -> Chip
    ensures { result ≡ chip_of state.now }
{
    let phase = phase_of(
        state[at::PHASE],
        state[at::BITS],
        state[at::BYTE],
        state[at::HIGH],
    );
    Chip {
        part: state[at::PART],
        select: state[at::SELECT],
        register: Register {
            ppen: state[at::PPEN] == 1,
            bl: state[at::BL],
            rpel: state[at::RPEL] == 1,
            pel: state[at::PEL] == 1,
        },
        counter: u16::from_be_bytes([state[at::COUNTER_HIGH], state[at::COUNTER_LOW]]),
        mark: state[at::MARK] == 1,
        busy: state[at::BUSY] == 1,
        scl: state[at::SCL] == 1,
        line: state[at::LINE] == 1,
        phase,
        load: Load {
            bytes: row_at(state, at::LOAD),
            places: flags_at(state, at::PLACES),
            count: state[at::COUNT],
        },
        spoil: state[at::SPOIL],
        wait: wait_of(state),
    }
}

// Whether each byte is 0 or 1.
fn all_flags(bytes: &[u8]) -> bool
    ensures { result ≡ all_flags bytes.now }
{
    bytes.iter().all(|byte| *byte <= 1)
}

// Whether the kind of what waits is one of the three and each flag that it carries is 0 or 1.
#[tactic(auto, using(crate::proofs::Rows::row_part), unfolding(crate::specs::State::wait_fits))]
fn wait_fits(state: &[u8; at::SIZE]) -> bool
    ensures { result ≡ wait_fits (get_or state.now wait 0) (get_or state.now wait_ppen 0) (row 32 wait_places state.now) }
{
    match state[at::WAIT] {
        0 => true,
        1 => all_flags(&state[at::WAIT_PLACES..at::WAIT_BYTES]),
        2 => state[at::WAIT_PPEN] <= 1,
        _ => false,
    }
}

// Whether the phase is one of the twelve, each flag is 0 or 1 and what waits fits.
#[tactic(auto, using(crate::proofs::Rows::row_part), unfolding(crate::specs::State::bytes_fit))]
pub fn bytes_fit(state: &[u8; at::SIZE]) -> bool
    ensures { result ≡ bytes_fit state.now }
{
    let flags = [
        state[at::PPEN],
        state[at::RPEL],
        state[at::PEL],
        state[at::MARK],
        state[at::BUSY],
        state[at::SCL],
        state[at::LINE],
    ];
    (state[at::PHASE] <= 11)
        && all_flags(&flags)
        && all_flags(&state[at::PLACES..at::LOAD])
        && wait_fits(state)
}
