// Chips that no run reaches: a field is set to any number.
use chip::chip::Chip;
use parts::load::Load;
use parts::phase::Phase;
use parts::wait::{Target, Wait};

// The phase of a number, 0 standby to 11 next as in the C header, with so many bits received or this bit being sent, all else 0. The function of this name
// in `chip_bytes` is private to it: it is handed three bytes of a packed chip, and takes any number above 10 for the last phase.
fn phase_of(phase: u8, bits: u8) -> Phase {
    match phase {
        1 => Phase::Slave { bits, got: 0 },
        2 => Phase::First { bits, got: 0 },
        3 => Phase::Second {
            high: 0,
            bits,
            got: 0,
        },
        4 => Phase::Data { bits, got: 0 },
        5 => Phase::AckWrite,
        6 => Phase::AckRead,
        7 => Phase::AckFirst { high: 0 },
        8 => Phase::AckByte,
        9 => Phase::Sending { bit: bits, byte: 0 },
        10 => Phase::Waiting,
        11 => Phase::Next,
        _ => Phase::Standby,
    }
}

// A sector waits, all places with 5Ah.
fn waiting_sector(number: u16) -> Wait {
    Wait {
        target: Target::Sector { number },
        places: [true; 32],
        bytes: [0x5a; 32],
    }
}

// PPEN and BL wait: the highest bit, and the other seven.
fn waiting_locks(n: u8) -> Wait {
    Wait::alone(Target::Locks {
        ppen: 127 < n,
        bl: n % 128,
    })
}

// Sets a field of the chip to a number; the field is a number in the scripts: 0 part, 1 select, 2 BL, 3 counter (times 256), 4 phase and bits, 5 count of an empty load, 6 busy,
// 7 spoil, 8 PPEN and BL that wait, 10 the bytes of the load, from 80h on a sector that waits. With another field nothing waits.
pub(crate) fn alter(chip: &mut Chip, field: u8, n: u8) {
    match field {
        0 => chip.part = n,
        1 => chip.select = n,
        2 => chip.register.bl = n,
        3 => chip.counter = u16::from(n) * 256,
        4 => chip.phase = phase_of(n / 16, n % 16),
        5 => {
            chip.load = Load {
                count: n,
                ..Load::none()
            }
        }
        6 => chip.busy = n == 1,
        7 => chip.spoil = n,
        8 => chip.wait = waiting_locks(n),
        10 => chip.load.bytes = [n; 32],
        128.. => chip.wait = waiting_sector(u16::from_be_bytes([field % 128, n])),
        _ => chip.wait = Wait::none(),
    }
}
