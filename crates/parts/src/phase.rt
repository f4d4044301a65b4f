// Where a chip is in a transfer, and what a phase does by itself: pull, and take the bit of a clock rise.
ghost use Rattle.std.specs.Prelude.{◌≡◌, ◌≤◌};
ghost use Rattle.parts.specs.Phase.{weight, phase_fits, phase_pulls, received, bit_of, risen};

// The phases. The four that receive a byte stay four and not one with a kind: the rules name them, and C numbers them.
#[derive(Clone, Copy)]
pub enum Phase {
    Standby,
    // receiving a byte, most significant bit first: how many bits came, and what they are so far
    Slave { bits: u8, got: u8 },
    First { bits: u8, got: u8 },
    Second { high: u8, bits: u8, got: u8 },
    Data { bits: u8, got: u8 },
    // acknowledging: a slave byte with write or with read, the first address byte, the second or a data byte
    AckWrite,
    AckRead,
    AckFirst { high: u8 },
    AckByte,
    // sending a bit of a byte; let go after bit 0 and waiting for the master's bit; its bit was low, next byte at the fall
    Sending { bit: u8, byte: u8 },
    Waiting,
    Next,
}

// Bit `bit` of a byte.
pub fn bit_of(byte: u8, bit: u8) -> bool
    ensures { result ≡ bit_of byte bit }
{
    let k = bit % 8;
    (byte >> k) % 2 == 1
}

// `worth` where a bit is set, else 0: a choice, as the definition has it, and no longer than a conversion and a product.
pub fn weigh(on: bool, worth: u8) -> u8
    ensures { (result ≡ weight on worth) × (result ≤ worth) }
{
    if on { worth } else { 0 }
}

// What was received, with one bit more; chosen by the bit, as in `weigh`.
pub fn with_bit(got: u8, bit: bool) -> u8
    ensures { result ≡ received got bit }
{
    if bit {
        got % 128 * 2 + 1
    } else {
        got % 128 * 2
    }
}

impl Phase {
    // Whether bits received and the bit being sent are in their ranges.
    #[tactic(auto, unfolding(crate::specs::Phase::phase_fits))]
    pub fn fits(self) -> bool
        ensures { result ≡ phase_fits self }
    {
        match self {
            Phase::Slave { bits, .. }
            | Phase::First { bits, .. }
            | Phase::Second { bits, .. }
            | Phase::Data { bits, .. } => bits <= 8,
            Phase::Sending { bit, .. } => bit <= 7,
            _ => true,
        }
    }

    // Whether a chip pulls here.
    #[tactic(auto, unfolding(crate::specs::Phase::phase_pulls))]
    pub fn pulls(self) -> bool
        ensures { result ≡ phase_pulls self }
    {
        match self {
            Phase::AckWrite | Phase::AckRead | Phase::AckFirst { .. } | Phase::AckByte => true,
            Phase::Sending { bit, byte } => !bit_of(byte, bit),
            _ => false,
        }
    }

    // The phase after a clock rise with this bit on the line.
    #[tactic(auto, unfolding(crate::specs::Phase::risen))]
    pub fn risen(self, bit: bool) -> Phase
        ensures { result ≡ risen self bit }
    {
        match self {
            Phase::Slave { bits, got } if bits < 8 => Phase::Slave {
                bits: bits + 1,
                got: with_bit(got, bit),
            },
            Phase::First { bits, got } if bits < 8 => Phase::First {
                bits: bits + 1,
                got: with_bit(got, bit),
            },
            Phase::Second { high, bits, got } if bits < 8 => Phase::Second {
                high,
                bits: bits + 1,
                got: with_bit(got, bit),
            },
            Phase::Data { bits, got } if bits < 8 => Phase::Data {
                bits: bits + 1,
                got: with_bit(got, bit),
            },
            Phase::Waiting => { if bit { Phase::Standby } else { Phase::Next } }
            _ => self,
        }
    }
}
