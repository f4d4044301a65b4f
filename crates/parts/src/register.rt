// The register: its four bits, the byte that it reads as, and what a byte written to it does.
ghost use Rattle.std.specs.Prelude.{◌≡◌};
ghost use Rattle.parts.specs.Note.{note_number};
ghost use Rattle.parts.specs.declared.wait.Target.TheVariants.{None};
ghost use Rattle.parts.specs.Register.{has_register, register_byte, written, reserved, written_as, latch_written, lock_written};

use crate::note::Note;
use crate::phase::{bit_of, weigh};
use crate::wait::Target;

#[derive(Clone, Copy)]
pub struct Register {
    // hardware protection: with the pin high at the stop, PPEN and BL are not written
    pub ppen: bool,
    // which addresses are locked, 0-3
    pub bl: u8,
    // the next register byte writes PPEN and BL
    pub rpel: bool,
    // data for the array is taken
    pub pel: bool,
}

// Whether the part has a register: all but the X24F129, part 2. Here as everywhere a part is any number, as `Chip` may carry it.
pub fn has_register(part: u8) -> bool
    ensures { result ≡ has_register part }
{
    part != 2
}

// Whether bit 0, 5 or 6 is set.
fn is_reserved(byte: u8) -> bool
    ensures { result ≡ reserved byte }
{
    bit_of(byte, 0) || bit_of(byte, 5) || bit_of(byte, 6)
}

impl Register {
    // The byte that the register reads as: PPEN 0 0 BL1 BL0 RPEL PEL 0.
    pub fn byte(self) -> u8
        ensures { result ≡ register_byte self }
    {
        let high = weigh(self.ppen, 128);
        let lock = self.bl % 4 * 8;
        let rpel = weigh(self.rpel, 4);
        let pel = weigh(self.pel, 2);
        high + lock + rpel + pel
    }

    // The rule for RPEL 0: 00h clears PEL, 02h sets it, 06h with PEL set sets RPEL.
    #[tactic(auto, unfolding(crate::specs::Register::latch_written))]
    fn latch(&mut self, byte: u8) -> Note
        ensures { written_as self.new None (note_number result) ≡ latch_written self.old byte }
    {
        match byte {
            0 => self.pel = false,
            2 => self.pel = true,
            6 if self.pel => self.rpel = true,
            _ => return Note::Refused,
        }
        Note::Latch
    }

    // The rule for RPEL 1: PPEN and BL of the byte wait, unless its low bits are wrong or the pin protects them.
    #[tactic(auto, unfolding(crate::specs::Register::lock_written))]
    fn lock(&mut self, byte: u8, pin: bool) -> (Target, Note)
        ensures { written_as self.new result.0 (note_number result.1) ≡ lock_written self.old byte pin }
    {
        if byte % 8 != 2 || self.ppen && pin {
            return (Target::None, Note::Refused);
        }
        self.rpel = false;
        let ppen = bit_of(byte, 7);
        let bl = byte / 8 % 4;
        (Target::Locks { ppen, bl }, Note::Locks)
    }

    // Takes a register byte at a rightly placed stop with the protect pin at this level: what waits where a cycle begins, and the note.
    #[tactic(auto, unfolding(crate::specs::Register::written))]
    pub fn write(&mut self, byte: u8, pin: bool) -> (Target, Note)
        ensures { written_as self.new result.0 (note_number result.1) ≡ written self.old byte pin }
    {
        if is_reserved(byte) {
            return (Target::None, Note::Refused);
        }
        if self.rpel {
            return self.lock(byte, pin);
        }
        (Target::None, self.latch(byte))
    }
}
