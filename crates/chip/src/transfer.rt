// Transfers: what a start, a clock rise and a clock fall do in each phase. The chip is lent and goes on in place: handed on by value, its 150 bytes are
// copied at each step, and a trace takes four times as long.
ghost use Rattle.std.specs.Prelude.{◌≡◌, ◌+◌, ◌*◌, cond};
ghost use Rattle.parts.specs.Note.{note_or_0};
ghost use Rattle.parts.specs.Phase.{risen};
ghost use Rattle.chip.specs.Part.{marked};
ghost use Rattle.chip.specs.Transfer.{moved, next_byte, slave_taken, address_taken, register_data, array_data, byte_begun, byte_ended, started, at_phase, fell};

use crate::chip::Chip;
use parts::note::Note;
use parts::phase::Phase;
use parts::register::has_register;
use parts::sector::{next_address, next_place};

impl Chip {
    // A start: any load is dropped, a slave byte comes.
    pub(crate) fn start(&mut self) -> Option<Note>
        ensures { moved self.new (note_or_0 result) ≡ started self.old }
    {
        self.drop_load(Phase::Slave { bits: 0, got: 0 })
    }

    // A clock rise: the bit on the line is taken.
    pub(crate) fn rise(&mut self, line: bool)
        ensures { self.new ≡ at_phase self.old (risen self.old.phase line) }
    {
        self.phase = self.phase.risen(line);
    }

    // The slave byte is taken.
    #[tactic(auto, unfolding(crate::specs::Transfer::slave_taken))]
    fn take_slave(&mut self, byte: u8)
        ensures { self.new ≡ slave_taken self.old byte }
    {
        let ours = byte / 16 == 0b1010 && byte / 2 % 8 == self.select;
        self.phase = if !ours {
            Phase::Standby
        } else if byte % 2 == 0 {
            Phase::AckWrite
        } else {
            Phase::AckRead
        };
    }

    // The second address byte is taken.
    #[tactic(auto, unfolding(crate::specs::Transfer::address_taken))]
    fn take_address(&mut self, high: u8, low: u8)
        ensures { self.new ≡ address_taken self.old (high * 256 + low) }
    {
        let address = u16::from_be_bytes([high, low]);
        self.phase = Phase::AckByte;
        self.mark = address == 0xffff && has_register(self.part);
        if !self.mark {
            self.counter = address % 0x4000;
        }
    }

    // A data byte for the register is taken.
    #[tactic(auto, unfolding(crate::specs::Transfer::register_data))]
    fn take_register(&mut self, byte: u8) -> Option<Note>
        ensures { moved self.new (note_or_0 result) ≡ register_data self.old byte }
    {
        if self.load.count == 0 {
            self.load.add(0, byte);
            self.phase = Phase::AckByte;
            return None;
        }
        self.drop_load(Phase::Standby)
    }

    // A data byte for the array is taken.
    #[tactic(auto, unfolding(crate::specs::Transfer::array_data))]
    fn take_data(&mut self, byte: u8)
        ensures { moved self.new 0 ≡ array_data self.old byte }
    {
        if self.enabled() {
            self.load.add(self.counter, byte);
            self.counter = next_place(self.counter);
            self.phase = Phase::AckByte;
        } else {
            self.phase = Phase::Standby;
        }
    }

    // The byte that a read sends next.
    fn next_byte(&self, array: &[u8]) -> u8
        ensures { result ≡ next_byte self.now array.now }
    {
        if self.marked() {
            return self.register.byte();
        }
        array.get(usize::from(self.counter)).copied().unwrap_or(0)
    }

    // A read byte begins with its bit 7.
    #[tactic(auto, unfolding(crate::specs::Transfer::byte_begun))]
    fn begin_byte(&mut self, array: &[u8])
        ensures { self.new ≡ byte_begun self.old array.now }
    {
        let byte = self.next_byte(array);
        self.phase = Phase::Sending { bit: 7, byte };
    }

    // A read byte has ended: the counter rises; after the register comes standby.
    #[tactic(auto, unfolding(crate::specs::Transfer::byte_ended))]
    fn end_byte(&mut self)
        ensures { self.new ≡ byte_ended self.old }
    {
        if self.marked() {
            self.phase = Phase::Standby;
            self.counter = 0;
            self.mark = false;
        } else {
            self.phase = Phase::Waiting;
            self.counter = next_address(self.counter);
        }
    }

    // A whole data byte is taken, by the register or by the array.
    fn take_byte(&mut self, byte: u8) -> Option<Note>
        ensures { moved self.new (note_or_0 result) ≡ cond (marked self.old.part self.old.mark) (register_data self.old byte) (array_data self.old byte) }
    {
        if self.marked() {
            return self.take_register(byte);
        }
        self.take_data(byte);
        None
    }

    // A clock fall: a whole byte is taken, an acknowledge ends, the next bit is sent.
    #[tactic(auto, unfolding(crate::specs::Transfer::fall_in))]
    pub(crate) fn fall(&mut self, array: &[u8]) -> Option<Note>
        ensures { moved self.new (note_or_0 result) ≡ fell self.old array.now }
    {
        match self.phase {
            Phase::Slave { bits: 8, got } => self.take_slave(got),
            Phase::First { bits: 8, got } => self.go(Phase::AckFirst { high: got }),
            Phase::Second { high, bits: 8, got } => self.take_address(high, got),
            Phase::Data { bits: 8, got } => return self.take_byte(got),
            Phase::AckWrite => self.go(Phase::First { bits: 0, got: 0 }),
            Phase::AckRead | Phase::Next => self.begin_byte(array),
            Phase::AckFirst { high } => self.go(Phase::Second {
                high,
                bits: 0,
                got: 0,
            }),
            Phase::AckByte => self.go(Phase::Data { bits: 0, got: 0 }),
            Phase::Sending { bit: 0, .. } => self.end_byte(),
            Phase::Sending { bit, byte } => self.go(Phase::Sending { bit: bit - 1, byte }),
            _ => (),
        }
        None
    }
}
