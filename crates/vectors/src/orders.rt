// The orders of a script: each is a letter, with a number in front where it wants one.
use crate::alter::alter;
use crate::desk::Desk;
use crate::{loads, say};
use chip::chip::Chip;
use std::io;

impl Desk {
    // Reads a byte in nine clocks, with the ninth bit of whoever reads, and writes it: eight of the sixteen bits heard, which are no byte of the two.
    fn read_byte(&mut self, rt: &impl Print, ninth: bool) -> io::Result<()> {
        let pin = self.board.pin;
        self.drive(rt, |tape| tape.nine(pin, 0xff, ninth))?;
        say::number(rt, b'=', self.board.heard / 2 % 256, 2)
    }

    // One order. Those on the wires stand here, with what they heard: the line after one event, or the byte that was read.
    pub(crate) fn act(&mut self, rt: &impl Print, order: u8) -> io::Result<()> {
        let pin = self.board.pin;
        let byte = self.low_byte();
        match order {
            b's' => self.drive(rt, |tape| tape.start(pin)),
            b'r' => self.drive(rt, |tape| tape.restart(pin)),
            b'p' => self.drive(rt, |tape| tape.stop(pin)),
            b'd' => self.drive(rt, |tape| tape.push(8)),
            b'u' => self.drive(rt, |tape| tape.push(9)),
            b'b' => self.drive(rt, |tape| tape.eight(pin, byte)),
            b'e' => {
                self.drive(rt, |tape| tape.push(byte))?;
                say::number(rt, b':', self.board.line, 1)
            }
            b'g' => self.read_byte(rt, false),
            b'l' => self.read_byte(rt, true),
            _ => self.run(rt, order),
        }
    }

    // Orders that run many events or begin anew.
    fn run(&mut self, rt: &impl Print, order: u8) -> io::Result<()> {
        let value = self.value();
        let byte = self.low_byte();
        match order {
            b'k' => self.burst(rt, value),
            b'P' => self.board.cut(rt, value),
            b'v' => self.board.recover(rt),
            b't' => self.run_tape(rt),
            b'S' => self.send_record(rt),
            b'n' => self.board.renew(rt, byte),
            _ => self.look(rt, order),
        }
    }

    // Orders that look at the chip and the array.
    fn look(&mut self, rt: &impl Print, order: u8) -> io::Result<()> {
        match order {
            b'i' => self.board.show(rt),
            b'h' => loads::show_load(rt, &self.board.chip.load),
            b'H' => loads::show_wait(rt, &self.board.chip.wait),
            b'm' => say::peek(rt, &self.board.array, self.value() as usize),
            b'o' => self.sector(rt),
            b'W' => self.write_record(rt),
            b'L' => self.set_limits(rt),
            b'R' => self.read_record(rt),
            b'N' => self.show_name(rt),
            b'M' => self.build(rt),
            b'G' => self.first_free(rt),
            b'I' => self.show_map(rt),
            _ => {
                self.poke(order);
                Ok(())
            }
        }
    }

    // The bytes of the sector of an address.
    fn sector(&self, rt: &impl Print) -> io::Result<()> {
        let first = self.value() as usize % 65536 / Chip::SECTOR * Chip::SECTOR;
        say::letter(rt, b'=')?;
        for byte in self.board.array.iter().skip(first).take(Chip::SECTOR) {
            say::byte(rt, *byte)?;
        }
        Ok(())
    }

    // Orders that set bytes of the array, the map or the tape, if there is such a byte.
    fn poke(&mut self, order: u8) {
        let at = self.address();
        let byte = self.low_byte();
        match order {
            b'w' => set_byte(&mut self.board.array, at, byte),
            b'K' => set_byte(&mut self.board.map, at, byte),
            b'f' => self.tape.pad(byte),
            b'q' => self.tape.poke_last(byte),
            _ => self.set(order),
        }
    }

    // Orders that set a number of the desk or a field of the chip.
    fn set(&mut self, order: u8) {
        let value = self.value() as usize;
        match order {
            b'a' => self.board.room = value,
            b'X' => self.board.span = value,
            b'y' => self.tape.length = value,
            b'z' => self.space = value,
            b'c' => self.closed = self.signed(),
            b'j' => self.opened = self.signed(),
            b'x' => {
                let [.., field, n] = self.value().to_be_bytes();
                alter(&mut self.board.chip, field, n);
            }
            _ => self.switch(order),
        }
    }

    // Orders that turn a switch.
    fn switch(&mut self, order: u8) {
        match order {
            b'^' => self.board.pin = true,
            b'_' => self.board.pin = false,
            b'{' => self.board.keeping = true,
            b'}' => self.board.keeping = false,
            b'[' => {
                self.recording = true;
                self.tape.length = 0;
            }
            b']' => self.recording = false,
            _ => {}
        }
    }
}

// Puts a byte at one position of a buffer, the place that a script names, if there is one.
fn set_byte(buffer: &mut [u8], at: usize, byte: u8) {
    if let Some(place) = buffer.get_mut(at) {
        *place = byte;
    }
}
