// The desk: a board, a tape, and what the order that is being read has so far.
use crate::board::Board;
use crate::say;
use crate::tape::Tape;
use std::io;

// What is being read: orders, a comment, or text that goes on the tape.
#[derive(Clone, Copy)]
enum Reading {
    Orders,
    Comment,
    Text,
}

#[derive(Drop)]
pub(crate) struct Desk {
    pub board: Board,
    pub tape: Tape,
    reading: Reading,
    // the number in front of the next order, and whether a minus is
    number: Option<u32>,
    minus: bool,
    // events stay on the tape
    pub recording: bool,
    // how much of the answer buffer is lent; a length of its own, as those of the board
    pub space: usize,
    // the limits of the next record
    pub closed: i32,
    pub opened: i32,
}

impl Desk {
    // The desk as a script finds it.
    pub(crate) fn new() -> Desk {
        Desk {
            board: Board::new(),
            tape: Tape::new(),
            reading: Reading::Orders,
            number: None,
            minus: false,
            recording: false,
            space: 65536,
            closed: 0,
            opened: 0,
        }
    }

    // The number that was read, 0 where there is none. Where a place or some of its bits are meant, a cast takes them: no `From` of a u32 does.
    pub(crate) fn value(&self) -> u32 {
        self.number.unwrap_or(0)
    }

    // The low byte of the number.
    pub(crate) fn low_byte(&self) -> u8 {
        (self.value() & 0xff) as u8
    }

    // The number without its low byte, as an address.
    pub(crate) fn address(&self) -> usize {
        (self.value() >> 8) as usize
    }

    // The low 24 bits of the number, with its sign.
    pub(crate) fn signed(&self) -> i32 {
        let size = (self.value() & 0xffffff) as i32;
        if self.minus { -size } else { size }
    }

    // Puts events on the tape: they stay there, or the chip has them and the tape is as long as it was.
    pub(crate) fn drive<F: FnOnce(&mut Tape)>(
        &mut self,
        rt: &impl Print,
        events: F,
    ) -> io::Result<()>
        requires { F.IsAlwaysCallable events }
    {
        let from = self.tape.length;
        events(&mut self.tape);
        if self.recording {
            return Ok(());
        }
        if let Some(added) = self.tape.bytes.get(from..self.tape.length) {
            self.board.play(rt, added)?;
        }
        self.tape.length = from;
        Ok(())
    }

    // Sends a byte in nine clocks, let go in the ninth.
    fn send(&mut self, rt: &impl Print, byte: u8) -> io::Result<()> {
        let pin = self.board.pin;
        self.drive(rt, |tape| tape.nine(pin, byte, true))
    }

    // Sends n bytes 01h, 02h, .. and writes how many of them were acknowledged; the count after FFFFFh is 1.
    pub(crate) fn burst(&mut self, rt: &impl Print, n: u32) -> io::Result<()> {
        let mut taken: u32 = 0;
        for i in 0..n {
            self.send(rt, (i % 255 + 1) as u8)?;
            if !self.board.line {
                taken = taken % 0xfffff + 1;
            }
        }
        say::number(rt, b'+', taken, 2)
    }

    // One digit more of the number.
    fn digit(&mut self, digit: u8) {
        self.number = Some(self.value() << 4 | u32::from(digit));
    }

    // A number that stands by itself is a byte to send; `+` says that it was acknowledged.
    fn space(&mut self, rt: &impl Print) -> io::Result<()> {
        if self.number.is_some() {
            self.send(rt, self.low_byte())?;
            if !self.recording {
                say::letter(rt, if self.board.line { b'-' } else { b'+' })?;
            }
            self.clear();
        }
        Ok(())
    }

    // The number is used.
    fn clear(&mut self) {
        self.number = None;
        self.minus = false;
    }

    // One byte of text, which goes on the tape, up to the quotation mark.
    fn letter(&mut self, byte: u8) {
        if byte == b'"' {
            self.reading = Reading::Orders;
        } else {
            self.tape.push(byte);
        }
    }

    // One byte of an order: a digit, a sign, what begins a comment or a text, or the letter itself.
    fn order(&mut self, rt: &impl Print, byte: u8) -> io::Result<()> {
        match byte {
            b'#' => self.reading = Reading::Comment,
            b'"' => {
                self.reading = Reading::Text;
                self.tape.length = 0;
            }
            b'-' => self.minus = true,
            b'0'..=b'9' => self.digit(byte - b'0'),
            b'A'..=b'F' => self.digit(byte - b'A' + 10),
            _ => {
                self.act(rt, byte)?;
                self.clear();
            }
        }
        Ok(())
    }

    // One byte of the script, written again; a byte that a space ends is sent before the space is written. A comment runs to the end
    // of its line.
    pub(crate) fn take(&mut self, rt: &impl Print, byte: u8) -> io::Result<()> {
        match self.reading {
            Reading::Orders if matches!(byte, b' ' | b'\n') => {
                self.space(rt)?;
                say::letter(rt, byte)
            }
            Reading::Orders => {
                say::letter(rt, byte)?;
                self.order(rt, byte)
            }
            Reading::Comment => {
                if byte == b'\n' {
                    self.reading = Reading::Orders;
                }
                say::letter(rt, byte)
            }
            Reading::Text => {
                self.letter(byte);
                say::letter(rt, byte)
            }
        }
    }
}
