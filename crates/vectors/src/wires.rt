// The wires as event bytes: each method puts its events on a tape. The pin goes with each: it is the board's, and a script may turn it between two events.
use crate::tape::Tape;
use parts::phase::bit_of;
use trace::sample_byte;

impl Tape {
    // From lines that are let go: a start.
    pub(crate) fn start(&mut self, pin: bool) {
        self.push(sample_byte(true, true, pin));
        self.push(sample_byte(true, false, pin));
    }

    // After a ninth clock: a start.
    pub(crate) fn restart(&mut self, pin: bool) {
        self.push(sample_byte(false, true, pin));
        self.start(pin);
    }

    // A stop: the clock falls, rises with the line low, and the line rises.
    pub(crate) fn stop(&mut self, pin: bool) {
        self.push(sample_byte(false, false, pin));
        self.push(sample_byte(true, false, pin));
        self.push(sample_byte(true, true, pin));
    }

    // One clock with a bit, low then high.
    fn clock(&mut self, pin: bool, bit: bool) {
        self.push(sample_byte(false, bit, pin));
        self.push(sample_byte(true, bit, pin));
    }

    // Eight clocks with the bits of a byte, the highest first.
    pub(crate) fn eight(&mut self, pin: bool, byte: u8) {
        for bit in (0..8).rev() {
            self.clock(pin, bit_of(byte, bit));
        }
    }

    // Nine clocks: a byte and a ninth bit.
    pub(crate) fn nine(&mut self, pin: bool, byte: u8, ninth: bool) {
        self.eight(pin, byte);
        self.clock(pin, ninth);
    }
}
