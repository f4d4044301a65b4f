// The tape: the bytes that an order put on it, events or text, and how many they are.
#[derive(Drop)]
pub(crate) struct Tape {
    // one event more than a trace may have
    pub bytes: [u8; 65537],
    // how many are on the tape, as the script last said
    pub length: usize,
}

impl Tape {
    // Nothing is on it, and its bytes are samples with both wires high.
    pub(crate) fn new() -> Tape {
        Tape {
            bytes: [3; 65537],
            length: 0,
        }
    }

    // What is on the tape; `None` where the script said that it is longer than it can be.
    pub(crate) fn written(&self) -> Option<&[u8]> {
        self.bytes.get(..self.length)
    }

    // One byte; nothing where the tape is full.
    pub(crate) fn push(&mut self, byte: u8) {
        if let Some(place) = self.bytes.get_mut(self.length) {
            *place = byte;
            self.length += 1;
        }
    }

    // Puts a byte at every position after what is on the tape.
    pub(crate) fn pad(&mut self, byte: u8) {
        if let Some(rest) = self.bytes.get_mut(self.length..) {
            rest.fill(byte);
        }
    }

    // Puts a byte at the last position.
    pub(crate) fn poke_last(&mut self, byte: u8) {
        if let Some(written) = self.bytes.get_mut(..self.length)
            && let Some(last) = written.last_mut()
        {
            *last = byte;
        }
    }
}
