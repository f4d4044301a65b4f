// The order that sends a record: the record is what is lent of the array, and its events go on what is lent of the tape.
use crate::desk::Desk;
use crate::{count, say};
use std::io;

impl Desk {
    // Sends the record with part, select and gate number from the number read. The refusal, the count of events and the sum of the whole
    // tape are written; what was sent is then on the tape.
    pub(crate) fn send_record(&mut self, rt: &impl Print) -> io::Result<()> {
        let [part, select, high, low] = self.value().to_be_bytes();
        let gate = u16::from_be_bytes([high, low]);
        let Some(record) = self.board.array.get(..self.board.room) else {
            return Ok(());
        };
        let Some(events) = self.tape.bytes.get_mut(..self.space) else {
            return Ok(());
        };
        let sent = sender::send(part, select, gate, record, events);
        if let Ok(count) = sent {
            self.tape.length = usize::from(count);
        }
        say::refused(rt, &sent)?;
        say::number(rt, b'=', sent.unwrap_or(0), 4)?;
        say::number(rt, b',', count::sum(&self.tape.bytes), 5)
    }
}
