// The orders on records: the record is what is lent of the array, its label and the standard label are what is on the tape.
use crate::desk::Desk;
use crate::say;
use gate::answer::Given;
use std::io;

// What reading gives: the refusal, both limits, the travel and the label's length, zeros where the record is not good.
fn read(rt: &impl Print, record: &[u8]) -> io::Result<()> {
    let answer = gate::read(record);
    say::refused(rt, &answer)?;
    let given = Given::from(answer);
    say::signed(rt, b'=', i32::from(given.closed))?;
    say::signed(rt, b',', i32::from(given.opened))?;
    say::signed(rt, b',', given.travel)?;
    say::number(rt, b',', given.length as u64, 2)
}

// The name shown, and where it lies: in the record or in the standard label, from where, how long.
fn name(rt: &impl Print, record: &[u8], standard: &[u8]) -> io::Result<()> {
    say::text(rt, b"=[")?;
    say::name(rt, gate::shown_name(record, standard))?;
    say::letter(rt, b']')?;
    let span = gate::shown_span(record, standard);
    say::letter(rt, if span.own { b'r' } else { b's' })?;
    say::number(rt, b',', span.start as u64, 2)?;
    say::number(rt, b',', span.len as u64, 2)
}

impl Desk {
    // What is lent of the array, as a record, and the label on the tape: an order on both; nothing where the script lends more than there is.
    fn record<F: FnOnce(&mut [u8], &[u8]) -> io::Result<()>>(&mut self, order: F) -> io::Result<()>
        requires { F.IsAlwaysCallable order }
    {
        let Some(record) = self.board.array.get_mut(..self.board.room) else {
            return Ok(());
        };
        let Some(label) = self.tape.written() else {
            return Ok(());
        };
        order(record, label)
    }

    // Writes a record with the limits of the desk.
    pub(crate) fn write_record(&mut self, rt: &impl Print) -> io::Result<()> {
        let (closed, opened) = (self.closed, self.opened);
        self.record(|record, label| say::refused(rt, &gate::write(record, closed, opened, label)))
    }

    // Sets the limits of a record.
    pub(crate) fn set_limits(&mut self, rt: &impl Print) -> io::Result<()> {
        let (closed, opened) = (self.closed, self.opened);
        self.record(|record, _| say::refused(rt, &gate::set_limits(record, closed, opened)))
    }

    // Reads a record.
    pub(crate) fn read_record(&mut self, rt: &impl Print) -> io::Result<()> {
        self.record(|record, _| read(rt, record))
    }

    // The name that is shown for a record.
    pub(crate) fn show_name(&mut self, rt: &impl Print) -> io::Result<()> {
        self.record(|record, label| name(rt, record, label))
    }
}
