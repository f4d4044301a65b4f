// The board: a chip with its array and a map of free sectors, the protect pin, and what was last heard on the line.
use crate::say;
use chip::chip::Chip;
use chip::wire::Event;
use std::io;

#[derive(Drop)]
pub(crate) struct Board {
    pub chip: Chip,
    // the chip's array, and one byte beside it
    pub array: [u8; 16385],
    // the map, and one byte beside it
    pub map: [u8; 65],
    pub pin: bool,
    // the line after the last event, and after the last sixteen rises of the clock
    pub line: bool,
    pub heard: u16,
    // how much of the array is lent, and of the map: a length beside a buffer of fixed size, since there is no heap here and a script may lend more than a chip has
    pub room: usize,
    pub span: usize,
    // whether the map goes with the events
    pub keeping: bool,
}

impl Board {
    // A standard chip with an array of FFh and a map of 00h.
    pub(crate) fn new() -> Board {
        Board {
            chip: Chip::standard(),
            array: [0xff; 16385],
            map: [0; 65],
            pin: false,
            line: true,
            heard: 0,
            room: Chip::BYTES,
            span: 64,
            keeping: false,
        }
    }

    // One event on what is lent: its refusal and its note are written where there is one. With the map it is another function with one thing more lent,
    // here and for a whole trace.
    fn run(&mut self, rt: &impl Print, event: Event) -> io::Result<()> {
        let Some(array) = self.array.get_mut(..self.room) else {
            return Ok(());
        };
        let told = if self.keeping {
            let Some(map) = self.map.get_mut(..self.span) else {
                return Ok(());
            };
            map::event(&mut self.chip, array, map, event)
        } else {
            self.chip.event(array, event)
        };
        self.line = told.map_or(true, |answer| answer.line);
        say::refused(rt, &told)?;
        say::note(rt, told.ok().and_then(|answer| answer.note))
    }

    // One event byte, heard: samples with the clock high count.
    fn hear(&mut self, rt: &impl Print, event: u8) -> io::Result<()> {
        self.run(rt, trace::event_of(event))?;
        if event % 2 == 1 {
            self.heard = self.heard << 1 | u16::from(self.line);
        }
        Ok(())
    }

    // Events, one after another.
    pub(crate) fn play(&mut self, rt: &impl Print, events: &[u8]) -> io::Result<()> {
        for event in events {
            self.hear(rt, *event)?;
        }
        Ok(())
    }

    // A power-up with any choices, and the line after it.
    pub(crate) fn cut(&mut self, rt: &impl Print, choices: u32) -> io::Result<()> {
        self.run(rt, Event::PowerUp { choices })?;
        say::number(rt, b':', self.line, 1)
    }

    // A new chip, part in the high digit and select in the low one, and an array of FFh.
    pub(crate) fn renew(&mut self, rt: &impl Print, n: u8) -> io::Result<()> {
        let made = Chip::new(n / 16, n % 16);
        self.chip = made.unwrap_or(Chip::standard());
        self.array.fill(0xff);
        self.pin = false;
        self.room = Chip::BYTES;
        say::refused(rt, &made)
    }

    // Recovery, with the pin as it stands.
    pub(crate) fn recover(&mut self, rt: &impl Print) -> io::Result<()> {
        let Some(array) = self.array.get_mut(..self.room) else {
            return Ok(());
        };
        let freed = recovery::recover(&mut self.chip, array, self.pin);
        say::refused(rt, &freed)?;
        say::number(rt, b'=', freed.unwrap_or(0), 2)
    }

    // The register byte, the counter, and `m` for the mark, `b` for busy.
    pub(crate) fn show(&self, rt: &impl Print) -> io::Result<()> {
        say::number(rt, b'=', self.chip.register.byte(), 2)?;
        say::number(rt, b',', self.chip.counter, 4)?;
        say::flag(rt, self.chip.mark, b'm')?;
        say::flag(rt, self.chip.busy, b'b')
    }
}
