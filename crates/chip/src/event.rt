// One event: the edge of a sample and what it does, and the refusals before it.
ghost use Rattle.std.specs.Prelude.{◌≡◌};
ghost use Rattle.refusals.specs.Refusals.{status_of};
ghost use Rattle.parts.specs.Note.{note_or_0};
ghost use Rattle.chip.specs.Chip.{with_levels, pulls};
ghost use Rattle.chip.specs.Transfer.{moved};
ghost use Rattle.chip.specs.Wire.{line_of};
ghost use Rattle.chip.specs.Event.{refusal, answer_as, event_answer, event_array, reacted, judged, sampled, next, next_array};

use crate::chip::Chip;
use crate::wire::{Edge, Event, Sample, edge_of, line_of};
use parts::note::Note;
use refusals::Refusal;

// What an event answers that is taken: the line after it, and what it notes.
#[derive(Clone, Copy)]
pub struct Answer {
    pub line: bool,
    pub note: Option<Note>,
}

impl Chip {
    // What an edge does, with the line and the pin of its sample.
    #[tactic(auto, unfolding(crate::specs::Event::reacted))]
    fn react(&mut self, array: &[u8], edge: Edge, line: bool, pin: bool) -> Option<Note>
        ensures { moved self.new (note_or_0 result) ≡ reacted edge self.old line pin array.now }
    {
        match edge {
            Edge::Quiet => None,
            Edge::Start => self.start(),
            Edge::Stop => self.stop(pin),
            Edge::Rise => {
                self.rise(line);
                None
            }
            Edge::Fall => self.fall(array),
        }
    }

    // A sample's levels against the last ones: a busy chip ignores them.
    #[tactic(auto, unfolding(crate::specs::Event::judged))]
    fn judge(&mut self, array: &[u8], scl: bool, line: bool, pin: bool) -> Option<Note>
        ensures { moved self.new (note_or_0 result) ≡ judged self.old array.now scl line pin }
    {
        if self.busy {
            return None;
        }
        let edge = edge_of(self.scl, scl, self.line, line);
        self.react(array, edge, line, pin)
    }

    // Keeps the levels of a sample: its clock, and the line with the pull after it.
    fn settle(&mut self, sample: Sample)
        ensures { self.new ≡ with_levels self.old sample.scl (line_of (pulls self.old) sample.sda) }
    {
        self.line = line_of(self.pulls(), sample.sda);
        self.scl = sample.scl;
    }

    // A sample on wires of its own: it is judged with the pull before it, and the line that is kept has the pull after it.
    #[tactic(auto, unfolding(crate::specs::Event::sampled))]
    fn sample(&mut self, array: &[u8], sample: Sample) -> Option<Note>
        ensures { moved self.new (note_or_0 result) ≡ sampled self.old array.now sample }
    {
        let line = line_of(self.pulls(), sample.sda);
        let note = self.judge(array, sample.scl, line, sample.pin);
        self.settle(sample);
        note
    }

    // One event: the chip goes on, and what it notes is answered. The line is the one that the chip keeps.
    #[tactic(auto, unfolding(crate::specs::Event::next, crate::specs::Event::next_array))]
    pub fn next(&mut self, array: &mut [u8], event: Event) -> Option<Note>
        ensures { (moved self.new (note_or_0 result) ≡ next event self.old array.old) × (array.new ≡ next_array event self.old array.old) }
    {
        match event {
            Event::Sample(sample) => self.sample(&array[..], sample),
            Event::ProgramDone => {
                self.done(array);
                None
            }
            Event::PowerUp { choices } => {
                self.restart(array, choices);
                None
            }
        }
    }

    // Refuses an array that is not 16,384 bytes, and a chip with a number outside its range.
    #[tactic(auto, unfolding(crate::specs::Event::refusal))]
    pub fn check(&self, array: &[u8]) -> Result<(), Refusal>
        ensures { status_of result ≡ refusal self.now array.now }
    {
        if array.len() != Chip::BYTES {
            return Err(Refusal::ArrayLength);
        }
        if !self.fits() {
            return Err(Refusal::ChipRange);
        }
        Ok(())
    }

    // One event, refused as `check` has it: the chip and the array stay as they were.
    #[tactic(auto, unfolding(crate::specs::Event::event_answer, crate::specs::Event::event_array))]
    pub fn event(&mut self, array: &mut [u8], event: Event) -> Result<Answer, Refusal>
        ensures { (answer_as result self.new ≡ event_answer event self.old array.old) × (array.new ≡ event_array event self.old array.old) }
    {
        self.check(&array[..])?;
        let note = self.next(array, event);
        Ok(Answer {
            line: self.line,
            note,
        })
    }
}
