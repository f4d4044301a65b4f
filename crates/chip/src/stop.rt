// What a stop does: nothing, a register byte written, or a cycle begun in which a load, or the spoil byte in its place, waits for the sector.
ghost use Rattle.std.specs.Prelude.{◌≡◌};
ghost use Rattle.parts.specs.Note.{note_or_0, note_number};
ghost use Rattle.parts.specs.Register.{written};
ghost use Rattle.chip.specs.Part.{partial};
ghost use Rattle.chip.specs.Stop.{rightly, array_effect, right_effect, stop_effect, cycling, effect_moved, Change};
ghost use Rattle.chip.specs.Transfer.{moved};

use crate::chip::Chip;
use parts::load::Load;
use parts::locks::is_locked;
use parts::note::Note;
use parts::phase::Phase;
use parts::sector::sector_start;
use parts::wait::Wait;

// Whether a stop here is rightly placed: exactly one bit of a data byte received.
#[tactic(auto, unfolding(crate::specs::Stop::rightly))]
fn rightly_placed(phase: Phase) -> bool
    ensures { result ≡ rightly phase }
{
    matches!(phase, Phase::Data { bits: 1, .. })
}

impl Chip {
    // Whether the load is one that the part does not take.
    fn partial(&self) -> bool
        ensures { result ≡ partial self.now.part self.now.load.count }
    {
        self.load.count != 32 && self.part != Chip::X24128
    }

    // Begins a cycle of the array: a load waits for the counter's sector, RPEL is cleared, and the chip rests busy.
    fn cycle(&mut self, load: &Load, note: Note) -> Option<Note>
        ensures { moved self.new (note_or_0 result) ≡ cycling self.old load.now (note_number note) }
    {
        self.wait = Wait::of(self.counter / 32, load);
        self.register.rpel = false;
        self.busy = true;
        self.phase = Phase::Standby;
        self.load = Load::none();
        Some(note)
    }

    // What an array load does at a rightly placed stop.
    #[tactic(auto, unfolding(crate::specs::Stop::array_effect, crate::specs::Stop::effect_moved))]
    fn stop_array(&mut self, pin: bool) -> Option<Note>
        ensures { moved self.new (note_or_0 result) ≡ effect_moved (array_effect self.old pin) self.old }
    {
        let start = sector_start(self.counter);
        let shut = is_locked(self.part, self.register.bl, pin, start);
        let short = self.partial();
        if shut {
            self.drop_load(Phase::Standby);
            return Some(Note::Locked);
        }
        if short {
            return self.cycle(&Load::full(self.spoil), Note::Spoil);
        }
        let load = self.load;
        self.cycle(&load, Note::Store)
    }

    // What a register byte does at a rightly placed stop: the counter and the mark are cleared, and what waits by it turns the chip busy.
    #[tactic(auto, unfolding(crate::specs::Stop::effect_moved))]
    fn stop_register(&mut self, byte: u8, pin: bool) -> Option<Note>
        ensures { moved self.new (note_or_0 result) ≡ effect_moved (Change (written self.old.register byte pin)) self.old }
    {
        let (target, note) = self.register.write(byte, pin);
        self.counter = 0;
        self.mark = false;
        self.phase = Phase::Standby;
        self.load = Load::none();
        self.busy = target.waits();
        if self.busy {
            self.wait = Wait::alone(target);
        }
        Some(note)
    }

    // What a rightly placed stop does.
    #[tactic(auto, unfolding(crate::specs::Stop::right_effect, crate::specs::Stop::effect_moved))]
    fn stop_rightly(&mut self, pin: bool) -> Option<Note>
        ensures { moved self.new (note_or_0 result) ≡ effect_moved (right_effect self.old pin) self.old }
    {
        if self.load.count == 0 {
            return self.drop_load(Phase::Standby);
        }
        if self.marked() {
            return self.stop_register(self.load.bytes[0], pin);
        }
        self.stop_array(pin)
    }

    // A stop: standby, the load empty, and what the stop does to the register and lets wait. It writes no byte of the array.
    #[tactic(auto, unfolding(crate::specs::Stop::stop_effect, crate::specs::Stop::effect_moved))]
    pub(crate) fn stop(&mut self, pin: bool) -> Option<Note>
        ensures { moved self.new (note_or_0 result) ≡ effect_moved (stop_effect self.old pin) self.old }
    {
        if rightly_placed(self.phase) {
            return self.stop_rightly(pin);
        }
        self.drop_load(Phase::Standby)
    }
}
