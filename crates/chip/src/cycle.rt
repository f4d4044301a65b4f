// The end of a cycle: by program-done, or cut off by a power-up.
ghost use Rattle.std.specs.Prelude.{◌≡◌};
ghost use Rattle.parts.specs.Wait.{every_place};
ghost use Rattle.chip.specs.Chip.{cut_register, cut_array, power_up};
ghost use Rattle.chip.specs.Event.{answer_as, event_answer, event_array, program_done};
ghost use Rattle.chip.specs.declared.wire.Event.TheVariants.{PowerUp};

use crate::chip::Chip;
use crate::event::Answer;
use parts::register::Register;
use parts::wait::{EVERY_PLACE, Wait};
use refusals::Refusal;

impl Chip {
    // The end of a cycle, or its cut: what waits is written by the choices, and the register is as it is then. An idle chip has none.
    #[tactic(auto, unfolding(crate::specs::Chip::cut_register, crate::specs::Chip::cut_array))]
    fn cut(&self, array: &mut [u8], choices: u32) -> Register
        ensures { (result ≡ cut_register choices self.now) × (array.new ≡ cut_array choices self.now array.old) }
    {
        let cycle = self.busy;
        if cycle {
            self.wait.end(array, choices);
            return self.register.taken(self.wait.target, choices);
        }
        self.register
    }

    // A program-done: what waits is written whole and busy ends; nothing on an idle chip.
    #[tactic(auto, unfolding(crate::specs::Event::program_done))]
    pub(crate) fn done(&mut self, array: &mut [u8])
        ensures { (self.new ≡ program_done self.old) × (array.new ≡ cut_array every_place self.old array.old) }
    {
        let register = self.cut(array, EVERY_PLACE);
        if self.busy {
            self.register = register;
            self.busy = false;
            self.wait = Wait::none();
        }
    }

    // A power-up: a cycle in progress is cut off with these choices.
    pub(crate) fn restart(&mut self, array: &mut [u8], choices: u32)
        ensures { (self.new ≡ power_up choices self.old) × (array.new ≡ cut_array choices self.old array.old) }
    {
        let register = self.cut(array, choices);
        *self = Chip::at_power_up(
            self.part,
            self.select,
            register.ppen,
            register.bl,
            self.spoil,
        );
    }

    // A power-up as one event. It does not call `event`: `next` is then called in one place of the C library, the loop over a trace, which is faster
    // by a fifth.
    #[tactic(auto, unfolding(crate::specs::Event::event_answer, crate::specs::Event::event_array, crate::specs::Event::next, crate::specs::Event::next_array))]
    pub fn power_up(&mut self, array: &mut [u8], choices: u32) -> Result<Answer, Refusal>
        ensures { (answer_as result self.new ≡ event_answer (PowerUp choices) self.old array.old) × (array.new ≡ event_array (PowerUp choices) self.old array.old) }
    {
        self.check(&array[..])?;
        self.restart(array, choices);
        Ok(Answer {
            line: self.line,
            note: None,
        })
    }
}
