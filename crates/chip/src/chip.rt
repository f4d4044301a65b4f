// The chip: what it carries, how it is made, and whether it pulls. Every method answers for every chip, in range or not.
ghost use Rattle.std.specs.Prelude.{◌≡◌};
ghost use Rattle.parts.specs.Note.{note_or_0};
ghost use Rattle.chip.specs.Chip.{chip_fits, pulls, with_spoil, at_power_up, standard_chip, made, made_as};
ghost use Rattle.chip.specs.Part.{marked, enabled};
ghost use Rattle.chip.specs.Transfer.{at_phase, empty_at, drop_note};

use parts::load::Load;
use parts::note::Note;
use parts::phase::Phase;
use parts::register::{Register, has_register};
use parts::wait::Wait;
use refusals::Refusal;

#[derive(Clone, Copy)]
pub struct Chip {
    // Chip::X24128, Chip::X24F128 or Chip::X24F129; a number and no enum, since a chip with another one is refused by `check` and answers all else
    pub part: u8,
    // 0-7
    pub select: u8,
    // PPEN, BL, RPEL and PEL
    pub register: Register,
    // the address counter, 0000h-3FFFh
    pub counter: u16,
    // the register is selected
    pub mark: bool,
    // a cycle is in progress
    pub busy: bool,
    // the last SCL level
    pub scl: bool,
    // the last level of the line
    pub line: bool,
    // where the transfer stands
    pub phase: Phase,
    // what came in for a sector since the address
    pub load: Load,
    // what a load that the part does not take leaves in its sector, any byte
    pub spoil: u8,
    // what the cycle in progress will write
    pub wait: Wait,
}

impl Chip {
    // the part that stores a load of any length
    pub const X24128: u8 = 0;

    // the part that takes 32 bytes; any other number of them spoils the sector
    pub const X24F128: u8 = 1;

    // the part that has no register, and locks by the pin; else as the X24F128
    pub const X24F129: u8 = 2;

    // bytes of the array
    pub const BYTES: usize = 0x4000;

    // bytes of a sector
    pub const SECTOR: usize = 32;

    // sectors of the array
    pub const SECTORS: usize = 512;

    // the spoil byte of a new chip
    pub const SPOIL: u8 = 0xff;

    // A chip as power-up leaves it.
    pub(crate) fn at_power_up(part: u8, select: u8, ppen: bool, bl: u8, spoil: u8) -> Chip
        ensures { result ≡ at_power_up part select ppen bl spoil }
    {
        Chip {
            part,
            select,
            register: Register {
                ppen,
                bl,
                rpel: false,
                pel: false,
            },
            counter: 0,
            mark: false,
            busy: false,
            scl: false,
            line: true,
            phase: Phase::Standby,
            load: Load::none(),
            spoil,
            wait: Wait::none(),
        }
    }

    // The standard chip: an X24F128 with select 0.
    pub fn standard() -> Chip
        ensures { result ≡ standard_chip }
    {
        Chip::at_power_up(Chip::X24F128, 0, false, 0, Chip::SPOIL)
    }

    // A new chip; refused for a part above 2 or a select above 7.
    #[tactic(auto, unfolding(crate::specs::Chip::made))]
    pub fn new(part: u8, select: u8) -> Result<Chip, Refusal>
        ensures { made_as result ≡ made part select }
    {
        if part <= 2 && select <= 7 {
            return Ok(Chip::at_power_up(part, select, false, 0, Chip::SPOIL));
        }
        Err(Refusal::NoSuchChip)
    }

    // The chip with another spoil byte.
    pub fn with_spoil(self, byte: u8) -> Chip
        ensures { result ≡ with_spoil self byte }
    {
        Chip {
            spoil: byte,
            ..self
        }
    }

    // Whether each number that the chip carries is in its range.
    #[tactic(auto, unfolding(crate::specs::Chip::chip_fits))]
    pub(crate) fn fits(&self) -> bool
        ensures { result ≡ chip_fits self.now }
    {
        self.part <= 2
            && self.select <= 7
            && self.register.bl <= 3
            && self.counter <= 0x3fff
            && self.phase.fits()
            && self.load.count <= 33
            && self.wait.target.fits()
    }

    // Whether the chip pulls the line.
    #[tactic(auto, unfolding(crate::specs::Chip::pulls))]
    pub(crate) fn pulls(&self) -> bool
        ensures { result ≡ pulls self.now }
    {
        !self.busy && self.phase.pulls()
    }

    // Whether the register is selected, and not the array.
    pub(crate) fn marked(&self) -> bool
        ensures { result ≡ marked self.now.part self.now.mark }
    {
        self.mark && has_register(self.part)
    }

    // Whether data for the array is taken.
    pub(crate) fn enabled(&self) -> bool
        ensures { result ≡ enabled self.now.part self.now.register.pel }
    {
        self.register.pel || !has_register(self.part)
    }

    // Moves to another phase.
    pub(crate) fn go(&mut self, phase: Phase)
        ensures { self.new ≡ at_phase self.old phase }
    {
        self.phase = phase;
    }

    // Moves to another phase and drops the load, which is noted where it had a byte.
    pub(crate) fn drop_load(&mut self, phase: Phase) -> Option<Note>
        ensures chip { self.new ≡ empty_at self.old phase }
        ensures note { note_or_0 result ≡ drop_note self.old }
    {
        let dropped = self.load.count != 0;
        self.phase = phase;
        self.load = Load::none();
        if dropped { Some(Note::Dropped) } else { None }
    }
}
