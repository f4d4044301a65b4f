// The notes: what an event is worth telling.
ghost use Rattle.std.specs.Prelude.{◌≡◌};
ghost use Rattle.parts.specs.Note.{note_or_0};

// The notes, by their numbers.
#[derive(Clone, Copy, Debug, PartialEq, Eq)]
pub enum Note {
    // a load waits for its sector
    Store = 1,
    // PPEN and BL wait
    Locks = 2,
    // PEL or RPEL was written
    Latch = 3,
    // a load was refused: its sector is locked
    Locked = 4,
    // the spoil byte waits for a sector
    Spoil = 5,
    // a register byte was refused
    Refused = 6,
    // a load was dropped
    Dropped = 7,
}

// The number of a note, which for an enum a cast gives and no `From`; 0 where there is none.
pub fn note_or_0(note: Option<Note>) -> u8
    ensures { result ≡ note_or_0 note }
{
    note.map_or(0, |note| note as u8)
}
