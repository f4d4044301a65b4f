// Why a call is refused: one enum for the whole kit, and the number by which C is told.
#![tactic(auto)]

ghost use Rattle.std.specs.Prelude.{◌≡◌};
ghost use Rattle.refusals.specs.Refusals.{number_of, status_of};

// The refusals, by their numbers.
#[derive(Clone, Copy, Debug, PartialEq, Eq)]
pub enum Refusal {
    // the array is not 16,384 bytes
    ArrayLength = 1,
    // a number of the chip is outside its range
    ChipRange = 2,
    // a part or a select that does not exist
    NoSuchChip = 3,
    // the trace is longer than 65,536 events, or on the bench than 4,096
    TraceLength = 4,
    // the answer buffer is shorter than the trace
    AnswerRoom = 5,
    // a byte of the trace is no event
    NoEvent = 6,
    // the record is not 32 bytes
    RecordLength = 7,
    // the label is longer than 24 bytes
    LabelLength = 8,
    // a byte that no label may hold
    LabelByte = 9,
    // a limit outside -30,000..30,000
    LimitRange = 10,
    // equal limits
    LimitsEqual = 11,
    // no gate's record, or a free one where a gate is needed
    NoGate = 12,
    // the stored sum is wrong
    RecordSum = 13,
    // length, label, padding or limits are not as a record has them
    RecordContent = 14,
    // a gate above 511
    GateNumber = 15,
    // a select above 7
    Select = 16,
    // the event buffer is too short for the part
    EventRoom = 17,
    // the map is not 64 bytes
    MapLength = 18,
}

impl Refusal {
    // Its number, 1 to 18, which for an enum a cast gives and no `From`.
    pub fn number(self) -> u8
        ensures { result ≡ number_of self }
    {
        self as u8
    }
}

// What C is told of a call: 0 where it was taken, else the number of its refusal.
pub fn status<T>(answer: &Result<T, Refusal>) -> u8
    ensures { result ≡ status_of answer.now }
{
    match answer {
        Ok(_) => 0,
        Err(refusal) => refusal.number(),
    }
}
