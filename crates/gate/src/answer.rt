// What the operations on a record answer: a gate for reading, its values for a caller that cannot take a `Result`, and a span.
ghost use Rattle.std.specs.Prelude.{◌≡◌};
ghost use Rattle.gate.specs.Answer.{Refused, zeros_of, given_of, read_as};

use refusals::Refusal;

// What a good record holds.
#[derive(Clone, Copy, Debug, PartialEq, Eq)]
pub struct Gate {
    pub closed: i16,
    pub opened: i16,
    pub travel: i32,
    // The length of its label as stored.
    pub length: usize,
}

// The values of an answer of reading, as C is given them: the number of the refusal, or 0; and what a good record holds, or zeros.
#[derive(Clone, Copy)]
pub struct Given {
    pub number: u8,
    pub closed: i16,
    pub opened: i16,
    pub travel: i32,
    pub length: usize,
}

// A number, with zeros for what a good record holds.
fn zeros(number: u8) -> Given
    ensures { result ≡ zeros_of number }
{
    Given {
        number,
        closed: 0,
        opened: 0,
        travel: 0,
        length: 0,
    }
}

impl Given {
    // The values of a refusal by its number, which may be any: a caller that keeps numbers has no `Refusal` for one that this kit never gives.
    pub fn refused(number: u8) -> Given
        ensures { result ≡ given_of (Refused number) }
    {
        zeros(number)
    }
}

impl From<Result<Option<Gate>, Refusal>> for Given {
    ghost from_gives = { λ answer given. given ≡ given_of (read_as answer) };

    // The values of the answer.
    fn from(answer: Result<Option<Gate>, Refusal>) -> Given {
        match answer {
            Ok(Some(gate)) => Given {
                number: 0,
                closed: gate.closed,
                opened: gate.opened,
                travel: gate.travel,
                length: gate.length,
            },
            Ok(None) => zeros(0),
            Err(refusal) => zeros(refusal.number()),
        }
    }
}

// The span of the name shown, in the three values that C is given.
#[derive(Clone, Copy)]
pub struct Shown {
    // True in the record, false in the standard label.
    pub own: bool,
    // The first byte.
    pub start: usize,
    // How many bytes.
    pub len: usize,
}
