// What waits for the end of a cycle, and what the end, or a cut, leaves in array and register.
ghost use Rattle.std.specs.Prelude.{◌≡◌, ◌+◌, ◌<◌, ◌^◌, set, cond};
ghost use Rattle.parts.specs.Wait.{alone, no_wait, chosen, taking, stored, wait_for, target_fits, waits, end_array, locks_taken};

use crate::load::Load;
use crate::register::Register;

// The choices that take every place.
pub const EVERY_PLACE: u32 = 0xffffffff;

// The choices that take none.
pub const NO_PLACE: u32 = 0x00000000;

// The choices that take places 0 to 15.
pub const FIRST_HALF: u32 = 0x0000ffff;

// What waits. That nothing does is a case beside the two others: with an Option around these each match on it would be two deep.
#[derive(Clone, Copy)]
pub enum Target {
    None,
    // a sector of the array, 0-511
    Sector { number: u16 },
    // the register: PPEN, and BL 0-3
    Locks { ppen: bool, bl: u8 },
}

// What a cycle will write at its end. The places and bytes belong to a sector.
#[derive(Clone, Copy)]
pub struct Wait {
    pub target: Target,
    // which of the 32 places take a byte; a row of its own, as C keeps it and gives it back, whatever the bytes of the other places
    pub places: [bool; 32],
    // by place of the sector
    pub bytes: [u8; 32],
}

// Whether a place is chosen: bit k of the 32 choices. `bit_of` over 32 bits: one function for both widths would take a trait for one shift.
fn is_chosen(choices: u32, k: u32) -> bool
    ensures { result ≡ chosen choices k }
{
    let bit = k % 32;
    (choices >> bit) % 2 == 1
}

// One place of a store: where it takes its byte and the array has its address, the byte. The address is what it is about, so it goes beside the array.
fn put(array: &mut [u8], at: usize, on: bool, byte: u8)
    ensures { array.new ≡ cond on (set array.old at byte) array.old }
{
    if on && at < array.len() {
        array[at] = byte;
    }
}

// Stores bytes in the sector that begins at `start`: places that are loaded and chosen take theirs, the others keep their own.
// By number, since three rows and the choices share the place; it is below 32, which the type of the choices needs a cast for.
fn store(array: &mut [u8], start: usize, choices: u32, places: &[bool; 32], bytes: &[u8; 32])
    requires { start + 32 < 2 ^ 64 }
    ensures { array.new ≡ stored array.old start (taking places.now choices) bytes.now }
{
    for k in 0..32 {
        let on = places[k] & is_chosen(choices, k as u32);
        put(array, start + k, on, bytes[k]);
    }
}

impl Target {
    // Whether the waiting sector and the waiting BL are in their ranges.
    #[tactic(auto, unfolding(crate::specs::Wait::target_fits))]
    pub fn fits(self) -> bool
        ensures { result ≡ target_fits self }
    {
        match self {
            Target::None => true,
            Target::Sector { number } => number <= 511,
            Target::Locks { bl, .. } => bl <= 3,
        }
    }

    // Whether something waits.
    #[tactic(auto, unfolding(crate::specs::Wait::waits))]
    pub fn waits(self) -> bool
        ensures { result ≡ waits self }
    {
        !matches!(self, Target::None)
    }
}

impl Wait {
    // This waits, with no place loaded.
    pub fn alone(target: Target) -> Wait
        ensures { result ≡ alone target }
    {
        Wait {
            target,
            places: [false; 32],
            bytes: [0; 32],
        }
    }

    // Nothing waits.
    pub fn none() -> Wait
        ensures { result ≡ no_wait }
    {
        Wait::alone(Target::None)
    }

    // A load waits for a sector.
    pub fn of(number: u16, load: &Load) -> Wait
        ensures { result ≡ wait_for number load.now }
    {
        let mut kept = [0; 32];
        store(&mut kept, 0, EVERY_PLACE, &load.places, &load.bytes);
        Wait {
            target: Target::Sector { number },
            places: load.places,
            bytes: kept,
        }
    }

    // What the end of the cycle leaves in the array: the chosen places of a waiting sector take their bytes.
    #[tactic(auto, unfolding(crate::specs::Wait::reached))]
    pub fn end(&self, array: &mut [u8], choices: u32)
        ensures { array.new ≡ end_array self.now choices array.old }
    {
        if let Target::Sector { number } = self.target {
            store(
                array,
                usize::from(number) * 32,
                choices,
                &self.places,
                &self.bytes,
            );
        }
    }
}

impl Register {
    // The register at the end of the cycle: a waiting PPEN and BL are taken if the first choice is set.
    #[tactic(auto, unfolding(crate::specs::Wait::locks_taken))]
    pub fn taken(self, target: Target, choices: u32) -> Register
        ensures { result ≡ locks_taken target choices self }
    {
        match target {
            Target::Locks { ppen, bl } if is_chosen(choices, 0) => Register { ppen, bl, ..self },
            _ => self,
        }
    }
}
