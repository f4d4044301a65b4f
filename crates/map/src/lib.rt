// The map of the sectors in use: 64 lent bytes beside the array, one bit a sector. It is built once from the array, kept by the event and the
// trace here, and asked for the first free sector.
#![tactic(auto)]

pub mod finding;
mod keeping;
mod sectors;

pub use finding::first_free;
pub use keeping::{event, power_up, run};
pub use sectors::{BYTES, build};
