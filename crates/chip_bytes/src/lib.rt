// The bytes of a chip as C keeps it: where each field stands, from a chip to its bytes and back, and which bytes are a chip's.
#![tactic(auto)]

pub mod at;
mod packing;
mod unpacking;

pub use packing::{flag_byte, pack};
pub use unpacking::{bytes_fit, unpack};
