// The chip and one event: a model of the X24128, the X24F128 and the X24F129 at the level of line samples.
#![tactic(auto)]

pub mod chip;
mod cycle;
pub mod event;
pub mod stop;
pub mod transfer;
pub mod wire;
