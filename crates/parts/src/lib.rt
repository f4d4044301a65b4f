// What a chip is made of, each part with its own rules: the phase of a transfer, the register, the load, what waits, the sectors, the locks.
#![tactic(auto)]

pub mod load;
pub mod locks;
pub mod note;
pub mod phase;
pub mod register;
pub mod sector;
pub mod wait;
