// The load and what waits: each has places and bytes.
use crate::{count, say};
use parts::load::Load;
use parts::wait::{Target, Wait};
use std::io;

// How many places there are, and the sum of the bytes.
fn contents(rt: &impl Print, places: &[bool], bytes: &[u8]) -> io::Result<()> {
    let taken = places.iter().filter(|place| **place).count();
    say::number(rt, b',', taken as u64, 2)?;
    say::number(rt, b',', count::sum(bytes), 4)
}

// The count of the load, its places and its bytes.
pub(crate) fn show_load(rt: &impl Print, load: &Load) -> io::Result<()> {
    say::number(rt, b'=', load.count, 2)?;
    contents(rt, &load.places, &load.bytes)
}

// What it waits for: `n` nothing, `s` a sector, `r` PPEN and BL.
fn tell(rt: &impl Print, target: Target) -> io::Result<()> {
    say::letter(rt, b'=')?;
    match target {
        Target::None => say::letter(rt, b'n'),
        Target::Sector { number } => say::number(rt, b's', number, 4),
        Target::Locks { ppen, bl } => {
            say::number(rt, b'r', ppen, 1)?;
            say::number(rt, b',', bl, 2)
        }
    }
}

// What waits, its places and its bytes.
pub(crate) fn show_wait(rt: &impl Print, wait: &Wait) -> io::Result<()> {
    tell(rt, wait.target)?;
    contents(rt, &wait.places, &wait.bytes)
}
