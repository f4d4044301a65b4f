// The vectors: a script on standard input drives chips, traces, recovery, records, the map and the sender, and each order is written
// again with what came of it.
#![tactic(auto)]

mod alter;
mod board;
mod count;
mod desk;
mod loads;
mod maps;
mod orders;
mod records;
mod say;
mod sending;
mod tape;
mod traces;
mod wires;

use desk::Desk;
use std::io;

// Every byte of a script, on a desk as a script finds it.
fn play(rt: &impl Print, script: &[u8]) -> io::Result<()> {
    let mut desk = Desk::new();
    for byte in script {
        desk.take(rt, *byte)?;
    }
    Ok(())
}

fn main(rt: HostRuntime) -> io::Result<()> {
    let mut script = [0u8; 65536];
    let n = bench_io::read_full(&mut rt.reader(), &mut script)?;
    play(&rt, &script[..n])
}
