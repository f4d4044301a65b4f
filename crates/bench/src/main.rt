// The bench: what the standard chip, an X24F128, notes of the events on standard input.
#![tactic(auto)]

use chip::chip::Chip;
use std::io;

fn main(rt: HostRuntime) -> io::Result<()> {
    bench_io::run(&rt, Chip::standard())
}
