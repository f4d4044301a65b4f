// The bench on an X24128 with select 0, which takes loads of any length.
#![tactic(auto)]

use chip::chip::Chip;
use std::io;

fn main(rt: HostRuntime) -> io::Result<()> {
    let chip = Chip::new(Chip::X24128, 0).unwrap();
    bench_io::run(&rt, chip)
}
