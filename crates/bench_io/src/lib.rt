// What the programs share: bytes come from standard input, and the report of a chip goes to standard output.
#![tactic(auto)]

ghost use Rattle.std.specs.Prelude.{◌≤◌, ◌<◌, length, take, IfOk};
ghost use Rattle.std.specs.Io.KnownBytes.{Consumes, IsAtEnd};

use chip::chip::Chip;
use std::io;
use std::io::Read;

// Fills a buffer as far as the input goes, and answers how many bytes came: they are the next of the input, all of it where the buffer is not full.
pub fn read_full<R: Read>(reader: &mut R, buffer: &mut [u8]) -> io::Result<usize>
    ensures within { IfOk result (λ n. n ≤ length buffer.new) }
    ensures bytes { IfOk result (λ n. Consumes (R.remaining reader.old) (R.remaining reader.new) (take n buffer.new)) }
    ensures all { IfOk result (λ n. n < length buffer.new → IsAtEnd (R.remaining reader.new)) }
{
    // Not a count: each turn reads as much as comes.
    let mut n: usize = 0;
    while n < buffer.len() {
        let came = reader.read(&mut buffer[n..])?;
        if came == 0 {
            return Ok(n);
        }
        n += came;
    }
    Ok(n)
}

// Runs a chip on what is read. One byte more than the longest trace is asked for, so that a longer one is seen and refused.
// Events and page have a fixed size and a length beside them, since there is no heap here; the chip is used up.
pub fn run(rt: &(impl Input + Print), chip: Chip) -> io::Result<()> {
    let mut events = [0u8; 4097];
    let n = read_full(&mut rt.reader(), &mut events)?;
    let mut page = [0u8; 32768];
    let length = report::write_report(chip, &events[..n], &mut page);
    rt.write_all(&page[..length])
}
