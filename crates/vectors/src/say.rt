// What the vectors write on standard output: the script's own bytes, names, and numbers in hexadecimal, in small letters.
use parts::note::{Note, note_or_0};
use refusals::Refusal;
use std::io;

// Bytes as they are.
pub(crate) fn text(rt: &impl Print, s: &[u8]) -> io::Result<()> {
    rt.write_all(s)
}

// One byte as it is.
pub(crate) fn letter(rt: &impl Print, byte: u8) -> io::Result<()> {
    text(rt, &[byte])
}

// A letter where a flag is set.
pub(crate) fn flag(rt: &impl Print, on: bool, byte: u8) -> io::Result<()> {
    if on {
        letter(rt, byte)?;
    }
    Ok(())
}

// A number of so many digits.
fn hex(rt: &impl Print, n: u64, digits: usize) -> io::Result<()> {
    print!(rt; "{n:0digits$x}")
}

// A byte as two digits.
pub(crate) fn byte(rt: &impl Print, byte: u8) -> io::Result<()> {
    hex(rt, u64::from(byte), 2)
}

// A letter and a number of so many digits.
pub(crate) fn number(
    rt: &impl Print,
    sign: u8,
    n: impl Into<u64> + Drop,
    digits: usize,
) -> io::Result<()> {
    letter(rt, sign)?;
    hex(rt, n.into(), digits)
}

// The number of a refusal, where there is one.
pub(crate) fn refused<T>(rt: &impl Print, answer: &Result<T, Refusal>) -> io::Result<()> {
    match answer {
        Ok(_) => Ok(()),
        Err(refusal) => number(rt, b'!', refusal.number(), 1),
    }
}

// The number of a note, where there is one.
pub(crate) fn note(rt: &impl Print, note: Option<Note>) -> io::Result<()> {
    match note_or_0(note) {
        0 => Ok(()),
        told => number(rt, b'\'', told, 1),
    }
}

// `=` and the byte at one position of a buffer, the place that a script names; nothing but the sign where there is none.
pub(crate) fn peek(rt: &impl Print, buffer: &[u8], at: usize) -> io::Result<()> {
    letter(rt, b'=')?;
    match buffer.get(at) {
        Some(found) => byte(rt, *found),
        None => Ok(()),
    }
}

// A character of a name: itself where it is ASCII and prints, else, and for the backslash, a backslash and two digits.
fn character(rt: &impl Print, byte: u8) -> io::Result<()> {
    match byte {
        b' '..=b'~' if byte != b'\\' => letter(rt, byte),
        _ => number(rt, b'\\', byte, 2),
    }
}

// A name.
pub(crate) fn name(rt: &impl Print, name: &[u8]) -> io::Result<()> {
    for byte in name {
        character(rt, *byte)?;
    }
    Ok(())
}

// A letter and a number with its sign, of four digits or more.
pub(crate) fn signed(rt: &impl Print, sign: u8, z: i32) -> io::Result<()> {
    letter(rt, sign)?;
    flag(rt, z < 0, b'-')?;
    hex(rt, u64::from(z.unsigned_abs()), 4)
}
