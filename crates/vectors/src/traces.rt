// Whole traces: a tape is run with the lengths that the script sets, and what came back is written.
use crate::desk::Desk;
use crate::{count, say};
use std::io;

// What stands in the answer buffer before a run.
const BEFORE: u8 = 0xee;

// Writes the notes of the answers with their positions; then how many answers were not written, how many lines were low, and the sum of
// the answers that were written, which goes round at 65,536 as no `sum` does. Places and counts are cast for the print, which has no `From` of a usize.
fn told(rt: &impl Print, answers: &[u8]) -> io::Result<()> {
    let mut sum: u16 = 0;
    for (at, answer) in answers.iter().enumerate() {
        if *answer != BEFORE {
            sum = sum.wrapping_add(u16::from(*answer));
            if 1 < *answer {
                say::number(rt, b' ', at as u64, 5)?;
                say::number(rt, b'\'', *answer / 2, 1)?;
            }
        }
    }
    let kept = answers.iter().filter(|answer| **answer == BEFORE).count();
    let low = answers
        .iter()
        .filter(|answer| **answer != BEFORE && **answer % 2 == 0)
        .count();
    say::letter(rt, b' ')?;
    say::number(rt, b'k', kept as u64, 5)?;
    say::letter(rt, b' ')?;
    say::number(rt, b'l', low as u64, 5)?;
    say::letter(rt, b' ')?;
    say::number(rt, b's', sum, 5)
}

impl Desk {
    // Runs what is on the tape, on what is lent of array, map and answers; with the map as `Board::run` has it.
    pub(crate) fn run_tape(&mut self, rt: &impl Print) -> io::Result<()> {
        let mut answers = [BEFORE; 65540];
        let board = &mut self.board;
        let Some(array) = board.array.get_mut(..board.room) else {
            return Ok(());
        };
        let Some(tape) = self.tape.written() else {
            return Ok(());
        };
        let Some(lent) = answers.get_mut(..self.space) else {
            return Ok(());
        };
        let ran = if board.keeping {
            let Some(map) = board.map.get_mut(..board.span) else {
                return Ok(());
            };
            map::run(&mut board.chip, array, map, tape, lent)
        } else {
            trace::run(&mut board.chip, array, tape, lent)
        };
        say::refused(rt, &ran)?;
        told(rt, &answers)
    }
}
