// The orders on the map of free sectors: all of its bytes are counted and shown, the one beside those that are lent too.
use crate::desk::Desk;
use crate::{count, say};
use std::io;

// How many bits of the map are set.
fn bits(map: &[u8]) -> u32 {
    map.iter()
        .fold(0, |set: u32, byte| set.wrapping_add(byte.count_ones()))
}

impl Desk {
    // Builds what is lent of the map from what is lent of the array; then the bits that are set, and the sum of the bytes.
    pub(crate) fn build(&mut self, rt: &impl Print) -> io::Result<()> {
        let board = &mut self.board;
        let Some(array) = board.array.get(..board.room) else {
            return Ok(());
        };
        let Some(map) = board.map.get_mut(..board.span) else {
            return Ok(());
        };
        say::refused(rt, &map::build(array, map))?;
        say::number(rt, b'=', bits(&board.map), 4)?;
        say::number(rt, b',', count::sum(&board.map), 4)
    }

    // The first free sector, by what is lent of the map: `n` for none, or the refusal.
    pub(crate) fn first_free(&self, rt: &impl Print) -> io::Result<()> {
        let Some(map) = self.board.map.get(..self.board.span) else {
            return Ok(());
        };
        let found = map::first_free(map);
        match found {
            Ok(Some(number)) => say::number(rt, b'=', number, 4),
            Ok(None) => say::text(rt, b"=n"),
            Err(_) => say::refused(rt, &found),
        }
    }

    // The byte at one position of the map, nothing where there is none.
    pub(crate) fn show_map(&self, rt: &impl Print) -> io::Result<()> {
        let at = self.value() as usize;
        if at < self.board.map.len() {
            say::peek(rt, &self.board.map, at)?;
        }
        Ok(())
    }
}
