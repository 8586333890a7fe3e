// Cases of the marker: a sheet marked by a key.
use crate::Case;
use crate::reading::{read_full, read_word};
use marker::mark::mark;
use std::io;

// How many numbers the key of a case can have.
const MOST: usize = 1024;

impl Case<'_, '_> {
    // The input goes on with the sheet's bytes and the key, its count of numbers before it, two bytes each:
    // the sums, after a 0, or the refusal.
    pub fn mark(&mut self, rt: &(impl Input + Print)) -> io::Result<()> {
        read_full(rt, self.sheet)?;
        let count = read_word(rt)? as usize;
        if count > MOST {
            return Ok(());
        }
        let mut numbers = [0u16; MOST];
        let key = &mut numbers[..count];
        for number in key.iter_mut() {
            *number = read_word(rt)?;
        }
        match mark(self.image, self.sheet, key) {
            Ok(sums) => print!(rt; "0 {} {} {}", sums.right, sums.wrong, sums.blank),
            Err(refusal) => print!(rt; "{}", refusal.number()),
        }
    }
}
