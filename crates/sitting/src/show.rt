// The display in a frame. In a visit the cursor line has a line below it, outside the frame, with '^' under
// the cell that the edit cursor is on.
use crate::letters::Sitting;
use console::display::{CELLS, WIDTH};
use console::words::{Plain, Refused};
use handset::draw::draw;
use picture::cursor::EditCursor;
use std::io;

const EDGE: &str = "+--------------------+";

// A '^' under a column; the frame's bar is before column 0.
fn print_caret(out: &impl Print, column: usize) -> io::Result<()> {
    println!(out; "{:column$} ^", "")
}

// The edit cursor, where it is on a row.
fn print_cursor(out: &impl Print, cursor: Option<EditCursor>, under: usize) -> io::Result<()> {
    match cursor {
        Some(EditCursor { row, column }) if row == under => print_caret(out, column),
        _ => Ok(()),
    }
}

impl Sitting<'_> {
    // The picture as it is now.
    pub fn show(&self, out: &impl Print) -> io::Result<()> {
        let mut picture = [0u8; CELLS];
        let cursor = match draw(self.image, &self.sheet, self.session, &mut picture) {
            Ok(cursor) => cursor,
            Err(refusal) => return println!(out; "{}", Refused::from(refusal)),
        };
        println!(out; "{EDGE}")?;
        for (row, cells) in picture.chunks_exact(WIDTH).enumerate() {
            println!(out; "|{}|", Plain(cells))?;
            print_cursor(out, cursor, row)?;
        }
        println!(out; "{EDGE}")
    }
}
