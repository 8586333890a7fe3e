// A session written to bytes, piece by piece. All its bytes are there, so that no piece asks how many the
// caller has.
ghost use Rattle.std.specs.Prelude.{◌≡◌, [], ◌∷◌, ◌+◌, ◌≤◌, length};
ghost use Rattle.laws.specs.Overwrite.{over};
ghost use Rattle.session_bytes.specs.Numbers.{numbers_bytes};
ghost use Rattle.session_bytes.specs.Layout.{level_bytes, levels_bytes, mode_bytes};
ghost use Rattle.session_bytes.specs.Layout.{shown_bytes, doing_bytes, session_bytes, session_from};
ghost use Rattle.session_bytes.specs.Layout.{session_written};

use crate::layout::{
    ABOVE, BROWSING, CELL, CELLS, CHOSEN, HERE, IDLE, LEVEL, MODE, PASSWORD, SIZE, TYPED, VISIT,
};
use crate::number::{write_byte, write_cell, write_place};
use cmf::image::Image;
use field::work::Work;
use session::session::{Level, Mode, Session};

fn write_level(bytes: &mut [u8], at: usize, level: Level)
    requires { at + 10 ≤ length bytes.old }
    ensures { bytes.new ≡ over bytes.old at (level_bytes level) }
{
    write_place(bytes, at, level.table.0 as u64);
    write_byte(bytes, at + 8, level.cursor);
    write_byte(bytes, at + 9, level.first);
}

fn write_levels(bytes: &mut [u8; SIZE], levels: [Level; Session::MAX_ABOVE])
    ensures { bytes.new ≡ over bytes.old 3 (levels_bytes levels) }
{
    for (i, level) in levels.iter().enumerate() {
        write_level(bytes, ABOVE + LEVEL * i, *level);
    }
}

fn write_mode(bytes: &mut [u8; SIZE], mode: Mode)
    ensures { bytes.new ≡ over bytes.old 84 (mode_bytes mode) }
{
    match mode {
        Mode::Browsing => {
            write_byte(bytes, MODE, BROWSING);
            write_place(bytes, MODE + 1, 0);
        }
        Mode::Visit(place) => {
            write_byte(bytes, MODE, VISIT);
            write_place(bytes, MODE + 1, place.0 as u64);
        }
        Mode::Password(count) => {
            write_byte(bytes, MODE, PASSWORD);
            write_place(bytes, MODE + 1, count as u64);
        }
    }
}

fn write_cells(bytes: &mut [u8; SIZE], cells: [u32; Work::CELLS])
    ensures { bytes.new ≡ over bytes.old 94 (numbers_bytes 4 cells) }
{
    for (i, cell) in cells.iter().enumerate() {
        write_cell(bytes, CELLS + CELL * i, *cell);
    }
}

fn write_typed(bytes: &mut [u8; SIZE], digits: [u8; Image::MAX_PASSWORD])
    ensures { bytes.new ≡ over bytes.old 222 (numbers_bytes 1 digits) }
{
    for (i, digit) in digits.iter().enumerate() {
        write_byte(bytes, TYPED + i, *digit);
    }
}

fn write_shape(bytes: &mut [u8; SIZE], columns: u8, lines: u8, outer: u8)
    ensures { bytes.new ≡ over bytes.old 0 (columns ∷ lines ∷ outer ∷ []) }
{
    write_byte(bytes, 0, columns);
    write_byte(bytes, 1, lines);
    write_byte(bytes, 2, outer);
}

// What is shown: the display's shape, the open tables, the idle count.
fn write_shown(bytes: &mut [u8; SIZE], session: Session)
    ensures { bytes.new ≡ over bytes.old 0 (shown_bytes session) }
{
    write_shape(bytes, session.columns, session.lines, session.outer);
    write_levels(bytes, session.above);
    write_level(bytes, HERE, session.here);
    write_byte(bytes, IDLE, session.idle);
}

// What is done: the mode, the working copy, the digits typed.
fn write_doing(bytes: &mut [u8; SIZE], session: Session)
    ensures { bytes.new ≡ over bytes.old 84 (doing_bytes session) }
{
    write_mode(bytes, session.mode);
    write_byte(bytes, CHOSEN, session.work.at);
    write_cells(bytes, session.work.cells);
    write_typed(bytes, session.typed);
}

// Into bytes of a session's length, which are then read back as that session; bytes of another length stay.
pub fn write_session(bytes: &mut [u8], session: Session)
    ensures bytes_after { bytes.new ≡ session_written session bytes.old }
    ensures session_value { session_from (session_bytes session) ≡ session }
{
    if let Some(bytes) = bytes.as_mut_array::<SIZE>() {
        write_shown(bytes, session);
        write_doing(bytes, session);
    }
}
