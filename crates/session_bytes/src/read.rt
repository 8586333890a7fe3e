// A session read from bytes. Bytes of another length are the closed session, which never fits.
ghost use Rattle.std.specs.Prelude.{◌≡◌, ◌+◌, ◌≤◌, length};
ghost use Rattle.laws.specs.Bytes.{byte_at};
ghost use Rattle.field.specs.Cells.{most_cells};
ghost use Rattle.cmf.specs.Limits.{longest_password};
ghost use Rattle.session_bytes.specs.Numbers.{number_at, numbers_from};
ghost use Rattle.session_bytes.specs.Layout.{most_above, level_from, levels_from, mode_by};
ghost use Rattle.session_bytes.specs.Layout.{session_in, session_from};

use crate::layout::{
    ABOVE, CELL, CELLS, CHOSEN, HERE, IDLE, LEVEL, MODE, PASSWORD, SIZE, TYPED, VISIT,
};
use crate::number::{cell_at, place_at};
use cmf::image::Image;
use field::kind::ImagePlace;
use field::work::Work;
use session::session::{Level, Mode, Session};

fn level_at(bytes: &[u8], at: usize) -> Level
    requires { at + 10 ≤ length bytes.now }
    ensures { result ≡ level_from at bytes.now }
{
    Level {
        table: ImagePlace(place_at(bytes, at) as usize),
        cursor: bytes[at + 8],
        first: bytes[at + 9],
    }
}

fn levels(bytes: &[u8; SIZE]) -> [Level; Session::MAX_ABOVE]
    ensures { result ≡ levels_from most_above 3 bytes.now }
{
    [
        level_at(bytes, ABOVE),
        level_at(bytes, ABOVE + LEVEL),
        level_at(bytes, ABOVE + 2 * LEVEL),
        level_at(bytes, ABOVE + 3 * LEVEL),
        level_at(bytes, ABOVE + 4 * LEVEL),
        level_at(bytes, ABOVE + 5 * LEVEL),
        level_at(bytes, ABOVE + 6 * LEVEL),
    ]
}

// A number that is no mode's is browsing; of a count of digits the lowest byte counts.
fn mode(bytes: &[u8; SIZE]) -> Mode
    ensures { result ≡ mode_by (byte_at bytes.now 84) (number_at 8 85 bytes.now) }
{
    let of = place_at(bytes, MODE + 1);
    match bytes[MODE] {
        VISIT => Mode::Visit(ImagePlace(of as usize)),
        PASSWORD => Mode::Password((of % 256) as u8),
        _ => Mode::Browsing,
    }
}

fn cells(bytes: &[u8; SIZE]) -> [u32; Work::CELLS]
    ensures { result ≡ numbers_from 4 most_cells 94 bytes.now }
{
    let mut cells = [0; Work::CELLS];
    for (i, cell) in cells.iter_mut().enumerate() {
        *cell = cell_at(bytes, CELLS + CELL * i);
    }
    cells
}

fn typed(bytes: &[u8; SIZE]) -> [u8; Image::MAX_PASSWORD]
    ensures { result ≡ numbers_from 1 longest_password 222 bytes.now }
{
    let mut digits = [0; Image::MAX_PASSWORD];
    for (i, digit) in digits.iter_mut().enumerate() {
        *digit = bytes[TYPED + i];
    }
    digits
}

fn session_in(bytes: &[u8; SIZE]) -> Session
    ensures { result ≡ session_in bytes.now }
{
    Session {
        columns: bytes[0],
        lines: bytes[1],
        outer: bytes[2],
        above: levels(bytes),
        here: level_at(bytes, HERE),
        idle: bytes[IDLE],
        mode: mode(bytes),
        work: Work {
            cells: cells(bytes),
            at: bytes[CHOSEN],
        },
        typed: typed(bytes),
    }
}

pub fn read_session(bytes: &[u8]) -> Session
    ensures { result ≡ session_from bytes.now }
{
    match bytes.as_array::<SIZE>() {
        Some(bytes) => session_in(bytes),
        None => Session::closed(),
    }
}
