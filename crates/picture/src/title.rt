// Row 0: the title with its marks, or the password entry.
ghost use Rattle.std.specs.Prelude.{◌≡◌, [], ◌∷◌, ◌++◌, ◌+◌, ◌-◌, ◌≤◌, length};
ghost use Rattle.session.specs.Fits.{cursor_line};
ghost use Rattle.laws.specs.Choice.{when◌then◌else◌, ◌=?◌};
ghost use Rattle.laws.specs.Overwrite.{over};
ghost use Rattle.laws.specs.Digits.{digit0};
ghost use Rattle.texts.specs.Texts.{blank};
ghost use Rattle.picture.specs.Rows.{edit_mark, line_number, more_mark, title_row, password_row, top_row};
ghost use Rattle.picture.specs.Marks.{Tells, Enough};

use cmf::head::read_head;
use cmf::place::first_editable;
use cmf::text::text_bytes;
use field::kind::ImagePlace;
use laws::byte_at;
use laws::digits::first_digit;
use session::session::{Level, Mode, Session};
use texts::row::{pad, put, put_all, repeat};

// What is known of the shown table when its rows are written: how many lines it has, as far as they are
// looked at, where one of them is, and its mark in row 0, where its row tells it.
#[derive(Clone, Copy)]
pub(crate) struct Known {
    pub(crate) count: usize,
    pub(crate) place: ImagePlace,
    pub(crate) mark: Option<u8>,
}

// The cursor line of a level is at a place; its mark is given, where it is known.
fn edit_mark(image: &[u8], level: Level, line: usize, mark: Option<u8>) -> u8
    requires { (line ≡ cursor_line image.now level) × Tells mark (edit_mark image.now level) }
    ensures { result ≡ edit_mark image.now level }
{
    if let Some(mark) = mark {
        return mark;
    }
    let h = read_head(image, line);
    let f = first_editable(image, h.component.0);
    match f {
        Some(_) => b':',
        None => b'*',
    }
}

fn more_mark(count: usize, rows: usize, cursor: u8) -> u8
    ensures { result ≡ more_mark count rows cursor }
{
    if count <= rows {
        b' '
    } else if cursor as usize + 1 == count {
        b'!'
    } else {
        b'+'
    }
}

// The first cell of a line's number, by its tens.
fn tens_char(tens: u32) -> u8
    requires { tens ≤ 25 }
    ensures { result ≡ (when tens =? 0 then blank else digit0 + tens) }
{
    if tens == 0 {
        return b' ';
    }
    b'0' + tens as u8
}

// The mark of the cursor line, its number from 1, and the mark of more lines. No table has a hundred lines,
// but that is not known here.
fn put_marks(row: &mut [u8], at: usize, edit: u8, cursor: u8, more: u8)
    ensures { row.new ≡ over row.old at
        (edit ∷ (line_number (cursor + 1) ++ (more ∷ []))) }
{
    let hundreds = first_digit(cursor as u32 + 1, 3);
    let tens = first_digit(hundreds.rest, 2);
    let high = put(row, at, edit);
    let low = put(row, high, tens_char(10 * hundreds.digit + tens.digit));
    let last = put(row, low, b'0' + tens.rest as u8);
    put(row, last, more);
}

// The title with the marks and the number of the cursor line.
fn put_title(row: &mut [u8], image: &[u8], session: &Session, known: Known)
    requires { (4 ≤ session.now.columns) × (length row.old ≡ session.now.columns) × (1 ≤ session.now.lines)
        × Enough image.now session.now known }
    ensures { row.new ≡ title_row image.now session.now }
{
    let here = session.here;
    let columns = session.columns as usize;
    let rows = session.lines as usize - 1;
    let end = put_all(row, 0, text_bytes(image, here.table.0));
    pad(row, end);
    let edit = edit_mark(image, here, known.place.0, known.mark);
    let more = more_mark(known.count, rows, here.cursor);
    put_marks(row, columns - 4, edit, here.cursor, more);
}

// The row of a password entry with so many digits typed.
fn put_password(row: &mut [u8], image: &[u8], session: &Session, line: usize, typed: u8)
    requires { (length row.old ≡ session.now.columns) × (line ≡ cursor_line image.now session.now.here) }
    ensures { row.new ≡ password_row image.now session.now typed }
{
    let h = read_head(image, line);
    let digits = byte_at(image, h.password.0) as usize;
    let n = typed as usize;
    let stars = put_all(row, 0, b"Pwd:");
    let dots = repeat(row, stars, b'*', n);
    let end = repeat(row, dots, b'.', digits.saturating_sub(n));
    pad(row, end);
}

// Writes row 0.
pub(crate) fn put_top(row: &mut [u8], image: &[u8], session: &Session, known: Known)
    requires { (4 ≤ session.now.columns) × (length row.old ≡ session.now.columns) × (1 ≤ session.now.lines)
        × Enough image.now session.now known }
    ensures { row.new ≡ top_row image.now session.now }
{
    match session.mode {
        Mode::Password(typed) => put_password(row, image, session, known.place.0, typed),
        Mode::Browsing | Mode::Visit(_) => put_title(row, image, session, known),
    }
}
