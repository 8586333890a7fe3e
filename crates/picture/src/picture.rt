// The whole picture: row 0, and the rows of lines below it.
ghost use Rattle.std.specs.Prelude.{◌≡◌, true, ◌+◌, ◌-◌, ◌*◌, ◌<◌, ◌≤◌, min, length};
ghost use Rattle.laws.specs.Choice.{when◌then◌else◌, ◌=?◌, ◌<?◌, ◌≤?◌};
ghost use Rattle.laws.specs.Overwrite.{over};
ghost use Rattle.cmf.specs.Limits.{most_lines_of_table};
ghost use Rattle.cmf.specs.Readers.{head_at};
ghost use Rattle.cmf.specs.Places.{components_of, line_at, line_count, first_editable};
ghost use Rattle.session.specs.Fits.{shape_fits, cursor_line};
ghost use Rattle.picture.specs.Rows.{mark_of, edit_mark, row_at, rows_below, picture_of, filled};
ghost use Rattle.picture.specs.Marks.{Tells, Enough};

use crate::line::put_line;
use crate::title::{Known, put_top};
use cmf::head::{Head, read_head};
use cmf::image::Image;
use cmf::place::{line_at, line_count, reach};
use field::kind::ImagePlace;
use session::fits::shape_fits;
use session::session::Session;
use texts::row::pad;

// The lines up to line k, from 0, and its place.
fn known_to(image: &[u8], table: usize, k: usize) -> Known
    requires { k < 256 }
    ensures { (result.count ≡ min (k + 1) (line_count image.now table))
        × (result.place.0 ≡ line_at image.now table k) }
{
    let line = reach(image, table, k);
    match line {
        Some(p) => Known {
            count: k + 1,
            place: p,
            mark: None,
        },
        None => Known {
            count: line_count(image, table),
            place: ImagePlace(line_at(image, table, k)),
            mark: None,
        },
    }
}

// Of so many lines up to line k, which is the last or not, those up to the one after it.
fn known_next(count: usize, k: usize, last: bool) -> usize
    ensures { result ≡ when count ≤? k then count else when last then count
        else when most_lines_of_table <? count then count else count + 1 }
{
    if count <= k || last || Image::MAX_TABLE_LINES < count {
        return count;
    }
    count + 1
}

// What is said of line k where the cursor is on it.
fn chosen<T: Copy>(k: usize, cursor: u8, this: T, other: T) -> T
    ensures { result ≡ when k =? cursor then this else other }
{
    if k == cursor as usize { this } else { other }
}

// What row 0 asks, by the lines up to line k: how many there are, and the place of the cursor line, which is
// looked for where no row shows it.
fn asked(image: &[u8], session: &Session, k: usize, known: Known) -> Known
    requires { (session.now.lines - 1 ≤ k)
        × (known.count ≡ min (k + 1) (line_count image.now session.now.here.table.0))
        × (session.now.here.first ≤ session.now.here.cursor → session.now.here.cursor < k
        → known.place.0 ≡ cursor_line image.now session.now.here)
        × Tells known.mark (edit_mark image.now session.now.here) }
    ensures { Enough image.now session.now result }
{
    let here = session.here;
    if here.first <= here.cursor && (here.cursor as usize) < k {
        return known;
    }
    Known {
        count: line_count(image, here.table.0),
        place: ImagePlace(here.cursor_line(image)),
        mark: known.mark,
    }
}

// Writes the row of line k of a table of count lines, and answers its mark in row 0, where the row tells it;
// the line is at p, and its head is given.
fn put_row(
    row: &mut [u8],
    image: &[u8],
    sheet: &[u8],
    session: &Session,
    count: usize,
    k: usize,
    p: usize,
    h: Head,
) -> Option<u8>
    requires { (2 ≤ session.now.columns) × (length row.old ≡ session.now.columns)
        × (h ≡ head_at image.now p) }
    ensures value { Tells result (mark_of (first_editable image.now (components_of image.now p))) }
    ensures row_after { row.new ≡ row_at image.now sheet.now session.now count k p }
{
    if k < count {
        return put_line(row, image, sheet, session, k, p, h);
    }
    pad(row, 0);
    None
}

// Writes the rows below row 0, and answers what row 0 asks.
fn put_rows(image: &[u8], sheet: &[u8], session: &Session, picture: &mut [u8]) -> Known
    requires { (2 ≤ session.now.columns) × (1 ≤ session.now.lines)
        × (length picture.old ≡ session.now.columns * session.now.lines) }
    ensures cursor_value { Enough image.now session.now result }
    ensures picture_after { picture.new
        ≡ over picture.old session.now.columns
        (rows_below image.now sheet.now session.now) }
{
    let columns = session.columns as usize;
    let here = session.here;
    let table = here.table.0;
    let mut k = here.first as usize;
    let top = known_to(image, table, k);
    let mut p = top.place.0;
    let mut count = top.count;
    let mut cursor = 0;
    let mut marked = None;
    let mut at = columns;
    for _ in 1..session.lines {
        let h = read_head(image, p);
        let end = at + columns;
        let mark = put_row(&mut picture[at..end], image, sheet, session, count, k, p, h);
        cursor = chosen(k, here.cursor, p, cursor);
        marked = chosen(k, here.cursor, mark, marked);
        count = known_next(count, k, h.last);
        at = end;
        k += 1;
        p = h.next.0;
    }
    let known = Known {
        count,
        place: ImagePlace(cursor),
        mark: marked,
    };
    asked(image, session, k, known)
}

// Writes the picture of a display of a legal shape into as many bytes as it has cells.
fn write_picture(image: &[u8], sheet: &[u8], session: &Session, picture: &mut [u8])
    requires { (shape_fits session.now.columns session.now.lines ≡ true)
        × (length picture.old ≡ session.now.columns * session.now.lines) }
    ensures { picture.new ≡ picture_of image.now sheet.now session.now }
{
    let known = put_rows(image, sheet, session, picture);
    let columns = session.columns as usize;
    put_top(&mut picture[..columns], image, session, known);
}

// Writes the picture; nothing, where no display has the session's shape or the picture has another number of
// bytes. The number is looked at first: by what a legal shape is, the compiler would make a multiplication of
// bytes of it, which looks like a division's.
pub fn put_picture(image: &[u8], sheet: &[u8], session: Session, picture: &mut [u8])
    ensures { picture.new
        ≡ filled image.now sheet.now session picture.old }
{
    if picture.len() != session.columns as usize * session.lines as usize {
        return;
    }
    if !shape_fits(session.columns, session.lines) {
        return;
    }
    write_picture(image, sheet, &session, picture);
}
