// The row of a line.
ghost use Rattle.std.specs.Prelude.{◌≡◌, ◌∷◌, ◌≤◌, length};
ghost use Rattle.laws.specs.Choice.{when◌then◌else◌, ◌=?◌};
ghost use Rattle.laws.specs.Overwrite.{fit};
ghost use Rattle.cmf.specs.Readers.{head_at};
ghost use Rattle.cmf.specs.Places.{components_of, rest_of_line, first_editable};
ghost use Rattle.texts.specs.Row.{Put};
ghost use Rattle.texts.specs.Texts.{blank};
ghost use Rattle.picture.specs.Rows.{greater, mark_of, data_text, submenu_mark, line_row};
ghost use Rattle.picture.specs.Marks.{Tells, mark_by};

use crate::component::put_component;
use cmf::component::read_component;
use cmf::head::Head;
use session::session::Session;
use texts::row::{pad, put};

// Where a line's data end, and its mark in row 0, which says whether a component is editable, where the row
// tells it.
#[derive(Clone, Copy)]
struct Marked {
    end: usize,
    mark: Option<u8>,
}

// The mark by one component more, which is the last of its line or not.
fn mark_by(mark: Option<u8>, editable: bool, last: bool) -> Option<u8>
    ensures { result ≡ mark_by mark editable last }
{
    if mark.is_some() {
        mark
    } else if editable {
        Some(b':')
    } else if last {
        Some(b'*')
    } else {
        None
    }
}

// What the components from one on to the last of a line show; none is read that begins past the row's end.
fn put_data(
    row: &mut [u8],
    start: usize,
    image: &[u8],
    sheet: &[u8],
    session: &Session,
    first: usize,
) -> Marked
    ensures { Put
        row.old start
        (data_text image.now sheet.now session.now (rest_of_line image.now first))
        row.new result.end
        × Tells result.mark (mark_of (first_editable image.now (rest_of_line image.now first))) }
{
    let mut at = start;
    let mut mark = None;
    let mut p = first;
    for _ in 0..image.len() + 1 {
        if row.len() <= at {
            return Marked {
                end: row.len(),
                mark,
            };
        }
        let c = read_component(image, p);
        at = put_component(row, at, image, sheet, session, c, p);
        mark = mark_by(mark, c.editable, c.last);
        if c.last {
            return Marked { end: at, mark };
        }
        p = c.next.0;
    }
    Marked {
        end: at.min(row.len()),
        mark,
    }
}

fn cursor_mark(k: usize, cursor: u8) -> u8
    ensures { result ≡ when k =? cursor then greater else blank }
{
    if k == cursor as usize { b'>' } else { b' ' }
}

fn submenu_mark(h: Head) -> u8
    ensures { result ≡ submenu_mark h }
{
    if h.protected {
        b'P'
    } else if h.submenu {
        b'>'
    } else {
        b' '
    }
}

// The row of line k but for its last cell; answers the line's mark in row 0, where the row tells it.
fn put_start(
    row: &mut [u8],
    image: &[u8],
    sheet: &[u8],
    session: &Session,
    k: usize,
    first: usize,
) -> Option<u8>
    ensures value { Tells result (mark_of (first_editable image.now (rest_of_line image.now first))) }
    ensures row_after { row.new
        ≡ fit blank (length row.old)
        ((when k =? session.now.here.cursor then greater else blank)
        ∷ data_text image.now sheet.now session.now
        (rest_of_line image.now first)) }
{
    let start = put(row, 0, cursor_mark(k, session.here.cursor));
    let data = put_data(row, start, image, sheet, session, first);
    pad(row, data.end);
    data.mark
}

// The row of line k, from 0, of the shown table; the line is at p, and its head is given. Answers its mark in
// row 0, where the row tells it.
pub(crate) fn put_line(
    row: &mut [u8],
    image: &[u8],
    sheet: &[u8],
    session: &Session,
    k: usize,
    p: usize,
    h: Head,
) -> Option<u8>
    requires { (2 ≤ session.now.columns) × (length row.old ≡ session.now.columns)
        × (h ≡ head_at image.now p) }
    ensures value { Tells result (mark_of (first_editable image.now (components_of image.now p))) }
    ensures row_after { row.new ≡ line_row image.now sheet.now session.now k p }
{
    let end = session.columns as usize - 1;
    let mark = put_start(&mut row[..end], image, sheet, session, k, h.component.0);
    row[end] = submenu_mark(h);
    mark
}
