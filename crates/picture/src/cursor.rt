// The edit cursor: where the chosen cell of a visit is in the picture.
ghost use Rattle.std.specs.Prelude.{◌≡◌, ◌+◌, ◌≤◌, ◌<◌, min};
ghost use Rattle.cmf.specs.Places.{components_of};
ghost use Rattle.picture.specs.Cursor.{cursor_place, date_part, cell_within, width_at, cells_before};
ghost use Rattle.picture.specs.Cursor.{data_cell, edit_cursor};

use cmf::component::{Component, read_component};
use cmf::head::read_head;
use cmf::text::string_bytes;
use field::kind::Kind;
use session::session::{Mode, Session};
use texts::text::{width_of, year_cells};

// Its row and column, both from 0.
#[derive(Clone, Copy)]
pub struct EditCursor {
    pub row: usize,
    pub column: usize,
}

impl EditCursor {
    // No display has so many columns: cells are counted no further.
    const FAR: usize = 255;
}

// The cells of the component at a place.
fn width_at(image: &[u8], c: Component, place: usize) -> usize
    ensures { result ≡ width_at image.now place c }
{
    if c.fielded {
        return width_of(c.field.kind);
    }
    string_bytes(image, place).len()
}

// The sum, or the end of counting where it is more.
fn counted(a: usize, b: usize) -> usize
    requires { a ≤ 255 }
    ensures { result ≡ min 255 (a + b) }
{
    a + b.min(EditCursor::FAR - a)
}

// The cells of the components of a line that are before the one at a place, as far as they are counted.
fn cells_before(image: &[u8], line: usize, place: usize) -> usize
    ensures { result ≡ min 255 (cells_before image.now place
        (components_of image.now line)) }
{
    let h = read_head(image, line);
    let mut p = h.component.0;
    let mut sum = 0;
    for _ in 0..image.len() + 1 {
        if p == place {
            return sum;
        }
        let c = read_component(image, p);
        sum = counted(sum, width_at(image, c, p));
        if c.last {
            return sum;
        }
        p = c.next.0;
    }
    sum
}

fn date_part(year: usize, i: usize) -> usize
    requires { (year ≤ 4) × (i < 256) }
    ensures { result ≡ date_part year i }
{
    if i == 0 {
        return 0;
    }
    year + 1 + 3 * (i - 1)
}

// The cell that the cursor is on within its component.
fn cell_within(kind: Kind, at: u8) -> usize
    ensures { (result ≡ cell_within kind at) × (result < 1024) }
{
    let i = at as usize;
    match kind {
        Kind::Integer(_) | Kind::Switch(_) => i,
        Kind::Counter(s) => (s.width as usize).saturating_sub(1),
        Kind::Time(_) => 3 * i,
        Kind::Date(long) => date_part(year_cells(long) as usize, i),
        Kind::Option { .. } => 0,
        Kind::Trigger => 1,
    }
}

// The data cell that the cursor is on.
fn data_cell(image: &[u8], session: Session, place: usize) -> usize
    ensures { (result ≡ data_cell image.now session place) × (result ≤ 255) }
{
    let before = cells_before(image, session.here.cursor_line(image), place);
    let c = read_component(image, place);
    let cell = before + cell_within(c.field.kind, session.work.at);
    cell.min((session.columns as usize).saturating_sub(3))
}

// Where the edit cursor is, if there is one.
pub fn edit_cursor(image: &[u8], session: Session) -> Option<EditCursor>
    ensures { cursor_place result ≡ edit_cursor image.now session }
{
    let here = session.here;
    match session.mode {
        Mode::Visit(p) => Some(EditCursor {
            row: (1 + here.cursor as usize).saturating_sub(here.first as usize),
            column: 1 + data_cell(image, session, p.0),
        }),
        Mode::Browsing | Mode::Password(_) => None,
    }
}
