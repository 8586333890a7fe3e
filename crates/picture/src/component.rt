// What a component of a line shows: a visited one its working copy, any other field the sheet's value, a
// string its text.
ghost use Rattle.std.specs.Prelude.{◌≡◌};
ghost use Rattle.texts.specs.Row.{Put};
ghost use Rattle.picture.specs.Rows.{visiting, component_text};

use cmf::component::Component;
use cmf::text::string_bytes;
use session::session::{Mode, Session};
use texts::row::put_all;
use texts::text::{put_cells, put_field};

// What the component at a place shows.
pub(crate) fn put_component(
    row: &mut [u8],
    at: usize,
    image: &[u8],
    sheet: &[u8],
    session: &Session,
    c: Component,
    place: usize,
) -> usize
    ensures { Put row.old at
        (component_text image.now sheet.now session.now place c) row.new result }
{
    if !c.fielded {
        return put_all(row, at, string_bytes(image, place));
    }
    if visits(session.mode, place) {
        return put_cells(row, at, image, place, c.field.kind, &session.work.cells);
    }
    put_field(row, at, image, sheet, place, c.field)
}

// Whether a visit of the component at a place is open.
fn visits(mode: Mode, place: usize) -> bool
    ensures { result ≡ visiting mode place }
{
    match mode {
        Mode::Visit(p) => p.0 == place,
        Mode::Browsing | Mode::Password(_) => false,
    }
}
