// Whether a session fits an image: clause by clause as the paper lists them.
ghost use Rattle.std.specs.Prelude.{◌≡◌, ◌-◌, get_or, take};
ghost use Rattle.laws.specs.Choice.{◌and◌, ◌<?◌};
ghost use Rattle.cmf.specs.Limits.{prolog_bytes, deepest_table};
ghost use Rattle.cmf.specs.Places.{found_if};
ghost use Rattle.session.specs.Session.{no_level};
ghost use Rattle.session.specs.Fits.{shape_fits, cursor_line, cursor_head, level_fits, levels_fit};
ghost use Rattle.session.specs.Fits.{work_fits, visit_fits, digits_to, entry_fits, session_fits};

use crate::session::{Level, Mode, Session};
use cmf::component::read_component;
use cmf::head::{Head, read_head};
use cmf::image::Image;
use cmf::place::{is_on_line, line_at, reach};
use field::kind::{ImagePlace, Kind};
use field::profile::profile_of;
use field::work::Work;
use laws::byte_at;

// Whether a display has a shape that the paper allows.
pub fn shape_fits(columns: u8, lines: u8) -> bool
    ensures { result ≡ shape_fits columns lines }
{
    if columns < Session::MIN_COLUMNS || Session::MAX_COLUMNS < columns {
        return false;
    }
    Session::MIN_LINES <= lines && lines <= Session::MAX_LINES
}

// One less, or 0.
pub(crate) fn rows_below(lines: u8) -> usize
    ensures { result ≡ lines - 1 }
{
    lines.saturating_sub(1) as usize
}

impl Level {
    // The place of the cursor line.
    pub fn cursor_line(self, image: &[u8]) -> usize
        ensures { result ≡ cursor_line image.now self }
    {
        line_at(image, self.table.0, self.cursor as usize)
    }

    // The head of the cursor line.
    pub fn cursor_head(self, image: &[u8]) -> Head
        ensures { result ≡ cursor_head image.now self }
    {
        read_head(image, self.cursor_line(image))
    }

    // Its cursor line, where it shows the table at a place.
    fn shown(self, image: &[u8], lines: u8, table: usize) -> Option<ImagePlace>
        ensures { result
            ≡ found_if (level_fits image.now lines table self)
            (cursor_line image.now self) }
    {
        let cursor = self.cursor as usize;
        let first = self.first as usize;
        if self.table.0 != table || cursor < first || first + rows_below(lines) <= cursor {
            return None;
        }
        reach(image, table, cursor)
    }
}

// Whether a working copy has a chosen cell of its kind, and legal cells; nothing is asked of a trigger's.
fn work_fits(kind: Kind, work: Work) -> bool
    ensures { result ≡ work_fits kind work }
{
    let p = profile_of(kind);
    work.at < p.cells && (p.fires || work.legal(kind))
}

impl Session {
    // The level k tables below the top, of those above the shown one.
    pub fn above_at(self, k: usize) -> Level
        ensures { result ≡ get_or self.above k no_level }
    {
        if k < Session::MAX_ABOVE {
            return self.above[k];
        }
        Level {
            table: ImagePlace(0),
            cursor: 0,
            first: 0,
        }
    }
}

// The cursor line, where the tables fit: the open ones above, from the top, and the shown one.
fn shown_line(
    image: &[u8],
    lines: u8,
    outer: u8,
    above: [Level; Session::MAX_ABOVE],
    here: Level,
) -> Option<ImagePlace>
    ensures { result
        ≡ found_if
        ((outer <? deepest_table) and levels_fit image.now lines prolog_bytes (take outer above) here)
        (cursor_line image.now here) }
{
    let count = outer as usize;
    if Image::MAX_DEPTH <= count {
        return None;
    }
    let mut t = Image::PROLOG;
    for i in 0..count {
        let p = above[i].shown(image, lines, t)?;
        let h = read_head(image, p.0);
        if !h.submenu {
            return None;
        }
        t = h.table.0;
    }
    here.shown(image, lines, t)
}

// Whether a visit of the component at a place fits the cursor line.
fn visit_fits(image: &[u8], line: usize, place: usize, work: Work) -> bool
    ensures { result ≡ visit_fits image.now line work place }
{
    if !is_on_line(image, line, place) {
        return false;
    }
    let c = read_component(image, place);
    c.fielded && c.editable && work_fits(c.field.kind, work)
}

// Whether the first n numbers typed are digits.
fn digits_to(typed: [u8; Image::MAX_PASSWORD], n: u8) -> bool
    ensures { result ≡ digits_to typed n }
{
    for i in 0..n as usize {
        if Session::LAST_DIGIT < byte_at(&typed, i) {
            return false;
        }
    }
    true
}

// Whether a password entry with n digits typed fits the cursor line.
fn entry_fits(image: &[u8], line: usize, n: u8, typed: [u8; Image::MAX_PASSWORD]) -> bool
    ensures { result ≡ entry_fits image.now line typed n }
{
    let h = read_head(image, line);
    h.protected && n < byte_at(image, h.password.0) && digits_to(typed, n)
}

impl Session {
    // Whether the session fits an image. Each clause is given the fields that it asks about: a session that
    // is handed on whole is copied.
    pub fn fits(self, image: &[u8]) -> bool
        ensures { result ≡ session_fits image.now self }
    {
        if !shape_fits(self.columns, self.lines) {
            return false;
        }
        let line = shown_line(image, self.lines, self.outer, self.above, self.here);
        let Some(p) = line else {
            return false;
        };
        match self.mode {
            Mode::Browsing => true,
            Mode::Visit(place) => visit_fits(image, p.0, place.0, self.work),
            Mode::Password(n) => entry_fits(image, p.0, n, self.typed),
        }
    }
}
