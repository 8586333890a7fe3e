// Browsing: one method a key.
ghost use Rattle.std.specs.Prelude.{◌≡◌, ◌-◌, ◌<◌};
ghost use Rattle.session.specs.Browsing.{first_for, cursor_on, up_step, down_step, left_step, descended};
ghost use Rattle.session.specs.Browsing.{right_step, visit_at, enter_step, browse_step};

use crate::answer::Stepped;
use crate::fits::rows_below;
use crate::session::{Level, Mode, Session};
use cmf::component::read_component;
use cmf::image::Image;
use cmf::place::{first_editable, reach};
use field::kind::ImagePlace;

// The first shown line once the cursor is on a line.
fn first_for(rows: usize, cursor: u8, first: u8) -> u8
    requires { cursor < 255 }
    ensures { result ≡ first_for rows cursor first }
{
    if cursor < first {
        return cursor;
    }
    let at = cursor as usize;
    if at < rows || at - rows < first as usize {
        return first;
    }
    (at + 1 - rows) as u8
}

impl Session {
    fn cursor_on(self, cursor: u8) -> Self
        requires { cursor < 255 }
        ensures { result ≡ cursor_on self cursor }
    {
        let here = self.here;
        let first = first_for(rows_below(self.lines), cursor, here.first);
        self.with_here(Level {
            cursor,
            first,
            ..here
        })
    }

    fn up(self) -> Stepped
        ensures { result ≡ up_step self }
    {
        let cursor = self.here.cursor;
        if cursor == 0 {
            return self.flash();
        }
        self.cursor_on(cursor - 1).taken()
    }

    fn down(self, image: &[u8]) -> Stepped
        ensures { result ≡ down_step image.now self }
    {
        let cursor = self.here.cursor;
        let next = reach(image, self.here.table.0, cursor as usize + 1);
        match next {
            Some(_) => self.cursor_on(cursor + 1).taken(),
            None => self.flash(),
        }
    }

    fn left(mut self) -> Stepped
        ensures { result ≡ left_step self }
    {
        if self.outer == 0 {
            return self.flash();
        }
        self.outer -= 1;
        self.here = self.above_at(self.outer as usize);
        self.taken()
    }

    // The table at a place shown at its first line.
    pub(crate) fn descend(mut self, table: usize) -> Stepped
        ensures { result ≡ descended self table }
    {
        let at = self.outer as usize;
        if at + 1 < Image::MAX_DEPTH {
            self.above[at] = self.here;
            self.here = Level {
                table: ImagePlace(table),
                cursor: 0,
                first: 0,
            };
            self.outer += 1;
            return self.taken();
        }
        self.flash()
    }

    fn right(self, image: &[u8]) -> Stepped
        ensures { result ≡ right_step image.now self }
    {
        let h = self.here.cursor_head(image);
        if h.submenu {
            if h.protected {
                return self
                    .in_mode(Mode::Password(0), self.work, self.typed)
                    .taken();
            }
            return self.descend(h.table.0);
        }
        self.flash()
    }

    // In a visit of the component at a place.
    pub(crate) fn visit_at(self, image: &[u8], sheet: &[u8], place: ImagePlace) -> Self
        ensures { result ≡ visit_at image.now sheet.now self place }
    {
        let work = read_component(image, place.0).field.begin(sheet);
        self.in_mode(Mode::Visit(place), work, self.typed)
    }

    fn enter(self, image: &[u8], sheet: &[u8]) -> Stepped
        ensures { result ≡ enter_step image.now sheet.now self }
    {
        let h = self.here.cursor_head(image);
        let f = first_editable(image, h.component.0);
        match f {
            Some(p) => self.visit_at(image, sheet, p).taken(),
            None => self.flash(),
        }
    }

    // A step while browsing.
    pub(crate) fn browse(self, image: &[u8], sheet: &[u8], event: u8) -> Stepped
        ensures { result ≡ browse_step image.now sheet.now self event }
    {
        let active = self.reset_idle();
        match event {
            Session::UP => active.up(),
            Session::DOWN => active.down(image),
            Session::LEFT => active.left(),
            Session::RIGHT => active.right(image),
            Session::ENTER => active.enter(image, sheet),
            Session::SECOND => self.browse_second(image),
            _ => active.flash(),
        }
    }
}
