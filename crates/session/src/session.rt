// The session's record, the event numbers, and the closed session.
ghost use Rattle.std.specs.Prelude.{◌≡◌};
ghost use Rattle.session.specs.Session.{closed, opened};

use cmf::image::Image;
use field::kind::ImagePlace;
use field::work::Work;

// A table that is open, with its cursor line and first shown line, from 0.
#[derive(Clone, Copy)]
pub struct Level {
    pub table: ImagePlace,
    pub cursor: u8,
    pub first: u8,
}

// Browsing; in a visit of the component at a place; in the entry of a password with so many digits typed.
#[derive(Clone, Copy)]
pub enum Mode {
    Browsing,
    Visit(ImagePlace),
    Password(u8),
}

// above: the open tables above the shown one, from the top, `outer` of them; here: the shown one. work: the
// working copy of a visit. typed: the digits typed in a password entry. columns, lines: of the display. idle:
// the idle count, seconds since the last key that were not in a visit. Wide fields come first: there is no
// gap before them, and copies stay aligned.
#[derive(Clone, Copy)]
pub struct Session {
    pub above: [Level; Session::MAX_ABOVE],
    pub here: Level,
    pub mode: Mode,
    pub work: Work,
    pub typed: [u8; Image::MAX_PASSWORD],
    pub columns: u8,
    pub lines: u8,
    pub outer: u8,
    pub idle: u8,
}

impl Session {
    // Events 0 to this one are the digits.
    pub const LAST_DIGIT: u8 = 9;

    pub const POINT: u8 = 10;

    pub const UP: u8 = 11;

    pub const DOWN: u8 = 12;

    pub const LEFT: u8 = 13;

    pub const RIGHT: u8 = 14;

    pub const ENTER: u8 = 15;

    pub const SECOND: u8 = 16;

    pub const MIN_COLUMNS: u8 = 14;

    pub const MAX_COLUMNS: u8 = 20;

    pub const MIN_LINES: u8 = 2;

    pub const MAX_LINES: u8 = 4;

    // The idle count stays here.
    pub const MAX_IDLE: u8 = 255;

    // Tables that can be open above the shown one.
    pub const MAX_ABOVE: usize = Image::MAX_DEPTH - 1;

    // The top table at its first line, browsing.
    pub fn opened(columns: u8, lines: u8) -> Self
        ensures { result ≡ opened columns lines }
    {
        let top = Level {
            table: ImagePlace(Image::PROLOG),
            cursor: 0,
            first: 0,
        };
        let none = Level {
            table: ImagePlace(0),
            cursor: 0,
            first: 0,
        };
        Session {
            columns,
            lines,
            outer: 0,
            above: [none; Session::MAX_ABOVE],
            here: top,
            idle: 0,
            mode: Mode::Browsing,
            work: Work {
                cells: [0; Work::CELLS],
                at: 0,
            },
            typed: [0; Image::MAX_PASSWORD],
        }
    }

    // A session that never fits: its display has no columns.
    pub fn closed() -> Self
        ensures { result ≡ closed }
    {
        Session::opened(0, 0)
    }
}
