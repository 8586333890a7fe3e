// Where the quick walk is in a table.
ghost use Rattle.std.specs.Prelude.{◌≡◌, false, ◌<◌};
ghost use Rattle.cmf.specs.Limits.{most_lines};
ghost use Rattle.quick.specs.Accept.{headed};

use crate::tally::Tally;
use field::kind::ImagePlace;

// In the line at a place, which has n lines of its table before it. Done: all its components are passed, and
// the tally is that at the line's end.
#[derive(Clone, Copy)]
pub struct Position {
    pub tally: Tally,
    pub n: usize,
    pub line: ImagePlace,
    pub done: bool,
}

impl Position {
    // After the head of a line, which ends at a place.
    pub(crate) fn headed(w: Tally, n: usize, line: usize, end: usize) -> Self
        requires { w.lines < most_lines }
        ensures { result
            ≡ record { tally = headed w end; n = n; line = record { 0 = line }; done = false } }
    {
        Position {
            tally: w.headed(end),
            n,
            line: ImagePlace(line),
            done: false,
        }
    }
}
