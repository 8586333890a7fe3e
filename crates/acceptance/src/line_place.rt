// Where a line stands, in its table and in the image.
ghost use Rattle.std.specs.Prelude.{◌≡◌, ◌+◌, ◌-◌, ◌^◌, min};

// The line at a place of the image: so many lines of its table come before it, the last of them at `before`,
// which is 0 for the first of a table.
#[derive(Clone, Copy)]
pub struct LinePlace {
    pub number: usize,
    pub before: usize,
    pub at: usize,
}

impl LinePlace {
    // The first line of a table.
    pub fn first(at: usize) -> Self
        ensures { result ≡ record { number = 0; before = 0; at = at } }
    {
        LinePlace {
            number: 0,
            before: 0,
            at,
        }
    }

    // The line that this one leads to. No table has so many lines that the number would stop at its end.
    pub fn next(self, at: usize) -> Self
        ensures { result
            ≡ record { number = min (self.number + 1) (2 ^ 64 - 1); before = self.at; at = at } }
    {
        LinePlace {
            number: self.number.saturating_add(1),
            before: self.at,
            at,
        }
    }
}
