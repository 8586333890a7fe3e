// How far the quick walk has come.
ghost use Rattle.std.specs.Prelude.{◌≡◌, ◌<◌};
ghost use Rattle.cmf.specs.Limits.{most_fields, most_lines};
ghost use Rattle.quick.specs.Accept.{past, headed, fielded};

// How far the walk came: where the last thing ended, how many lines and fields there are.
#[derive(Clone, Copy)]
pub struct Tally {
    pub at: usize,
    pub lines: usize,
    pub fields: usize,
}

impl Tally {
    // After a title or a constant string that ends at a place.
    pub(crate) fn past(self, end: usize) -> Self
        ensures { result ≡ past self end }
    {
        Tally { at: end, ..self }
    }

    // After the head of a line that ends at a place.
    pub(crate) fn headed(self, end: usize) -> Self
        requires { self.lines < most_lines }
        ensures { result ≡ headed self end }
    {
        Tally {
            at: end,
            lines: self.lines + 1,
            ..self
        }
    }

    // After a field that ends at a place.
    pub(crate) fn fielded(self, end: usize) -> Self
        requires { self.fields < most_fields }
        ensures { result ≡ fielded self end }
    {
        Tally {
            at: end,
            fields: self.fields + 1,
            ..self
        }
    }
}
