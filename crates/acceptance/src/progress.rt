// How far the walk has come.
ghost use Rattle.std.specs.Prelude.{◌≡◌};
ghost use Rattle.acceptance.specs.Check.{refused, read_to, past_line};

use cmf::refusal::Refusal;

// The refusal, if there is one by now; where the last structure without fault ended; how many lines and
// fields are without fault.
#[derive(Clone, Copy)]
pub struct Progress {
    pub refusal: Option<Refusal>,
    pub at: usize,
    pub lines: usize,
    pub fields: usize,
}

impl Progress {
    pub fn refused(self, refusal: Refusal) -> Self
        ensures { result ≡ refused self refusal }
    {
        Progress {
            refusal: Some(refusal),
            ..self
        }
    }

    // A thing that ends at a place is read.
    pub fn read_to(self, at: usize) -> Self
        ensures { result ≡ read_to self at }
    {
        Progress {
            refusal: None,
            at,
            ..self
        }
    }

    // On after a line that ends at a place; a refused walk stays where it is.
    #[tactic(auto, using(laws::proofs::Cases::choices))]
    pub fn past_line(self, at: usize) -> Self
        ensures { result ≡ past_line self at }
    {
        if self.refusal.is_some() {
            return self;
        }
        Progress { at, ..self }
    }
}
