// What an event answers, and a session with something changed.
ghost use Rattle.std.specs.Prelude.{◌≡◌, ◌+◌, ◌≤◌, min};
ghost use Rattle.session.specs.Answers.{fired_from, most_place, told_number};
ghost use Rattle.session.specs.Answers.{taken, flash, with_idle, with_here, in_mode};

use crate::session::{Level, Mode, Session};
use cmf::image::Image;
use field::kind::ImagePlace;
use field::work::Work;

// The paper's answers. Taken: the event did what it is for. Flash: it can't be done. Finished: a visit of the
// field at a place was finished. Fired: the trigger at a place was fired. Refused: with the refusal number.
#[derive(Clone, Copy)]
pub enum Answer {
    Taken,
    Flash,
    Finished(ImagePlace),
    Fired(ImagePlace),
    Refused(u8),
}

// A number with a place added. A place above the largest is told as the largest.
fn with_place(number: u32, place: ImagePlace) -> u32
    requires { number ≤ fired_from }
    ensures { result ≡ number + min place.0 most_place }
{
    number + place.0.min(Answer::MAX_PLACE) as u32
}

impl Answer {
    // The numbers that a place, or a refusal's number, is added to.
    pub const FINISHED: u32 = 65536;

    pub const FIRED: u32 = 131072;

    pub const REFUSED: u32 = 16777216;

    // The largest place that a number tells; those of an image are below it.
    const MAX_PLACE: usize = 65535;

    // The answer's number.
    pub fn number(self) -> u32
        ensures { result ≡ told_number self }
    {
        match self {
            Answer::Taken => 0,
            Answer::Flash => 1,
            Answer::Finished(place) => with_place(Answer::FINISHED, place),
            Answer::Fired(place) => with_place(Answer::FIRED, place),
            Answer::Refused(refusal) => Answer::REFUSED + refusal as u32,
        }
    }
}

#[derive(Clone, Copy)]
pub struct Stepped {
    pub session: Session,
    pub answer: Answer,
}

impl Session {
    pub(crate) fn taken(self) -> Stepped
        ensures { result ≡ taken self }
    {
        Stepped {
            session: self,
            answer: Answer::Taken,
        }
    }

    pub(crate) fn flash(self) -> Stepped
        ensures { result ≡ flash self }
    {
        Stepped {
            session: self,
            answer: Answer::Flash,
        }
    }

    // Any key makes the idle count 0.
    pub(crate) fn reset_idle(mut self) -> Self
        ensures { result ≡ with_idle self 0 }
    {
        self.idle = 0;
        self
    }

    pub(crate) fn with_here(mut self, here: Level) -> Self
        ensures { result ≡ with_here self here }
    {
        self.here = here;
        self
    }

    // Another mode, working copy and digits typed.
    pub(crate) fn in_mode(self, mode: Mode, work: Work, typed: [u8; Image::MAX_PASSWORD]) -> Self
        ensures { result ≡ in_mode self mode work typed }
    {
        Session {
            mode,
            work,
            typed,
            ..self
        }
    }
}
