// A second that passes: the idle count, and what it ends.
ghost use Rattle.std.specs.Prelude.{◌≡◌};
ghost use Rattle.session.specs.Seconds.{later, delay_over, waited, at_top, browse_second, entry_second};

use crate::answer::Stepped;
use crate::session::{Level, Mode, Session};
use cmf::image::Image;
use field::kind::ImagePlace;

fn later(idle: u8) -> u8
    ensures { result ≡ later idle }
{
    if idle < Session::MAX_IDLE {
        return idle + 1;
    }
    Session::MAX_IDLE
}

// Whether a delay has passed; 0 stands for never.
fn delay_over(delay: u8, idle: u8) -> bool
    ensures { result ≡ delay_over delay idle }
{
    delay != 0 && delay <= idle
}

impl Session {
    fn waited(mut self) -> Self
        ensures { result ≡ waited self }
    {
        self.idle = later(self.idle);
        self
    }

    fn at_top(mut self) -> Self
        ensures { result ≡ at_top self }
    {
        let top = Level {
            table: ImagePlace(Image::PROLOG),
            cursor: 0,
            first: 0,
        };
        self.outer = 0;
        self.here = top;
        self
    }

    // A second while browsing.
    pub(crate) fn browse_second(self, image: &[u8]) -> Stepped
        ensures { result ≡ browse_second image.now self }
    {
        let read = Image::read(image);
        let next = self.waited();
        if delay_over(read.delays.top, later(self.idle)) {
            return next.at_top().taken();
        }
        next.taken()
    }

    // A second during a password entry.
    pub(crate) fn entry_second(self, image: &[u8]) -> Stepped
        ensures { result ≡ entry_second image.now self }
    {
        let read = Image::read(image);
        let next = self.waited();
        if delay_over(read.delays.password, later(self.idle)) {
            return next.in_mode(Mode::Browsing, self.work, self.typed).taken();
        }
        next.taken()
    }
}
