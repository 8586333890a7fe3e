// A password entry, digit by digit.
ghost use Rattle.std.specs.Prelude.{◌≡◌, ◌+◌, ◌≤◌, set};
ghost use Rattle.session.specs.Fits.{cursor_head};
ghost use Rattle.session.specs.Answers.{taken, browsing};
ghost use Rattle.session.specs.Passwords.{right_to, last_digit, digit_step, entry_step};

use crate::answer::Stepped;
use crate::session::{Mode, Session};
use cmf::head::Head;
use cmf::image::Image;
use laws::byte_at;

// Whether the first count digits typed are those of the password that is at a place.
fn is_right(image: &[u8], password: usize, typed: [u8; Image::MAX_PASSWORD], count: usize) -> bool
    requires { count ≤ 256 }
    ensures { result ≡ right_to image.now (password + 1) typed count }
{
    for i in 0..count {
        if image.len() <= password {
            return false;
        }
        let d = byte_at(&typed, i) as usize;
        let b = byte_at(image, password + 1 + i) as usize;
        if b != 0x30 + d {
            return false;
        }
    }
    true
}

fn with_digit(typed: [u8; Image::MAX_PASSWORD], n: u8, d: u8) -> [u8; Image::MAX_PASSWORD]
    ensures { result ≡ set typed n d }
{
    let mut next = typed;
    let at = n as usize;
    if at < Image::MAX_PASSWORD {
        next[at] = d;
    }
    next
}

impl Session {
    // All of the digits are typed.
    fn last_digit(
        self,
        image: &[u8],
        h: Head,
        typed: [u8; Image::MAX_PASSWORD],
        count: usize,
    ) -> Stepped
        requires { count ≤ 256 }
        ensures { result ≡ last_digit image.now self h typed count }
    {
        let right = is_right(image, h.password.0, typed, count);
        let next = self.in_mode(Mode::Browsing, self.work, typed);
        if right {
            return next.descend(h.table.0);
        }
        next.flash()
    }

    // A digit after count others.
    fn type_digit(self, image: &[u8], count: u8, d: u8) -> Stepped
        ensures { result ≡ digit_step image.now self
            (cursor_head image.now self.here) count d }
    {
        let h = self.here.cursor_head(image);
        let typed = with_digit(self.typed, count, d);
        let n = count as usize + 1;
        if n < byte_at(image, h.password.0) as usize {
            return self
                .in_mode(Mode::Password(count + 1), self.work, typed)
                .taken();
        }
        self.last_digit(image, h, typed, n)
    }

    fn give_up(self) -> Stepped
        ensures { result ≡ taken (browsing self) }
    {
        self.in_mode(Mode::Browsing, self.work, self.typed).taken()
    }

    // A step during the entry of a password, with count digits typed.
    pub(crate) fn enter_password(self, image: &[u8], count: u8, event: u8) -> Stepped
        ensures { result ≡ entry_step image.now self count event }
    {
        let active = self.reset_idle();
        match event {
            Session::SECOND => self.entry_second(image),
            Session::LEFT => active.give_up(),
            0..=Session::LAST_DIGIT => active.type_digit(image, count, event),
            _ => active.flash(),
        }
    }
}
