// A step of the session: what an event makes of it, by its mode.
ghost use Rattle.std.specs.Prelude.{◌≡◌};
ghost use Rattle.session.specs.Step.{step_of, sheet_of};

use crate::answer::Stepped;
use crate::session::{Mode, Session};

impl Session {
    pub fn step(self, image: &[u8], sheet: &mut [u8], event: u8) -> Stepped
        ensures value { result ≡ step_of image.now sheet.old self event }
        ensures sheet_after { sheet.new ≡ sheet_of image.now sheet.old self event }
    {
        match self.mode {
            Mode::Browsing => self.browse(image, sheet, event),
            Mode::Visit(p) => self.visit(image, sheet, p, event),
            Mode::Password(n) => self.enter_password(image, n, event),
        }
    }
}
