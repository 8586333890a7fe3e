// The call Open: checks image and sheet, writes each field's default, and gives a session.
ghost use Rattle.std.specs.Prelude.{◌≡◌, length};
ghost use Rattle.cmf.specs.Refusals.{number, refusal_in};
ghost use Rattle.session.specs.Session.{closed};
ghost use Rattle.handset.specs.Open.{open_refusal, open_answer, open_sheet};

use crate::fields::write_defaults;
use crate::refusal::check_image;
use cmf::refusal::Refusal;
use session::fits::shape_fits;
use session::session::Session;

// The refusal number, 0 for none, and the session: closed where it is refused.
#[derive(Clone, Copy)]
pub struct Opened {
    pub refusal: u8,
    pub session: Session,
}

fn refused(refusal: Refusal) -> Opened
    ensures { result ≡ record { refusal = number refusal; session = closed } }
{
    Opened {
        refusal: refusal.number(),
        session: Session::closed(),
    }
}

// The display's shape, and then image and sheet.
fn check_open(image: &[u8], extent: usize, columns: u8, lines: u8) -> Result<(), Refusal>
    ensures { refusal_in result ≡ open_refusal image.now extent columns lines }
{
    if !shape_fits(columns, lines) {
        return Err(Refusal::Shape);
    }
    check_image(image, extent)
}

pub fn open(image: &[u8], sheet: &mut [u8], columns: u8, lines: u8) -> Opened
    ensures value { result ≡ open_answer image.now (length sheet.old) columns lines }
    ensures sheet_after { sheet.new ≡ open_sheet image.now sheet.old columns lines }
{
    match check_open(image, sheet.len(), columns, lines) {
        Ok(()) => {
            write_defaults(image, sheet);
            Opened {
                refusal: 0,
                session: Session::opened(columns, lines),
            }
        }
        Err(refusal) => refused(refusal),
    }
}
