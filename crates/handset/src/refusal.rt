// The tests that the calls share, each with the refusal of what does not pass it.
ghost use Rattle.std.specs.Prelude.{◌≡◌};
ghost use Rattle.cmf.specs.Refusals.{refusal_in};
ghost use Rattle.acceptance.specs.Check.{refusal_of};
ghost use Rattle.session.specs.Fits.{session_fits};
ghost use Rattle.handset.specs.Refusals.{◌unless◌, session_refusal};

use cmf::refusal::Refusal;
use quick::accept::is_accepted;
use session::session::Session;
use walk::check::check;

// An image for a sheet of so many bytes: the quick walk is asked first, and in doubt the check.
pub fn check_image(image: &[u8], extent: usize) -> Result<(), Refusal>
    ensures { refusal_in result ≡ refusal_of image.now extent }
{
    if is_accepted(image, extent) {
        return Ok(());
    }
    match check(image, extent).progress.refusal {
        None => Ok(()),
        Some(refusal) => Err(refusal),
    }
}

#[tactic(auto, using(crate::proofs::Ordering::tested))]
fn check_session(image: &[u8], session: Session) -> Result<(), Refusal>
    ensures { refusal_in result ≡ (12 unless session_fits image.now session) }
{
    if session.fits(image) {
        return Ok(());
    }
    Err(Refusal::Session)
}

// Image and sheet, and then the session.
pub fn check_sitting(image: &[u8], extent: usize, session: Session) -> Result<(), Refusal>
    ensures { refusal_in result ≡ session_refusal image.now extent session }
{
    check_image(image, extent)?;
    check_session(image, session)
}
