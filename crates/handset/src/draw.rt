// The call Draw: fills a picture, and says where the edit cursor is.
ghost use Rattle.std.specs.Prelude.{◌≡◌, ◌*◌, length};
ghost use Rattle.laws.specs.Choice.{◌=?◌};
ghost use Rattle.cmf.specs.Refusals.{refusal_in};
ghost use Rattle.picture.specs.Cursor.{cursor_place};
ghost use Rattle.handset.specs.Refusals.{◌unless◌};
ghost use Rattle.handset.specs.Draw.{cursor_in, draw_refusal, draw_cursor, drawn_picture};

use crate::refusal::check_sitting;
use cmf::refusal::Refusal;
use picture::cursor::{EditCursor, edit_cursor};
use picture::picture::put_picture;
use session::session::Session;

// A picture of so many bytes for a display of so many columns and lines.
#[tactic(auto, using(crate::proofs::Ordering::tested))]
fn check_picture(columns: u8, lines: u8, length: usize) -> Result<(), Refusal>
    ensures { refusal_in result ≡ (1 unless (length =? columns * lines)) }
{
    if length == columns as usize * lines as usize {
        return Ok(());
    }
    Err(Refusal::Shape)
}

// Image, sheet and session, and then the picture's length.
fn check_drawing(
    image: &[u8],
    extent: usize,
    session: Session,
    length: usize,
) -> Result<(), Refusal>
    ensures { refusal_in result ≡ draw_refusal image.now extent session length }
{
    check_sitting(image, extent, session)?;
    check_picture(session.columns, session.lines, length)
}

// The edit cursor, if there is one.
pub fn draw(
    image: &[u8],
    sheet: &[u8],
    session: Session,
    picture: &mut [u8],
) -> Result<Option<EditCursor>, Refusal>
    ensures refusal_value { refusal_in result ≡ draw_refusal image.now (length sheet.now) session
        (length picture.old) }
    ensures cursor_value { cursor_place (cursor_in result)
        ≡ draw_cursor image.now (length sheet.now) session
        (length picture.old) }
    ensures picture_after { picture.new
        ≡ drawn_picture image.now sheet.now session picture.old }
{
    check_drawing(image, sheet.len(), session, picture.len())?;
    put_picture(image, sheet, session, picture);
    Ok(edit_cursor(image, session))
}
