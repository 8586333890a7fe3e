// The answers of the calls as numbers.
ghost use Rattle.std.specs.Prelude.{◌≡◌, ◌<◌};
ghost use Rattle.picture.specs.Cursor as cursor_at;
ghost use Rattle.cmf.specs.Refusals.{refusal_in};
ghost use Rattle.binding.specs.Answers.{refused_by, cursor_number};

use cmf::refusal::Refusal;
use picture::cursor::EditCursor;
use session::answer::Answer;

pub const CURSOR: u32 = 65536;

pub const REFUSED: u32 = Answer::REFUSED;

// The number of what a test refuses, 0 for none.
pub(crate) fn number_in(tested: Result<(), Refusal>) -> u8
    ensures { result ≡ refusal_in tested }
{
    match tested {
        Ok(()) => 0,
        Err(refusal) => refusal.number(),
    }
}

// The number of a refusal, 0 for none.
pub(crate) fn refused_by(refusal: u8) -> u32
    ensures { result ≡ refused_by refusal }
{
    if refusal == 0 {
        return 0;
    }
    REFUSED + refusal as u32
}

// Where the edit cursor is, 0 for none.
pub(crate) fn cursor_number(cursor: Option<EditCursor>) -> u32
    requires { cursor_number (cursor_at.cursor_place cursor) < 131072 }
    ensures { result ≡ cursor_number (cursor_at.cursor_place cursor) }
{
    match cursor {
        None => 0,
        Some(at) => CURSOR + 256 * at.row as u32 + at.column as u32,
    }
}
