// A record played to its end, on lent bytes: the sheet and the last picture.
ghost use Rattle.std.specs.Prelude.{◌≡◌, [], length};
ghost use Rattle.laws.specs.Choice.{when◌then◌else◌, ◌≤?◌};
ghost use Rattle.picture.specs.Rows.{picture_of};
ghost use Rattle.playback.specs.Replay.{play_refusal, play_answer, play_sheet};

use console::display::{COLUMNS, LINES};
use handset::draw::draw;
use playback::play::play;

// The most bytes of a record that is played; it has fewer events.
pub const MAX_RECORD: usize = 16000;

// A record as it is played: a longer one counts as empty.
#[tactic(auto, using(laws::proofs::Cases::if_le, laws::proofs::Cases::if_gt))]
pub fn taken(recorded: &[u8]) -> &[u8]
    ensures { result.now ≡ (when length recorded.now ≤? 16000
        then recorded.now else []) }
{
    if recorded.len() <= MAX_RECORD {
        recorded
    } else {
        &[]
    }
}

// Plays a record on a display of 20 x 4, and draws the last picture in 80 bytes. Answers the refusal number,
// 0 for none.
pub fn replay(image: &[u8], recorded: &[u8], sheet: &mut [u8], picture: &mut [u8]) -> u8
    ensures value { result ≡ play_refusal image.now (length sheet.old) 20 4
        recorded.now 16000 }
    ensures sheet_after { sheet.new ≡ play_sheet image.now sheet.old 20 4
        recorded.now 16000 }
    ensures picture_after { result ≡ 0 → length picture.old ≡ 80
        → picture.new ≡ picture_of image.now sheet.new
        (play_answer image.now sheet.old 20 4
        recorded.now 16000).session }
{
    let mut answers = [0u32; MAX_RECORD];
    let replayed = play(image, sheet, COLUMNS, LINES, recorded, &mut answers);
    let _ = draw(image, sheet, replayed.session, picture);
    replayed.refusal
}
