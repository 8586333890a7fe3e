// The calls that C sees at the desk: handset_mark, handset_record and handset_play.
ghost use Rattle.std.specs.Prelude.{◌≡◌, [], ◌∷◌, length};
ghost use Rattle.laws.specs.Choice.{when◌then◌else◌, ◌=?◌};
ghost use Rattle.session_bytes.specs.Layout.{session_from};
ghost use Rattle.handset.specs.Refusals.{◌before◌};
ghost use Rattle.record.specs.Forms.{recorded_in};
ghost use Rattle.playback.specs.Replay.{play_refusal};
ghost use Rattle.binding.specs.Desk.{refused_room, mark_number, marked_sums, record_number};
ghost use Rattle.binding.specs.Desk.{play_number, played_sheet, played_list, played_bytes, played_session};

use crate::answer::{REFUSED, refused_by};
use crate::calls::{byte_of, unsized_refusal};
use cmf::refusal::Refusal;
use marker::mark::{Sums, mark};
use playback::play::{check_listed, play};
use record::recording::record;
use session_bytes::layout::SIZE;
use session_bytes::write::write_session;

// Writes the points to room for three sums; the number of the answer.
fn give(sums: &mut [u32], points: Sums) -> u32
    ensures value { result ≡ (when length sums.old =? 3 then 0 else refused_room) }
    ensures sums_after { sums.new
        ≡ (when length sums.old =? 3 then points.right ∷ points.wrong ∷ points.blank ∷ [] else sums.old) }
{
    if sums.len() == 3 {
        sums[0] = points.right;
        sums[1] = points.wrong;
        sums[2] = points.blank;
        return 0;
    }
    REFUSED + Refusal::Room.number() as u32
}

#[unsafe(no_mangle)]
pub extern "C" fn handset_mark(image: &[u8], sheet: &[u8], key: &[u16], sums: &mut [u32]) -> u32
    ensures value { result ≡ mark_number image.now (length sheet.now) key.now
        (length sums.old) }
    ensures sums_after { sums.new
        ≡ marked_sums image.now sheet.now key.now sums.old }
{
    match mark(image, sheet, key) {
        Ok(points) => give(sums, points),
        Err(refusal) => refused_by(refusal.number()),
    }
}

#[unsafe(no_mangle)]
pub extern "C" fn handset_record(events: &[u8], room: &mut [u8]) -> u32
    ensures value { result ≡ record_number events.now (length room.old) }
    ensures room_after { room.new ≡ recorded_in events.now room.old }
{
    match record(events, room) {
        Ok(length) => length as u32,
        Err(refusal) => refused_by(refusal.number()),
    }
}

// The refusal of a replay whose session would not fit its buffer: the record's, 25, Open's, then 12.
fn unsized_replay(
    image: &[u8],
    extent: usize,
    columns: u8,
    lines: u8,
    recorded: &[u8],
    room: usize,
) -> u8
    ensures { result ≡ play_refusal image.now extent columns lines recorded.now room
        before 12 }
{
    match check_listed(recorded, room) {
        Ok(_) => unsized_refusal(image, extent, columns, lines),
        Err(refusal) => refusal.number(),
    }
}

#[unsafe(no_mangle)]
pub extern "C" fn handset_play(
    image: &[u8],
    sheet: &mut [u8],
    columns: u32,
    lines: u32,
    recorded: &[u8],
    answers: &mut [u32],
    session: &mut [u8],
) -> u32
    ensures value { result ≡ play_number image.now (length sheet.old) columns lines
        recorded.now (length answers.old) (length session.old) }
    ensures sheet_after { sheet.new ≡ played_sheet image.now sheet.old columns lines
        recorded.now (length answers.old) (length session.old) }
    ensures answers_after { answers.new ≡ played_list image.now sheet.old columns lines
        recorded.now answers.old (length session.old) }
    ensures session_after { session.new ≡ played_bytes image.now sheet.old columns lines
        recorded.now (length answers.old) session.old }
    ensures session_after_2 { session_from session.new
        ≡ played_session image.now sheet.old columns lines recorded.now
        (length answers.old) (length session.old) }
{
    let across = byte_of(columns);
    let down = byte_of(lines);
    if session.len() != SIZE {
        let refusal = unsized_replay(image, sheet.len(), across, down, recorded, answers.len());
        return REFUSED + refusal as u32;
    }
    let replayed = play(image, sheet, across, down, recorded, answers);
    let last = replayed.session;
    write_session(session, last);
    if replayed.refusal != 0 {
        return refused_by(replayed.refusal);
    }
    replayed.events as u32
}
