// The call: plays a record on an image and a sheet. All that is at fault with the record, or with the room
// for its answers, is found before Open.
ghost use Rattle.std.specs.Prelude.{◌≡◌, length, IfOk};
ghost use Rattle.cmf.specs.Refusals.{refusal_in};
ghost use Rattle.playback.specs.Replay.{listed, refused_replay, play_answer, play_sheet, play_list};

use crate::events::play_events;
use cmf::refusal::Refusal;
use handset::open::open;
use record::reading::{Events, check_record};
use session::session::Session;

// The refusal number, 0 for none; how many events were played; and the session after them, closed where the
// replay is refused.
#[derive(Clone, Copy)]
pub struct Replayed {
    pub refusal: u8,
    pub events: usize,
    pub session: Session,
}

fn refused(refusal: u8) -> Replayed
    ensures { result ≡ refused_replay refusal }
{
    Replayed {
        refusal,
        events: 0,
        session: Session::closed(),
    }
}

// Looks a record through, and then tests that a list of so many entries has room for its answers.
pub fn check_listed(recorded: &[u8], room: usize) -> Result<Events, Refusal>
    ensures refusal_value { refusal_in result ≡ (listed recorded.now room).refusal }
    ensures events_value { IfOk result (λ e. (e.count ≡ (listed recorded.now room).events)
        × (e.start ≡ (listed recorded.now room).start)) }
{
    let events = check_record(recorded)?;
    if room < events.count {
        return Err(Refusal::Room);
    }
    Ok(events)
}

// Plays a record. The answers go to the start of a lent list, by their numbers, and its rest stays.
pub fn play(
    image: &[u8],
    sheet: &mut [u8],
    columns: u8,
    lines: u8,
    recorded: &[u8],
    answers: &mut [u32],
) -> Replayed
    ensures value { result ≡ play_answer image.now sheet.old columns lines
        recorded.now (length answers.old) }
    ensures sheet_after { sheet.new ≡ play_sheet image.now sheet.old columns lines
        recorded.now (length answers.old) }
    ensures answers_after { answers.new ≡ play_list image.now sheet.old columns lines
        recorded.now answers.old }
{
    let listed = match check_listed(recorded, answers.len()) {
        Ok(events) => events,
        Err(refusal) => return refused(refusal.number()),
    };
    let opened = open(image, sheet, columns, lines);
    if opened.refusal != 0 {
        return refused(opened.refusal);
    }
    let events = &recorded[listed.start..];
    let last = play_events(image, sheet, opened.session, events, answers);
    Replayed {
        refusal: 0,
        events: listed.count,
        session: last,
    }
}
