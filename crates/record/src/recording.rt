// Recording: a lent list of events is written as a record to lent room.
ghost use Rattle.std.specs.Prelude.{◌≡◌, length, IfOk};
ghost use Rattle.cmf.specs.Refusals.{refusal_in};
ghost use Rattle.record.specs.Forms.{are_events, record_of, recording_refusal, recorded, recorded_in};

use crate::number::{group_count, write_number};
use cmf::refusal::Refusal;
use laws::put_bytes;
use session::session::Session;

// The number that a record of form 1 begins with.
pub const FORM_1: u16 = 1;

// The most events that a record can state.
pub const MAX_EVENTS: usize = 65535;

// Whether all of a list are events.
fn are_events(events: &[u8]) -> bool
    ensures { result ≡ are_events events.now }
{
    events.iter().all(|e| *e <= Session::SECOND)
}

// Tests events that are to be recorded in room of so many bytes; the length of their record.
fn check_recording(events: &[u8], room: usize) -> Result<usize, Refusal>
    ensures refusal_value { refusal_in result ≡ recording_refusal events.now room }
    ensures length_value { IfOk result (λ n. n ≡ length (record_of events.now)) }
{
    let n = events.len();
    if MAX_EVENTS < n {
        return Err(Refusal::Record);
    }
    if !are_events(events) {
        return Err(Refusal::Event);
    }
    let length = 1 + group_count(n as u16) + n;
    if room < length {
        return Err(Refusal::Room);
    }
    Ok(length)
}

// Records events in the room; the record's length. An event is one group, its own byte, so that they are
// copied.
pub fn record(events: &[u8], room: &mut [u8]) -> Result<usize, Refusal>
    ensures refusal_value { refusal_in result
        ≡ (recorded events.now (length room.old)).refusal }
    ensures length_value { IfOk result
        (λ n. n ≡ (recorded events.now (length room.old)).length) }
    ensures room_after { room.new ≡ recorded_in events.now room.old }
{
    let length = check_recording(events, room.len())?;
    let at = write_number(room, 0, FORM_1);
    let start = write_number(room, at, events.len() as u16);
    put_bytes(room, start, events);
    Ok(length)
}
