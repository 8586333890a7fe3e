// What was pressed in a sitting, for the candidate to read: `transcript IMAGE RECORD` plays a record on a
// display of 20 x 4 and a sheet of zeros, and prints each key with its answer; or the refusal.
#![tactic(auto)]

mod tell;

use cmf::image::Image;
use console::display::{COLUMNS, LINES};
use console::file::{IMAGE_ROOM, read_named};
use console::words::Refused;
use playback::play::play;
use record::reading::check_record;
use record::recording::MAX_EVENTS;
use std::io;

// A number has three bytes at most, and the form and the number of events come before the events; one byte
// more, so that a longer file is refused.
const RECORD_ROOM: usize = 3 * (MAX_EVENTS + 2) + 1;

const USAGE: &str = "usage: transcript IMAGE RECORD\n";

// The events of a record that was not refused: the bytes from the first of them on.
fn events_of(recorded: &[u8]) -> &[u8] {
    match check_record(recorded) {
        Ok(events) => recorded.get(events.start..).unwrap_or(&[]),
        Err(_) => &[],
    }
}

// Plays a record on an image, and tells what was pressed.
fn transcribe(out: &impl Print, image: &[u8], recorded: &[u8]) -> io::Result<()> {
    let mut sheet = [0u8; Image::MAX_SHEET];
    let mut answers = [0u32; MAX_EVENTS];
    let replayed = play(image, &mut sheet, COLUMNS, LINES, recorded, &mut answers);
    if replayed.refusal != 0 {
        return println!(out; "{}", Refused(replayed.refusal));
    }
    tell::tell(out, events_of(recorded), &answers)
}

fn main(rt: HostRuntime) -> io::Result<()> {
    let Some(image) = read_named(&rt, 1, IMAGE_ROOM, USAGE)? else {
        return Ok(());
    };
    let Some(recorded) = read_named(&rt, 2, RECORD_ROOM, USAGE)? else {
        return Ok(());
    };
    transcribe(&rt, &image, &recorded)
}
