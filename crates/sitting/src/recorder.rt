// The record of a sitting, in the file that the third argument names.
use console::file::{is_given, write_named};
use console::words::Refused;
use record::recording::{MAX_EVENTS, record};
use std::env::Env;
use std::fs::Files;
use std::io;

// The third argument.
const RECORD: usize = 3;

// The bytes of the largest record: one for the form, three for the number of events, and one for each event.
const ROOM: usize = 4 + MAX_EVENTS;

// Writes a record of events, if there is a file for it.
pub fn record_events(
    rt: &(impl Files + Env + Print + Eprint + AllocGlobal),
    events: &[u8],
    usage: &str,
) -> io::Result<()> {
    if !is_given(rt, RECORD) {
        return Ok(());
    }
    let mut room = vec![in rt.alloc(); 0u8; ROOM]?;
    match record(events, &mut room) {
        Ok(length) => {
            room.truncate(length);
            write_named(rt, RECORD, &room, usage)
        }
        Err(refusal) => println!(rt; "{}", Refused::from(refusal)),
    }
}
