// Events with their answers, one a line, and how many they were.
ghost use Rattle.std.specs.Prelude.{◌≤◌, length};

use console::events::{Answered, Key};
use console::words::Count;
use session::session::Session;
use std::io;

// How many of some events are seconds.
fn seconds_in(events: &[u8]) -> usize
    ensures { result ≤ length events.now }
{
    events
        .iter()
        .filter(|event| **event == Session::SECOND)
        .count()
}

// All that was pressed: each event with its answer, as long as both are there, and how many keys and seconds
// there were.
pub fn tell(out: &impl Print, events: &[u8], answers: &[u32]) -> io::Result<()> {
    for (event, answer) in events.iter().zip(answers) {
        println!(out; "{}: {}", Key(*event), Answered(*answer))?;
    }
    let seconds = seconds_in(events);
    let keys = events.len() - seconds;
    println!(out; "{}, {}", Count(keys, "key"), Count(seconds, "second"))
}
