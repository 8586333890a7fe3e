// A record played back, for other programs to read: `replay IMAGE RECORD` prints the last picture and the
// sheet as raw bytes, or the refusal number in digits, and nothing else. What cannot be read counts as empty.
#![tactic(auto)]

mod playing;

use cmf::image::Image;
use console::display::CELLS;
use console::file::{IMAGE_ROOM, read_named_quietly};
use std::io;

// One byte more than a record may have, so that a longer file is told from it.
const RECORD_ROOM: usize = playing::MAX_RECORD + 1;

// Plays a record on an image, with a sheet of zeros, and prints what comes of it.
fn replay(out: &impl Print, image: &[u8], recorded: &[u8]) -> io::Result<()> {
    let mut sheet = [0u8; Image::MAX_SHEET];
    let mut picture = [0u8; CELLS];
    let refusal = playing::replay(image, recorded, &mut sheet, &mut picture);
    if refusal != 0 {
        return print!(out; "{refusal}");
    }
    out.write_all(&picture)?;
    out.write_all(&sheet)
}

fn main(rt: HostRuntime) -> io::Result<()> {
    let image = read_named_quietly(&rt, 1, IMAGE_ROOM);
    let recorded = read_named_quietly(&rt, 2, RECORD_ROOM);
    replay(&rt, &image, playing::taken(&recorded))
}
