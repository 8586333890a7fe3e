// A whole sitting in one command: `sitting IMAGE [KEYS [RECORD]]` opens an exam paper on a display of 20 x 4
// and a sheet of zeros, plays the keys of a file or of standard input, and prints pictures, answers and at
// the end the bytes of each field. A record of the events is written to a third file.
#![tactic(auto)]

mod fields;
mod letters;
mod recorder;
mod show;

use cmf::image::Image;
use console::display::{COLUMNS, LINES};
use console::file::{IMAGE_ROOM, Source, is_given, open_named, read_named};
use console::words::Refused;
use handset::open::open;
use letters::Sitting;
use std::env::Env;
use std::fs::Files;
use std::io;
use std::io::Read;

const USAGE: &str = "usage: sitting IMAGE [KEYS [RECORD]]\n";

// Plays keys on an image, and prints what comes of it.
fn sit(
    rt: &(impl Files + Env + Print + Eprint + AllocGlobal),
    image: &[u8],
    keys: &mut impl Read,
) -> io::Result<()> {
    let mut sheet = vec![in rt.alloc(); 0u8; Image::MAX_SHEET]?;
    let opened = open(image, &mut sheet, COLUMNS, LINES);
    if opened.refusal != 0 {
        println!(rt; "{}", Refused(opened.refusal))?;
        return fields::print_reach(rt, image, sheet.len(), opened.refusal);
    }
    let mut sitting = Sitting {
        image,
        sheet,
        session: opened.session,
        events: Vec::new(rt.alloc()),
    };
    sitting.show(rt)?;
    sitting.play_all(rt, keys)?;
    fields::print_fields(rt, image, &sitting.sheet)?;
    recorder::record_events(rt, &sitting.events, USAGE)
}

// The keys come from the file that the second argument names, or from standard input without one or for `-`.
fn keys_from<R: Files + Env + Input + Eprint + AllocGlobal>(
    rt: &R,
) -> io::Result<Option<Source<R::Reader, R::File>>> {
    if !is_given(rt, 2) {
        return Ok(Some(Source::Standard(rt.reader())));
    }
    open_named(rt, 2, USAGE)
}

fn main(rt: HostRuntime) -> io::Result<()> {
    let Some(image) = read_named(&rt, 1, IMAGE_ROOM, USAGE)? else {
        return Ok(());
    };
    let Some(mut keys) = keys_from(&rt)? else {
        return Ok(());
    };
    sit(&rt, &image, &mut keys)
}
