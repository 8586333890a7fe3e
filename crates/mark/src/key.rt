// A key as the bytes of a file: two-byte numbers, low byte first.
ghost use Rattle.std.specs.Prelude.{◌≡◌};
ghost use Rattle.cmf.specs.Refusals.{number};
ghost use Rattle.acceptance.specs.Check.{refusal_of};
ghost use Rattle.handset.specs.Refusals.{◌before◌};

use crate::report::{say_questions, say_sums};
use cmf::image::Image;
use cmf::refusal::Refusal;
use console::words::Refused;
use handset::refusal::check_image;
use laws::word_at;
use marker::mark::mark;
use std::alloc::{AllocError, Global};
use std::io;

// One question more than an image can have fields. A longer key does not fit, and neither does its start:
// one of its questions has no field of its own.
const MOST: usize = 3 * (Image::MAX_FIELDS + 1);

// The bytes of a key that are read.
pub const ROOM: usize = 2 * MOST;

// The numbers of a key.
fn numbers_of(alloc: Global, bytes: &[u8]) -> Result<Vec<u16>, AllocError> {
    bytes
        .chunks_exact(2)
        .map(|pair| word_at(pair, 0))
        .collect(alloc)
}

// The refusal of a key that ends inside a number: it does not fit; those of image and sheet come first.
#[tactic(auto, using(handset::proofs::Ordering::stops_at, handset::proofs::Ordering::goes_on))]
fn odd_refusal(image: &[u8], extent: usize) -> Refusal
    ensures { number result ≡ refusal_of image.now extent before 15 }
{
    match check_image(image, extent) {
        Ok(()) => Refusal::Key,
        Err(refusal) => refusal,
    }
}

// Marks a sheet by the bytes of a key, and prints what comes of it.
pub fn mark_by(
    rt: &(impl Print + AllocGlobal),
    image: &[u8],
    sheet: &[u8],
    bytes: &[u8],
) -> io::Result<()> {
    if bytes.len() % 2 != 0 {
        return println!(rt; "{}", Refused::from(odd_refusal(image, sheet.len())));
    }
    let key = numbers_of(rt.alloc(), bytes)?;
    match mark(image, sheet, &key) {
        Ok(sums) => {
            say_questions(rt, image, sheet, &key)?;
            say_sums(rt, sums)
        }
        Err(refusal) => println!(rt; "{}", Refused::from(refusal)),
    }
}
