// What is printed of a marked sheet: a line for each question, and one with the sums.
use crate::byte::Shown;
use crate::path::Path;
use cmf::component::read_component;
use console::words::Count;
use field::kind::{ImagePlace, SheetPlace};
use handset::fields::list_fields;
use laws::{byte_at, has_triple};
use marker::key::{Question, is_byte_at, question_at};
use marker::mark::Sums;
use marker::verdict::Verdict;
use std::io;

// The image place of the one-byte field at a place of the sheet, among the image places of fields.
fn field_among(image: &[u8], places: &[usize], place: SheetPlace) -> Option<ImagePlace> {
    for at in places {
        if is_byte_at(read_component(image, *at).field, place) {
            return Some(ImagePlace(*at));
        }
    }
    None
}

fn word_of(verdict: Verdict) -> &'static str {
    match verdict {
        Verdict::Right => "right",
        Verdict::Wrong => "wrong",
        Verdict::Blank => "blank",
    }
}

// A question with its number, counted from 1.
fn say_numbered(
    rt: &(impl Print + AllocGlobal),
    image: &[u8],
    sheet: &[u8],
    places: &[usize],
    number: usize,
    q: Question,
) -> io::Result<()> {
    let place = q.place;
    if let Some(at) = field_among(image, places, place) {
        let byte = byte_at(sheet, place.0);
        let place = at.0;
        let path = Path::find(rt.alloc(), image, place)?;
        let given = Shown { image, place, byte };
        // A right byte that the marker took is below 256.
        let right = Shown {
            image,
            place,
            byte: (q.right % 256) as u8,
        };
        let default = read_component(image, place).field.default;
        let word = word_of(Verdict::of(default.byte(0) as u16, q.right, byte));
        let points = Count(q.points as usize, "point");
        println!(rt; "{number} {path}: {given}, right is {right}: {word}, {points}")?;
    }
    Ok(())
}

// The questions of a key that was accepted.
pub fn say_questions(
    rt: &(impl Print + AllocGlobal),
    image: &[u8],
    sheet: &[u8],
    key: &[u16],
) -> io::Result<()> {
    let Ok(fields) = list_fields(image, sheet.len()) else {
        return Ok(());
    };
    let places = fields.places.get(..fields.count).unwrap_or(&[]);
    for i in 0..key.len() {
        if !has_triple(key.len(), i) {
            break;
        }
        say_numbered(rt, image, sheet, places, i + 1, question_at(key, i))?;
    }
    Ok(())
}

// The sums that the marker answered.
pub fn say_sums(out: &impl Print, sums: Sums) -> io::Result<()> {
    let Sums {
        right,
        wrong,
        blank,
    } = sums;
    let points = right as usize + wrong as usize + blank as usize;
    println!(out;
        "right {right}, wrong {wrong}, blank {blank}, of {}",
        Count(points, "point")
    )
}
