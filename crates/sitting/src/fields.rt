// The fields of an image with their bytes, and of a refused image how far the walk came.
use acceptance::index::{Entry, entry_at};
use cmf::refusal::Refusal;
use console::words::Plain;
use field::kind::ImagePlace;
use handset::option::option_text;
use laws::byte_at;
use std::{fmt, io};
use walk::check::check;

// Bytes in hexadecimal digits, with a blank before each.
#[derive(Clone, Copy)]
struct Spaced<'a>(&'a [u8]);

impl fmt::Display for Spaced<'_> {
    fn fmt<W: fmt::Write>(&self, f: &mut fmt::Formatter<W>) -> fmt::Result {
        for byte in self.0 {
            write!(f, " {:02x}", *byte)?;
        }
        Ok(())
    }
}

// The text of the item that an option's byte chooses; none for other fields.
fn item_text<'a>(
    image: &'a [u8],
    sheet: &[u8],
    place: ImagePlace,
    item: usize,
) -> Option<&'a [u8]> {
    option_text(image, sheet, place, item).ok()
}

fn print_field(out: &impl Print, image: &[u8], sheet: &[u8], e: Entry) -> io::Result<()> {
    let place = e.place.0;
    if e.size == 0 {
        return println!(out; "image place {place}: a trigger, no bytes");
    }
    let from = e.from.0;
    let bytes = sheet
        .get(from..)
        .and_then(|rest| rest.get(..e.size))
        .unwrap_or(&[]);
    print!(out; "image place {place}, sheet place {from}:{}", Spaced(bytes))?;
    match item_text(image, sheet, e.place, byte_at(sheet, from) as usize) {
        Some(text) => println!(out; " {}", Plain(text)),
        None => println!(out),
    }
}

// Each field in the order of the walk: where it is in the image, where its bytes lie in the sheet, and the
// bytes.
pub fn print_fields(out: &impl Print, image: &[u8], sheet: &[u8]) -> io::Result<()> {
    let c = check(image, sheet.len());
    for i in 0..c.progress.fields {
        print_field(out, image, sheet, entry_at(&c.index, i))?;
    }
    Ok(())
}

// What the check knows of a fault that the walk found: how many line heads and fields are without fault, and
// where the last thing before the fault ended.
pub fn print_reach(out: &impl Print, image: &[u8], extent: usize, refusal: u8) -> io::Result<()> {
    // The lower ones come from the prolog.
    if refusal < Refusal::Cut.number() {
        return Ok(());
    }
    let c = check(image, extent);
    let lines = c.progress.lines;
    let fields = c.progress.fields;
    print!(out; "good before the fault: line heads {lines}, fields {fields}")?;
    if 0 < fields {
        let last = entry_at(&c.index, fields - 1).place.0;
        print!(out; ", the last field at image place {last}")?;
    }
    println!(out)?;
    match c.progress.at {
        0 => println!(out; "the title of the top table is at fault"),
        at => println!(out; "the last good thing ends at image place {at}: the fault comes next"),
    }
}
