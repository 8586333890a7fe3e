// A byte of a one-byte field, as the display shows it.
use crate::trim::trimmed;
use cmf::component::read_component;
use console::words::Plain;
use field::kind::SheetPlace;
use field::record::Field;
use field::work::in_range;
use std::fmt;
use texts::text::put_field;

// The most cells that a field of one byte takes: an option item's length is a byte.
const CELLS: usize = 255;

// The same field in a sheet of which its byte is the first.
fn first_in_sheet(f: Field) -> Field {
    Field {
        sheet: SheetPlace(0),
        ..f
    }
}

// A byte of the field at an image place; its number where the field cannot show it, or nothing is to be seen
// of its text.
#[derive(Clone, Copy)]
pub struct Shown<'a> {
    pub image: &'a [u8],
    pub place: usize,
    pub byte: u8,
}

impl fmt::Display for Shown<'_> {
    fn fmt<W: fmt::Write>(&self, f: &mut fmt::Formatter<W>) -> fmt::Result {
        let Shown { image, place, byte } = *self;
        let field = read_component(image, place).field;
        if in_range(field.kind, byte as u32) {
            let mut row = [b' '; CELLS];
            put_field(&mut row, 0, image, &[byte], place, first_in_sheet(field));
            let text = trimmed(&row);
            if !text.is_empty() {
                return write!(f, "{}", Plain(text));
            }
        }
        write!(f, "{byte}")
    }
}
