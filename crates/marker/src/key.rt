// A key, as a list of numbers: three make a question.
ghost use Rattle.std.specs.Prelude.{◌≡◌};
ghost use Rattle.marker.specs.Key.{question_at};
ghost use Rattle.marker.specs.Marking.{is_byte_at};

use field::kind::SheetPlace;
use field::profile::profile_of;
use field::record::Field;
use laws::has_triple;

// A question: the place of its byte in the sheet, the right byte, and its points.
#[derive(Clone, Copy)]
pub struct Question {
    pub place: SheetPlace,
    pub right: u16,
    pub points: u16,
}

impl Question {
    // The largest byte, and the most points.
    pub const MAX_BYTE: u16 = 255;

    pub const MAX_POINTS: u16 = 255;
}

// Whether a question at a place would be about a field: it has one byte, and has it there.
pub fn is_byte_at(f: Field, place: SheetPlace) -> bool
    ensures { result ≡ is_byte_at place.0 f }
{
    f.sheet.0 == place.0 && profile_of(f.kind).bytes == 1
}

// The ith question of a key, counted from 0; zeros past the last.
pub fn question_at(key: &[u16], i: usize) -> Question
    ensures { result ≡ question_at key.now i }
{
    if has_triple(key.len(), i) {
        let at = 3 * i;
        return Question {
            place: SheetPlace(key[at] as usize),
            right: key[at + 1],
            points: key[at + 2],
        };
    }
    Question {
        place: SheetPlace(0),
        right: 0,
        points: 0,
    }
}
