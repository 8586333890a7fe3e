// The call: marks a sheet by a key, in one pass over its questions.
ghost use Rattle.std.specs.Prelude.{◌≡◌, ◌-◌, ◌*◌, ◌≤◌, ◌<◌, length};
ghost use Rattle.laws.specs.Bytes.{byte_at};
ghost use Rattle.cmf.specs.Limits.{most_fields};
ghost use Rattle.cmf.specs.Refusals.{refusal_in};
ghost use Rattle.handset.specs.Refusals.{◌unless◌};
ghost use Rattle.marker.specs.Marking as answers;
ghost use Rattle.marker.specs.Marking.{most_points, verdict_of, mark_refusal, as_marked, marked};
ghost use Rattle.marker.specs.Table.{open_in, fits_by, no_points, sum_in, counted, marked_all};

use crate::key::Question;
use crate::table::{enter_all, take_out};
use crate::verdict::Verdict;
use cmf::image::Image;
use cmf::refusal::Refusal;
use field::kind::SheetPlace;
use handset::fields::list_fields;
use laws::byte_at;

// The points right, wrong and blank.
#[derive(Clone, Copy)]
pub struct Sums {
    pub right: u32,
    pub wrong: u32,
    pub blank: u32,
}

impl Sums {
    fn none() -> Self
        ensures { result ≡ no_points }
    {
        Self {
            right: 0,
            wrong: 0,
            blank: 0,
        }
    }

    // With the points of a question more, which count for its verdict.
    fn with(self, verdict: Verdict, points: u16) -> Self
        requires { sum_in self ≤ most_fields * most_points }
        ensures { result ≡ counted verdict points self }
    {
        let points = points as u32;
        match verdict {
            Verdict::Right => Self {
                right: self.right + points,
                ..self
            },
            Verdict::Wrong => Self {
                wrong: self.wrong + points,
                ..self
            },
            Verdict::Blank => Self {
                blank: self.blank + points,
                ..self
            },
        }
    }
}

// A question, by the number of its place in the table: a one-byte field is there that no question was about
// before, right byte and points are bytes, and the right byte is not the default.
fn check_question(q: Question, number: u16) -> Result<(), Refusal>
    ensures { refusal_in result ≡ (15 unless fits_by number q) }
{
    if number == 0
        || q.right > Question::MAX_BYTE
        || q.right + 1 == number
        || q.points > Question::MAX_POINTS
    {
        return Err(Refusal::Key);
    }
    Ok(())
}

// The verdict on a question that fits, by that number.
fn judge(q: Question, number: u16, sheet: &[u8]) -> Verdict
    requires { 0 < number }
    ensures { result ≡ verdict_of (number - 1) q.right (byte_at sheet.now q.place.0) }
{
    Verdict::of(number - 1, q.right, byte_at(sheet, q.place.0))
}

// Marks question after question, up to the first that does not fit. A key with numbers left over after its
// last question does not fit.
fn mark_all(table: &mut [u16], sheet: &[u8], key: &[u16]) -> Result<Sums, Refusal>
    requires { open_in table.old ≤ most_fields }
    ensures { as_marked result ≡ marked_all table.old sheet.now key.now }
{
    let mut sums = Sums::none();
    let mut rest = key;
    while let [place, right, points, after @ ..] = rest {
        let q = Question {
            place: SheetPlace(*place as usize),
            right: *right,
            points: *points,
        };
        let number = take_out(table, q.place);
        check_question(q, number)?;
        sums = sums.with(judge(q, number, sheet), q.points);
        rest = after;
    }
    if !rest.is_empty() {
        return Err(Refusal::Key);
    }
    Ok(sums)
}

// The refusal of image and sheet, then that of the key, or the sums.
pub fn mark(image: &[u8], sheet: &[u8], key: &[u16]) -> Result<Sums, Refusal>
    ensures value { as_marked result ≡ marked image.now sheet.now key.now }
    ensures result_value { answers.refusal_in (as_marked result)
        ≡ mark_refusal image.now (length sheet.now) key.now }
    ensures refusal_value { refusal_in result
        ≡ mark_refusal image.now (length sheet.now) key.now }
{
    let fields = list_fields(image, sheet.len())?;
    let (places, _) = fields.places.split_at(fields.count);
    let mut table = [0u16; Image::MAX_SHEET];
    enter_all(image, places, &mut table);
    mark_all(&mut table, sheet, key)
}
