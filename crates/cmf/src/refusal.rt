// Why a call is refused.
ghost use Rattle.std.specs.Prelude.{◌≡◌, Option};
ghost use Rattle.cmf.specs.Refusals.{number, refusal_number};

// What is at fault, by the number that the paper gives it; of several faults the lowest counts.
#[derive(Clone, Copy, PartialEq, Eq)]
pub enum Refusal {
    // The display, or the picture, has a size that is not allowed.
    Shape = 1,
    // The image is too short or too long.
    Length = 2,
    Name = 3,
    Version = 4,
    // The mark of the byte order.
    Order = 5,
    // The image ends inside a structure.
    Cut = 6,
    // A byte that the format does not allow there, or a component that is left for later.
    Form = 7,
    // Too many levels, lines or fields.
    Limit = 8,
    // A field's setting or default, or a password.
    Setting = 9,
    // The sheet is too long, or a field reaches past its end.
    Sheet = 10,
    // Two fields share a byte of the sheet.
    Overlap = 11,
    // The session does not fit the image.
    Session = 12,
    Event = 13,
    // No option field is there, or it has no such item.
    Item = 14,
    // A key that does not fit the image's fields.
    Key = 15,
    // Bytes that are no record, or more events than a record can state.
    Record = 16,
    // A record of another form.
    OtherForm = 17,
    // Lent room that is too short.
    Room = 25,
}

impl Refusal {
    pub fn number(self) -> u8
        ensures { result ≡ number self }
    {
        self as u8
    }
}

// The number of a refusal, 0 for none.
pub fn refusal_number(refusal: Option<Refusal>) -> u8
    ensures { result ≡ refusal_number refusal }
{
    refusal.map_or(0, Refusal::number)
}
