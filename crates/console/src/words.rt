// Words for a terminal: counts, bytes of an image, and what the refusal numbers mean.
use cmf::refusal::Refusal;
use std::fmt;

// So many of something, which a noun names.
#[derive(Clone, Copy)]
pub struct Count<'a>(pub usize, pub &'a str);

impl fmt::Display for Count<'_> {
    fn fmt<W: fmt::Write>(&self, f: &mut fmt::Formatter<W>) -> fmt::Result {
        let Count(number, noun) = *self;
        let ending = if number == 1 { "" } else { "s" };
        write!(f, "{number} {noun}{ending}")
    }
}

// A byte that a terminal shows; '?' for any other.
fn shown(byte: u8) -> u8 {
    match byte {
        b' '..=b'~' => byte,
        _ => b'?',
    }
}

// Bytes of an image, as a terminal can show them.
#[derive(Clone, Copy)]
pub struct Plain<'a>(pub &'a [u8]);

impl fmt::Display for Plain<'_> {
    fn fmt<W: fmt::Write>(&self, f: &mut fmt::Formatter<W>) -> fmt::Result {
        for byte in self.0 {
            f.write_char(char::from(shown(*byte)))?;
        }
        Ok(())
    }
}

// What a refusal number means.
fn meaning(number: u8) -> &'static str {
    match number {
        1 => "the display or the picture has a size that is not allowed",
        2 => "the image is under 10 or over 32,768 bytes long",
        3 => "the image does not begin with CMF",
        4 => "the image is not of version 0.4",
        5 => "its numbers are not stored low byte first",
        6 => "the image ends inside a structure",
        7 => "a byte that the format does not allow there, or a component not supported yet",
        8 => "too many levels, lines or fields",
        9 => "a field's setting or default is out of range, or a password is not 1 to 8 digits",
        10 => "the sheet is too long, or a field reaches past its end",
        11 => "two fields share a byte of the sheet",
        12 => "the session does not belong to this image",
        13 => "there is no such event",
        14 => "no option field is there, or it has no such item",
        15 => "the key ends inside a question, or has one that does not fit the image's fields",
        16 => "this is no record, or it has more than 65,535 events",
        17 => "the record is of another form",
        25 => "there is too little room",
        _ => "no meaning",
    }
}

// A refusal by its number, with its meaning; of some calls there is no more than the number.
#[derive(Clone, Copy)]
pub struct Refused(pub u8);

impl From<Refusal> for Refused {
    fn from(refusal: Refusal) -> Self {
        Refused(refusal.number())
    }
}

impl fmt::Display for Refused {
    fn fmt<W: fmt::Write>(&self, f: &mut fmt::Formatter<W>) -> fmt::Result {
        let number = self.0;
        write!(f, "refused {number}: {}", meaning(number))
    }
}
