// What a field's byte counts as.
ghost use Rattle.std.specs.Prelude.{◌≡◌};
ghost use Rattle.marker.specs.Marking.{verdict_of};

#[derive(Clone, Copy)]
pub enum Verdict {
    Right,
    Wrong,
    Blank,
}

impl Verdict {
    // Of a byte of the sheet, by its field's default and the right byte.
    pub fn of(default: u16, right: u16, byte: u8) -> Self
        ensures { result ≡ verdict_of default right byte }
    {
        let byte = byte as u16;
        if byte == default {
            Verdict::Blank
        } else if byte == right {
            Verdict::Right
        } else {
            Verdict::Wrong
        }
    }
}
