// The kinds of field with the settings that section 7 gives them, and places.
ghost use Rattle.std.specs.Prelude.{◌≡◌};
ghost use Rattle.field.specs.Formats.{format_of};

// A place in the image, counted from 0.
#[derive(Clone, Copy)]
pub struct ImagePlace(pub usize);

// A place in the sheet, counted from 0. The sheet is the paper's term for the bytes that hold a candidate's
// answers.
#[derive(Clone, Copy)]
pub struct SheetPlace(pub usize);

// An integer's cells: two bytes or one, with a sign or without, to the base 16 or 10, and how many digits.
#[derive(Clone, Copy)]
pub struct Format {
    pub wide: bool,
    pub signed: bool,
    pub hex: bool,
    pub digits: u8,
}

// A counter: min and max with 32,768 added, the step as it is stored (32,768 and above are negative), and the
// width in display cells.
#[derive(Clone, Copy)]
pub struct CounterSettings {
    pub min: u16,
    pub max: u16,
    pub step: u16,
    pub width: u8,
}

// The flag of a time or date: with seconds, or with four digits for the year. A switch has a count of bits,
// an option its count of items and the length of the longest.
#[derive(Clone, Copy)]
pub enum Kind {
    Integer(Format),
    Counter(CounterSettings),
    Time(bool),
    Date(bool),
    Switch(u8),
    Option { items: u8, longest: u8 },
    Trigger,
}

impl Kind {
    // The bits that a switch's four bytes hold.
    pub const MAX_BITS: u8 = 32;

    // The last of each part of a time or date; parts count from 0, but day and month from 1.
    pub const MAX_HOUR: u8 = 23;

    pub const MAX_MINUTE: u8 = 59;

    pub const MAX_SECOND: u8 = 59;

    pub const MAX_DAY: u8 = 31;

    pub const MAX_MONTH: u8 = 12;

    pub const MAX_YEAR: u16 = 9999;

    pub const MAX_SHORT_YEAR: u8 = 99;

    // The part of a date that is its day.
    pub const DAY_PART: u8 = 2;
}

impl Format {
    // The format of an integer's code.
    pub fn of_code(code: u8) -> Self
        ensures { result ≡ format_of code }
    {
        match code {
            0 => Format::new(false, false, false, 2),
            1 => Format::new(false, false, false, 3),
            2 => Format::new(false, false, true, 2),
            3 => Format::new(false, true, false, 2),
            4 => Format::new(false, true, false, 3),
            5 => Format::new(true, false, false, 3),
            6 => Format::new(true, false, false, 4),
            7 => Format::new(true, false, false, 5),
            8 => Format::new(true, false, true, 4),
            9 => Format::new(true, true, false, 3),
            _ => Format::new(true, true, false, 4),
        }
    }

    fn new(wide: bool, signed: bool, hex: bool, digits: u8) -> Self
        ensures { result ≡ record { wide = wide; signed = signed; hex = hex; digits = digits } }
    {
        Format {
            wide,
            signed,
            hex,
            digits,
        }
    }
}
