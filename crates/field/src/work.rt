// The working copy of a visit: from a field's bytes to cells and back, for every kind.
ghost use Rattle.std.specs.Prelude.{◌≡◌, [], ◌∷◌, ◌*◌, ◌/◌, ◌%◌, ◌<◌, get_or};
ghost use Rattle.laws.specs.Choice.{when◌then◌else◌, ◌and◌};
ghost use Rattle.field.specs.Calendar.{month_end, full_year};
ghost use Rattle.field.specs.Profiles.{time_cell, year_cell, month_cell, day_cell, held_to};
ghost use Rattle.field.specs.Cells.{biased, cells_of, stored_in, stores, within, legal, in_range, work_of};
ghost use Rattle.field.specs.Cells.{started, finished};

use crate::calendar::month_end;
use crate::kind::Kind;
use crate::numeral::Numeral;
use crate::profile::{Cell, held_to, profile_of};
use crate::value::Value;

// The cells of a visit (a visit is the paper's term for one editing of a field), and the chosen cell.
#[derive(Clone, Copy)]
pub struct Work {
    pub cells: [u32; Work::CELLS],
    pub at: u8,
}

fn bias(x: u64) -> u64
    requires { x < 4294967296 }
    ensures { (result ≡ biased x) × (result < 65536) }
{
    (x + 32768) % 65536
}

// The seconds of a time, where it has them.
fn third(long: bool, x: u32) -> u32
    ensures { result ≡ when long then x / 65536 % 256 else 0 }
{
    if long { x / 65536 % 256 } else { 0 }
}

fn three(a: u32, b: u32, c: u32) -> Work
    ensures { result ≡ work_of (a ∷ b ∷ c ∷ []) }
{
    let mut cells = [0; Work::CELLS];
    cells[0] = a;
    cells[1] = b;
    cells[2] = c;
    Work { cells, at: 0 }
}

impl Work {
    // As many as a switch can have.
    pub const CELLS: usize = 32;

    // The cells that show a number, the first one chosen.
    pub fn showing(kind: Kind, x: u32) -> Self
        ensures { result ≡ work_of (cells_of kind x) }
    {
        match kind {
            Kind::Integer(f) => f.numeral().in_digits(x as u64),
            Kind::Counter(_) => three(bias(x as u64) as u32, 0, 0),
            Kind::Time(long) => three(x % 256, x / 256 % 256, third(long, x)),
            Kind::Date(_) => three(x / 65536, x / 256 % 256, x % 256),
            Kind::Switch(n) => Numeral::of_bits(n).in_digits(x as u64),
            Kind::Option { .. } => three(x, 0, 0),
            Kind::Trigger => three(0, 0, 0),
        }
    }

    // A cell, 0 past the last.
    pub fn cell(self, i: usize) -> u64
        ensures { (result ≡ get_or self.cells i 0) × (result < 4294967296) }
    {
        self.cells.get(i).copied().unwrap_or(0) as u64
    }

    // The third byte of a time, where it has seconds.
    fn seconds(self, long: bool) -> u64
        ensures { (result ≡ when long then 65536 * get_or self.cells 2 0 else 0)
            × (result < 281474976710656) }
    {
        if long { 65536 * self.cell(2) } else { 0 }
    }

    // The number that the cells stand for.
    fn stored(self, kind: Kind) -> u64
        ensures { result ≡ stored_in kind self.cells }
    {
        match kind {
            Kind::Integer(f) => f.numeral().of_digits(self),
            Kind::Counter(_) => bias(self.cell(0)),
            Kind::Time(long) => self.cell(0) + 256 * self.cell(1) + self.seconds(long),
            Kind::Date(_) => self.cell(2) + 256 * self.cell(1) + 65536 * self.cell(0),
            Kind::Switch(n) => Numeral::of_bits(n).of_digits(self),
            Kind::Option { .. } => self.cell(0),
            Kind::Trigger => 0,
        }
    }

    // Whether the last ENTER can store what the cells show.
    pub fn stores(self, kind: Kind) -> bool
        ensures { result ≡ stores kind self.cells }
    {
        match kind {
            Kind::Integer(f) => f.numeral().storable(self),
            _ => true,
        }
    }

    // Whether a cell is within the ends of the row that it is held to.
    fn is_held(self, kind: Kind, i: usize) -> bool
        ensures { result ≡ within (held_to kind self i) (get_or self.cells i 0) }
    {
        let c = held_to(kind, self, i);
        let x = self.cell(i);
        c.low as u64 <= x && x <= c.high as u64
    }

    // Whether each cell is.
    pub fn legal(self, kind: Kind) -> bool
        ensures { result ≡ legal kind self }
    {
        (0..profile_of(kind).cells as usize).all(|i| self.is_held(kind, i))
    }

    // Where a visit starts: the value's cells, or the default's where the value is out of range.
    pub fn start(kind: Kind, value: Value, default: Value) -> Self
        ensures { result ≡ started kind value default }
    {
        let x = value.number();
        if in_range(kind, x) {
            Self::showing(kind, x)
        } else {
            Self::showing(kind, default.number())
        }
    }

    // The value that the cells stand for: what the last ENTER stores.
    pub fn finish(self, kind: Kind) -> Value
        ensures { result ≡ finished kind self }
    {
        Value::from_number(profile_of(kind).bytes, self.stored(kind))
    }
}

// Whether a number is within the ends of a cell.
fn is_within(c: Cell, x: u32) -> bool
    ensures { result ≡ within c x }
{
    c.low <= x && x <= c.high
}

// Whether the parts of a time are within their ends; seconds that it has not are 0.
fn is_time(hour: u32, minute: u32, second: u32) -> bool
    ensures { result
        ≡ (within (time_cell 0) hour and within (time_cell 1) minute) and within (time_cell 2) second }
{
    is_within(Cell::time(0), hour)
        && is_within(Cell::time(1), minute)
        && is_within(Cell::time(2), second)
}

// Whether a date is real.
fn is_date(long: bool, year: u32, month: u32, day: u32) -> bool
    ensures { result ≡ (within (year_cell long) year and within month_cell month)
        and within (day_cell (month_end (full_year long year) month)) day }
{
    is_within(Cell::year(long), year)
        && is_within(Cell::month(), month)
        && is_within(Cell::day(month_end(year, month)), day)
}

// Whether a number that the field's bytes can hold is in its range. No cells are made for it: the digits of
// an integer or switch are legal by themselves, and the parts of a time or date are its bytes.
pub fn in_range(kind: Kind, x: u32) -> bool
    ensures { result ≡ in_range kind x }
{
    match kind {
        Kind::Integer(f) => f.numeral().spans(x as u64),
        Kind::Counter(s) => is_within(Cell::counter(s), bias(x as u64) as u32),
        Kind::Time(long) => is_time(x % 256, x / 256 % 256, third(long, x)),
        Kind::Date(long) => is_date(long, x / 65536, x / 256 % 256, x % 256),
        Kind::Switch(n) => Numeral::of_bits(n).spans(x as u64),
        Kind::Option { items, .. } => is_within(Cell::option(items), x),
        Kind::Trigger => true,
    }
}
