// Numbers in digits: how a number is made up of cells, for every integer format and for switches.
ghost use Rattle.std.specs.Prelude.{◌≡◌, ◌+◌, ◌^◌, ◌≤◌, ◌<◌, length};
ghost use Rattle.laws.specs.Choice.{when◌then◌else◌};
ghost use Rattle.laws.specs.Digits.{digits_of};
ghost use Rattle.laws.specs.Overwrite.{over};
ghost use Rattle.field.specs.Formats.{format_of, signs_of, digits_in, base_of, limit_of, half_of, top_of};
ghost use Rattle.field.specs.Formats.{numeral_of, bits_in, bits_of};
ghost use Rattle.field.specs.Cells.{spans, distance, sign_of, in_digits, shown_by, minus, storable};
ghost use Rattle.field.specs.Cells.{of_digits, work_of};
ghost use Rattle.field.specs.Sound.{Sound, Based};

use crate::kind::{Format, Kind};
use crate::work::Work;
use laws::digits::{first_digit, lowest_digits, power_of_ten};

// Sign cells, digit cells, base; the range, from `below` below 0 to `above` above it; how many numbers its
// bytes can hold.
#[derive(Clone, Copy)]
pub struct Numeral {
    pub signs: u8,
    pub digits: u8,
    pub base: u64,
    pub above: u64,
    pub below: u64,
    pub limit: u64,
}

impl Format {
    pub(crate) fn signs(self) -> u8
        ensures { result ≡ signs_of self }
    {
        u8::from(self.signed)
    }

    pub(crate) fn digits_in(self) -> u8
        ensures { result ≡ digits_in self }
    {
        self.digits.min(5)
    }

    pub(crate) fn base(self) -> u64
        ensures { result ≡ base_of self }
    {
        if self.hex { 16 } else { 10 }
    }

    pub(crate) fn bytes(self) -> u8
        ensures { result ≡ when self.wide then 2 else 1 }
    {
        if self.wide { 2 } else { 1 }
    }

    fn limit(self) -> u64
        ensures { result ≡ limit_of self }
    {
        if self.wide { 65536 } else { 256 }
    }

    fn half(self) -> u64
        ensures { result ≡ half_of self }
    {
        if self.signed {
            self.limit() / 2
        } else {
            self.limit()
        }
    }

    fn top(self) -> u64
        ensures { result ≡ top_of self }
    {
        let digits = self.digits_in();
        if self.hex {
            (1 << (4 * digits)) - 1
        } else {
            power_of_ten(digits) as u64 - 1
        }
    }

    pub fn numeral(self) -> Numeral
        ensures { result ≡ numeral_of self }
    {
        let half = self.half();
        let limit = self.limit();
        let top = self.top();
        Numeral {
            signs: self.signs(),
            digits: self.digits_in(),
            base: self.base(),
            above: (half - 1).min(top),
            below: (limit - half).min(top),
            limit,
        }
    }
}

// The ranges that `numeral` gives, by an integer's code: how far each goes above 0, and how far below it.
const ABOVE: [usize; 11] = [99, 255, 255, 99, 127, 999, 9999, 65535, 65535, 999, 9999];

const BELOW: [usize; 11] = [0, 0, 0, 99, 128, 0, 0, 0, 0, 999, 9999];

// How many numbers the bytes of an integer's code hold.
fn code_limit(code: usize) -> usize
    requires { code ≤ 0x0a }
    ensures { result ≡ limit_of (format_of code) }
{
    if code < 5 { 256 } else { 65536 }
}

fn code_spans(code: usize, x: usize) -> bool
    requires { code ≤ 0x0a }
    ensures { result ≡ spans (numeral_of (format_of code)) x }
{
    let limit = code_limit(code);
    x <= ABOVE[code] || (limit - BELOW[code] <= x && x < limit)
}

// Whether a number is in the range of an integer's code, for readers that make no record of a field. A code
// past the last reads as the last.
pub fn is_in_code(code: usize, x: usize) -> bool
    ensures { result ≡ spans (numeral_of (format_of code)) x }
{
    code_spans(code.min(0x0a), x)
}

// The bits of a switch.
pub(crate) fn bits_in(n: u8) -> u8
    ensures { result ≡ bits_in n }
{
    n.min(Kind::MAX_BITS)
}

// Writes count digits of x, each of so many bits, the last to start + count - 1.
fn write_binary<const BITS: u32>(cells: &mut [u32], start: u8, count: u8, x: u32)
    requires { (BITS < 32) × (start + count ≤ length cells.old) }
    ensures { cells.new ≡ over cells.old start (digits_of (2 ^ BITS) count x) }
{
    let mut rest = x;
    for left in (0..count).rev() {
        cells[start as usize + left as usize] = rest & ((1 << BITS) - 1);
        rest >>= BITS;
    }
}

// Writes count decimal digits of x, the first to start.
fn write_decimal(cells: &mut [u32], start: u8, count: u8, x: u32)
    requires { start + count ≤ length cells.old }
    ensures { cells.new ≡ over cells.old start (digits_of 10 count x) }
{
    let mut rest = lowest_digits(x, count);
    for i in 0..count {
        let first = first_digit(rest, count - i);
        cells[start as usize + i as usize] = first.digit;
        rest = first.rest;
    }
}

// Writes count digits of x to one of the bases, the first to start.
fn write_digits(cells: &mut [u32], start: u8, count: u8, base: u64, x: u32)
    requires { ((base ≡ 10 → ⊥) → (base ≡ 16 → ⊥) → base ≡ 2) × (start + count ≤ length cells.old) }
    ensures { cells.new ≡ over cells.old start (digits_of base count x) }
{
    match base {
        10 => write_decimal(cells, start, count, x),
        16 => write_binary::<4>(cells, start, count, x),
        _ => write_binary::<1>(cells, start, count, x),
    }
}

impl Numeral {
    // A switch: a number to the base 2 in four bytes.
    pub fn of_bits(n: u8) -> Self
        ensures { result ≡ bits_of n }
    {
        let digits = bits_in(n);
        Numeral {
            signs: 0,
            digits,
            base: 2,
            above: (1 << digits) - 1,
            below: 0,
            limit: 4294967296,
        }
    }

    // Whether a number is in the range.
    pub(crate) fn spans(self, x: u64) -> bool
        requires { Sound self }
        ensures { result ≡ spans self x }
    {
        x <= self.above || (self.limit - self.below <= x && x < self.limit)
    }

    fn distance(self, x: u64) -> u64
        ensures { result ≡ distance self x }
    {
        if x <= self.above {
            x
        } else {
            self.limit.saturating_sub(x)
        }
    }

    fn sign(self, x: u64) -> u32
        ensures { result ≡ sign_of self x }
    {
        u32::from(x <= self.above)
    }

    // The number as a working copy.
    pub(crate) fn in_digits(self, x: u64) -> Work
        requires sound { Sound self }
        requires based { Based self }
        ensures { result ≡ work_of (in_digits self x) }
    {
        let size = self.distance(x) as u32;
        let mut cells = [0; Work::CELLS];
        if self.signs != 0 {
            cells[0] = self.sign(x);
        }
        write_digits(&mut cells, self.signs, self.digits, self.base, size);
        Work { cells, at: 0 }
    }

    // The number that the digit cells show.
    fn shown_by(self, w: Work) -> u64
        requires { Sound self }
        ensures { result ≡ shown_by self w.cells }
    {
        let start = self.signs as usize;
        let mut n = 0;
        for cell in &w.cells[start..start + self.digits as usize] {
            n = n * self.base + *cell as u64;
        }
        n
    }

    fn minus(self, w: Work) -> bool
        ensures { result ≡ minus self w.cells }
    {
        self.signs != 0 && w.cells[0] == 0
    }

    // Whether what the cells show is in the range.
    pub(crate) fn storable(self, w: Work) -> bool
        requires { Sound self }
        ensures { result ≡ storable self w.cells }
    {
        let m = self.shown_by(w);
        if self.minus(w) {
            m <= self.below
        } else {
            m <= self.above
        }
    }

    // The number that the cells stand for.
    pub(crate) fn of_digits(self, w: Work) -> u64
        requires { Sound self }
        ensures { result ≡ of_digits self w.cells }
    {
        let m = self.shown_by(w);
        if m != 0 && self.minus(w) {
            self.limit.saturating_sub(m)
        } else {
            m
        }
    }
}
