// Decimal digits by subtracting powers of ten, for processors that cannot divide.
ghost use Rattle.std.specs.Prelude.{◌≡◌, ◌-◌, ◌*◌, ◌/◌, ◌%◌, ◌^◌, min};
ghost use Rattle.laws.specs.Choice.{◌<?◌};

// The most digits that a number of 32 bits has.
const MOST: u8 = 10;

// The powers of ten that 32 bits hold; past them the last. An array that is a constant would be laid out anew
// at each use.
pub fn power_of_ten(n: u8) -> u32
    ensures { result ≡ 10 ^ min n 9 }
{
    match n {
        0 => 1,
        1 => 10,
        2 => 100,
        3 => 1000,
        4 => 10000,
        5 => 100000,
        6 => 1000000,
        7 => 10000000,
        8 => 100000000,
        _ => 1000000000,
    }
}

// The first of a number's digits, and what the others show.
#[derive(Clone, Copy)]
pub struct Digit {
    pub digit: u32,
    pub rest: u32,
}

// The last digit: a number below ten is its own; of a larger one, nine.
fn last_digit(x: u32) -> Digit
    ensures { (result.digit ≡ min 9 x) × (result.rest ≡ x - result.digit) }
{
    let digit = x.min(9);
    Digit {
        digit,
        rest: x - digit,
    }
}

// The first of n digits of a number: how often the power of ten with n digits can be subtracted, nine times
// at most. That is enough for a number that n digits show.
pub fn first_digit(x: u32, n: u8) -> Digit
    ensures { (result.digit ≡ min 9 (x / 10 ^ (n - 1))) × (result.rest ≡ x - result.digit * 10 ^ (n - 1)) }
{
    if n < 2 {
        return last_digit(x);
    }
    if MOST < n {
        return Digit { digit: 0, rest: x };
    }
    let power = power_of_ten(n - 1);
    let mut rest = x;
    for digit in 0..9 {
        if rest < power {
            return Digit { digit, rest };
        }
        rest -= power;
    }
    Digit { digit: 9, rest }
}

// Whether n digits show a number.
fn is_shown(x: u32, n: u8) -> bool
    ensures { result ≡ x <? 10 ^ n }
{
    MOST <= n || x < power_of_ten(n)
}

// What the n lowest digits of a number show: the others are taken off, the first one first.
pub fn lowest_digits(x: u32, n: u8) -> u32
    ensures { result ≡ x % 10 ^ n }
{
    let mut rest = x;
    if is_shown(x, n) {
        return rest;
    }
    for others in (n..MOST).rev() {
        rest = first_digit(rest, others + 1).rest;
    }
    rest
}
