// The calendar of dates, with no division but by powers of 2: a year's place in the calendar is found by
// subtracting.
ghost use Rattle.std.specs.Prelude.{◌≡◌, ◌%◌};
ghost use Rattle.field.specs.Calendar.{leap_year, month_end};

// A year's place in the 400 years after which the calendar repeats. The span that is subtracted is halved at
// each turn, from 400 times 2 to the 23rd, the longest that fits, down to 400 itself.
fn in_cycle(year: u32) -> u32
    ensures { result ≡ year % 400 }
{
    let mut rest = year;
    for turn in (0..24u32).rev() {
        let span = 400 << turn;
        if span <= rest {
            rest -= span;
        }
    }
    rest
}

// Of the years that 4 divides only three in a cycle are no leap years.
fn is_leap(year: u32) -> bool
    ensures { result ≡ leap_year year }
{
    year % 4 == 0 && !matches!(in_cycle(year), 100 | 200 | 300)
}

// The last day of a month.
pub fn month_end(year: u32, month: u32) -> u32
    ensures { result ≡ month_end year month }
{
    match month {
        2 => if is_leap(year) { 29 } else { 28 },
        4 | 6 | 9 | 11 => 30,
        _ => 31,
    }
}
