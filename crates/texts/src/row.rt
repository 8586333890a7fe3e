// The cells of a row while they are written: texts are put one after the other, and what does not fit is
// dropped.
ghost use Rattle.std.specs.Prelude.{◌≡◌, [], ◌∷◌, min, ◌-◌, length, replicate};
ghost use Rattle.laws.specs.Overwrite.{over};
ghost use Rattle.texts.specs.Row.{Put};
ghost use Rattle.texts.specs.Texts.{blank};

pub const BLANK: u8 = 0x20;

// One cell; like the others it answers where what comes after it is to be put.
pub fn put(row: &mut [u8], at: usize, byte: u8) -> usize
    ensures { Put row.old at (byte ∷ []) row.new result }
{
    if at < row.len() {
        row[at] = byte;
        return at + 1;
    }
    row.len()
}

pub fn put_all(row: &mut [u8], at: usize, text: &[u8]) -> usize
    ensures { Put row.old at text.now row.new result }
{
    if row.len() <= at {
        return row.len();
    }
    let count = text.len().min(row.len() - at);
    laws::put_bytes(row, at, &text[..count]);
    at + count
}

pub fn repeat(row: &mut [u8], at: usize, byte: u8, count: usize) -> usize
    ensures { Put row.old at (replicate count byte) row.new result }
{
    if row.len() <= at {
        return row.len();
    }
    let end = at + count.min(row.len() - at);
    row[at..end].fill(byte);
    end
}

// Blanks up to the end of the row.
pub fn pad(row: &mut [u8], at: usize)
    ensures { row.new ≡ over row.old at
        (replicate (length row.old - at) blank) }
{
    let count = row.len().saturating_sub(at);
    repeat(row, at, BLANK, count);
}
