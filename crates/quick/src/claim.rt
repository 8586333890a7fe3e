// Marks on the bytes of the sheet that fields hold: they stand in for the list of fields.
ghost use Rattle.std.specs.Prelude.{◌≡◌, true, false, ◌*◌, ◌≤◌, length};
ghost use Rattle.quick.specs.Accept.{Claimed};

use cmf::image::Image;

// Words with a bit for each byte that a sheet may have, and for the place after the last.
pub(crate) const WORDS: usize = Image::MAX_SHEET / 64 + 1;

// Marks bytes of the sheet. If one of them is marked or is not there, some may be marked by then: the walk
// ends there.
pub(crate) fn claim(marks: &mut [u64], extent: usize, from: usize, size: usize) -> bool
    requires { extent ≤ 64 * length marks.old }
    ensures { result ≡ true → Claimed extent marks.old marks.new from size }
{
    if extent < from || extent - from < size {
        return false;
    }
    for i in from..from + size {
        if !claim_byte(marks, extent, i) {
            return false;
        }
    }
    true
}

// Marks one byte of the sheet; not if it is marked or is not there, and then the marks stay as they are.
pub(crate) fn claim_byte(marks: &mut [u64], extent: usize, at: usize) -> bool
    requires { extent ≤ 64 * length marks.old }
    ensures { (result ≡ true → Claimed extent marks.old marks.new at 1)
        × (result ≡ false → marks.new ≡ marks.old) }
{
    if extent <= at {
        return false;
    }
    let word = marks[at / 64];
    let more = word | (1 << (at % 64));
    if more == word {
        return false;
    }
    marks[at / 64] = more;
    true
}
