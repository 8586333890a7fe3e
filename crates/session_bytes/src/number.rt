// Numbers in bytes, low byte first. All their bytes are there, so that there is no test between them, and the
// compiler makes one load or store of four or eight.
ghost use Rattle.std.specs.Prelude.{◌≡◌, [], ◌∷◌, ◌+◌, ◌≤◌, ◌<◌, length};
ghost use Rattle.laws.specs.Overwrite.{over};
ghost use Rattle.laws.specs.Digits.{low_first};
ghost use Rattle.session_bytes.specs.Numbers.{number_at};

// The number of the four bytes at a place.
pub(crate) fn cell_at(bytes: &[u8], at: usize) -> u32
    requires { at + 4 ≤ length bytes.now }
    ensures { result ≡ number_at 4 at bytes.now }
{
    bytes[at] as u32
        + 256 * bytes[at + 1] as u32
        + 65536 * bytes[at + 2] as u32
        + 16777216 * bytes[at + 3] as u32
}

// The number of the eight bytes at a place.
pub(crate) fn place_at(bytes: &[u8], at: usize) -> u64
    requires { at + 8 ≤ length bytes.now }
    ensures { result ≡ number_at 8 at bytes.now }
{
    cell_at(bytes, at) as u64 + 4294967296 * cell_at(bytes, at + 4) as u64
}

pub(crate) fn write_byte(bytes: &mut [u8], at: usize, x: u8)
    requires { at < length bytes.old }
    ensures { bytes.new ≡ over bytes.old at (x ∷ []) }
{
    bytes[at] = x;
}

pub(crate) fn write_cell(bytes: &mut [u8], at: usize, x: u32)
    requires { at + 4 ≤ length bytes.old }
    ensures { bytes.new ≡ over bytes.old at (low_first 4 x) }
{
    bytes[at] = (x % 256) as u8;
    bytes[at + 1] = (x / 256 % 256) as u8;
    bytes[at + 2] = (x / 65536 % 256) as u8;
    bytes[at + 3] = (x / 16777216) as u8;
}

pub(crate) fn write_place(bytes: &mut [u8], at: usize, x: u64)
    requires { at + 8 ≤ length bytes.old }
    ensures { bytes.new ≡ over bytes.old at (low_first 8 x) }
{
    write_cell(bytes, at, (x % 4294967296) as u32);
    write_cell(bytes, at + 4, (x / 4294967296) as u32);
}
