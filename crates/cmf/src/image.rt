// The prolog's record, and the numbers that the format and the paper fix.
ghost use Rattle.std.specs.Prelude.{◌≡◌, ◌+◌, ◌<◌, length};
ghost use Rattle.laws.specs.Bytes.{word_at};
ghost use Rattle.cmf.specs.Readers.{image_of};

use laws::byte_at;

// The prolog's delays that a session asks for, in seconds, 0 for never: delay-to-top, and delay-password,
// which ends a password entry.
#[derive(Clone, Copy)]
pub struct Delays {
    pub top: u8,
    pub password: u8,
}

// What an image says of itself as a whole.
#[derive(Clone, Copy)]
pub struct Image {
    pub delays: Delays,
}

impl Image {
    // The bytes of the prolog; the top table follows them.
    pub const PROLOG: usize = 10;

    pub const MAX_BYTES: usize = 32768;
    // Tables one below the other, the top table counted.
    pub const MAX_DEPTH: usize = 8;

    pub const MAX_TABLE_LINES: usize = 99;

    pub const MAX_LINES: usize = 1024;

    pub const MAX_FIELDS: usize = 256;

    pub const MAX_SHEET: usize = 4096;

    pub const MAX_PASSWORD: usize = 8;
    // Codes of components that section 7 gives: 0 to 23.
    pub const CODES: u8 = 24;

    pub fn read(image: &[u8]) -> Self
        ensures { result ≡ image_of image.now }
    {
        Image {
            delays: Delays {
                top: byte_at(image, 5),
                password: byte_at(image, 7),
            },
        }
    }
}

// The two bytes at a place that has them, low byte first.
pub(crate) fn word_in(image: &[u8], at: usize) -> usize
    requires { at + 1 < length image.now }
    ensures { (result ≡ word_at image.now at) × (result < 65536) }
{
    image[at] as usize + 256 * (image[at + 1] as usize)
}
