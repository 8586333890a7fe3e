// A field's bytes: as one number, and in the sheet.
ghost use Rattle.std.specs.Prelude.{◌≡◌, ◌<◌, length, get_or};
ghost use Rattle.laws.specs.Choice.{when◌then◌else◌, ◌<?◌};
ghost use Rattle.laws.specs.Parts.{put_at};
ghost use Rattle.field.specs.Values.{bytes_of, value_at, number_of, value_from};

use crate::kind::SheetPlace;
use laws::{byte_at, put_bytes};

// The first count of the bytes, at most four; those past them are not looked at.
#[derive(Clone, Copy)]
pub struct Value {
    pub bytes: [u8; 4],
    pub count: u8,
}

impl Value {
    pub fn len(self) -> usize
        ensures { result ≡ length (bytes_of self) }
    {
        self.count.min(4) as usize
    }

    // The bytes that count.
    fn as_bytes(&self) -> &[u8]
        ensures { result.now ≡ bytes_of self.now }
    {
        &self.bytes[..self.len()]
    }

    // The ith byte, 0 past the last.
    pub fn byte(self, i: usize) -> u32
        ensures { (result ≡ get_or (bytes_of self) i 0) × (result < 256) }
    {
        self.as_bytes().get(i).copied().unwrap_or(0) as u32
    }

    // The number of the bytes, low byte first.
    pub fn number(self) -> u32
        ensures { result ≡ number_of self }
    {
        self.byte(0) + 256 * self.byte(1) + 65536 * self.byte(2) + 16777216 * self.byte(3)
    }

    // The count lowest bytes of a number.
    pub fn from_number(count: u8, x: u64) -> Self
        ensures { result ≡ value_from count x }
    {
        let [a, b, c, d, ..] = x.to_le_bytes();
        Value {
            bytes: [
                if_below(0, count, a),
                if_below(1, count, b),
                if_below(2, count, c),
                if_below(3, count, d),
            ],
            count,
        }
    }
}

// A byte that counts: 0 from the count on.
fn if_below(i: u8, count: u8, byte: u8) -> u8
    ensures { result ≡ when i <? count then byte else 0 }
{
    if i < count { byte } else { 0 }
}

// The value in count bytes at a place; past the end they are 0.
pub fn value_at(bytes: &[u8], at: usize, count: u8) -> Value
    ensures { result ≡ value_at at count bytes.now }
{
    if at < bytes.len() {
        let a = if_below(0, count, byte_at(bytes, at));
        let b = if_below(1, count, byte_at(bytes, at + 1));
        let c = if_below(2, count, byte_at(bytes, at + 2));
        let d = if_below(3, count, byte_at(bytes, at + 3));
        return Value {
            bytes: [a, b, c, d],
            count,
        };
    }
    Value {
        bytes: [0, 0, 0, 0],
        count,
    }
}

// The value in count bytes of the sheet at a place.
pub fn load(sheet: &[u8], place: SheetPlace, count: u8) -> Value
    ensures { result ≡ value_at place.0 count sheet.now }
{
    value_at(sheet, place.0, count)
}

// Writes a value at a place of the sheet; where it does not fit nothing changes.
pub fn put(sheet: &mut [u8], place: SheetPlace, value: Value)
    ensures { sheet.new ≡ put_at place.0 (bytes_of value) sheet.old }
{
    put_bytes(sheet, place.0, value.as_bytes());
}
