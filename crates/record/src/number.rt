// Numbers as bytes of seven bits each, a variable-length quantity in its one canonical form: the highest
// group comes first, and each byte but the last has its top bit set, so that the reader goes on. Numbers up
// to 65,535 take one to three bytes.
ghost use Rattle.std.specs.Prelude.{◌≡◌, length};
ghost use Rattle.laws.specs.Parts.{put_at};
ghost use Rattle.record.specs.Numbers.{encoded, behind, number_at};

use laws::put_bytes;

// How many groups a number has; 16,384 is 128 times 128.
pub fn group_count(n: u16) -> usize
    ensures { result ≡ length (encoded n) }
{
    if n < 128 {
        1
    } else if n < 16384 {
        2
    } else {
        3
    }
}

// Writes groups at a place and answers the place after them; where they do not fit nothing changes, and the
// place itself is answered.
fn write_groups(room: &mut [u8], at: usize, groups: &[u8]) -> usize
    ensures { (result ≡ behind at groups.now room.old)
        × (room.new ≡ put_at at groups.now room.old) }
{
    put_bytes(room, at, groups);
    if laws::room(room, at, groups.len()) {
        at + groups.len()
    } else {
        at
    }
}

// Writes a number at a place, likewise.
pub fn write_number(room: &mut [u8], at: usize, n: u16) -> usize
    ensures { (result ≡ behind at (encoded n) room.old)
        × (room.new ≡ put_at at (encoded n) room.old) }
{
    let last = (n % 128) as u8;
    if n < 128 {
        write_groups(room, at, &[n as u8])
    } else if n < 16384 {
        write_groups(room, at, &[(128 + n / 128) as u8, last])
    } else {
        let first = (128 + n / 16384) as u8;
        write_groups(room, at, &[first, (128 + n / 128 % 128) as u8, last])
    }
}

// Reads the number at a place, with the place after it; bytes that break the rules are none.
pub fn read_number(bytes: &[u8], at: usize) -> Option<(u16, usize)>
    ensures { result ≡ number_at bytes.now at }
{
    let a = *bytes.get(at)? as u16;
    if a < 128 {
        return Some((a, at + 1));
    }
    if a == 128 {
        return None;
    }
    let b = *bytes.get(at + 1)? as u16;
    if b < 128 {
        return Some(((a - 128) * 128 + b, at + 2));
    }
    let c = *bytes.get(at + 2)? as u16;
    // A first group over 3 would make 65,536 or more.
    if c >= 128 || a > 131 {
        return None;
    }
    Some(((a - 128) * 16384 + (b - 128) * 128 + c, at + 3))
}
