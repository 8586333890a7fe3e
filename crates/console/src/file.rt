// Files that the arguments name. What cannot be opened, read or written is said in one line on standard
// error, unless it is read quietly.
ghost use Rattle.std.specs.Prelude.{◌≡◌, ◌+◌, ◌≤◌, min, take, OnOk, IfOk, vec_len};

use cmf::image::Image;
use std::convert::AsSlice;
use std::env::{Env, FillError};
use std::fs::Files;
use std::io::Read;
use std::{fs, io, str};

// Room for an image: one byte more than it may have, so that a longer file is refused.
pub const IMAGE_ROOM: usize = Image::MAX_BYTES + 1;

// The most bytes of an argument that names a file.
const MAX_NAME: usize = 4096;

// The largest room that is taken whole before it is known how much comes: none of the programs for people has
// a larger.
const WHOLE: usize = 1 << 18;

// The most that a pipe in packet mode gives at one read: a page, which has no more on the machines that this
// is built for.
const PACKET: usize = 1 << 16;

// What bytes are read from one by one: standard input, or an opened file.
#[derive(Drop)]
pub enum Source<S, F> {
    Standard(S),
    File(F),
}

impl<S: Read, F: Read> Read for Source<S, F> {
    fn read(&mut self, buffer: &mut [u8]) -> io::Result<usize> {
        match self {
            Source::Standard(standard) => standard.read(buffer),
            Source::File(file) => file.read(buffer),
        }
    }
}

// The words for an error, without the number that std puts after those of the system.
fn without_number(text: &str) -> &str {
    match text.split_once(" (os error ") {
        Some((words, _)) => words,
        None => text,
    }
}

// Says what failed, and why.
pub fn fail(rt: &(impl Eprint + Alloc), what: &str, error: io::Error) -> io::Result<()> {
    let text = format!(in rt.alloc(); "{error}")?;
    eprintln!(rt; "{what}: {}", without_number(text.as_str()))
}

// Whether there is an argument i.
pub fn is_given(rt: &impl Env, i: usize) -> bool {
    let mut room = [0u8; 1];
    !matches!(rt.arg(i, &mut room), Err(FillError::NotPresent))
}

// The file name that argument i is; none where the argument is missing or too long, or is no text, as names
// are here.
fn name_at(rt: &(impl Env + AllocGlobal), i: usize) -> io::Result<Option<String>> {
    let mut room = [0u8; MAX_NAME];
    let Ok(length) = rt.arg(i, &mut room) else {
        return Ok(None);
    };
    match str::from_utf8(&room[..length]) {
        Ok(name) => Ok(Some(String::from_str(rt.alloc(), name)?)),
        Err(_) => Ok(None),
    }
}

// Does something with the file that argument i names. A usage line, which may be text or bytes, is said as it
// is where there is no such name, and what fails is said.
fn with_named<T, F: FnOnce(&str) -> io::Result<T>>(
    rt: &(impl Env + Eprint + AllocGlobal),
    i: usize,
    usage: impl AsSlice<u8> + Drop,
    act: F,
) -> io::Result<Option<T>>
    requires { F.IsAlwaysCallable act }
{
    let Some(name) = name_at(rt, i)? else {
        let line = String::from_utf8_lossy(rt.alloc(), usage.as_slice())?;
        eprint!(rt; "{line}")?;
        return Ok(None);
    };
    match act(name.as_str()) {
        Ok(value) => Ok(Some(value)),
        Err(error) => {
            fail(rt, name.as_str(), error)?;
            Ok(None)
        }
    }
}

// Opens a file; `-` is standard input.
fn open<R: Files + Input>(rt: &R, name: &str) -> io::Result<Source<R::Reader, R::File>> {
    if name == "-" {
        return Ok(Source::Standard(rt.reader()));
    }
    Ok(Source::File(fs::open(rt, name)?))
}

// Opens the file that argument i names; `-` is standard input.
pub fn open_named<R: Files + Env + Input + Eprint + AllocGlobal>(
    rt: &R,
    i: usize,
    usage: impl AsSlice<u8> + Drop,
) -> io::Result<Option<Source<R::Reader, R::File>>> {
    with_named(rt, i, usage, |name| open(rt, name))
}

// What is taken of so much room before the file is opened: all of it, or nothing yet.
fn first_room(room: usize) -> usize
    ensures { result ≤ room }
{
    if room <= WHOLE { room } else { 0 }
}

// Makes room for the next read, behind so many bytes: all that is left, or at least that for a packet. What
// is there doubles, where memory allows it, so that a long file is not copied at each read.
fn make_room(bytes: &mut Vec<u8>, count: usize, room: usize) -> io::Result<()>
    ensures made { OnOk result (min room (count + PACKET) ≤ vec_len bytes.new) }
    ensures kept { vec_len bytes.old ≤ vec_len bytes.new }
    ensures stays { take (vec_len bytes.old) bytes.new.items ≡ bytes.old.items }
    ensures within { vec_len bytes.old ≤ room → vec_len bytes.new ≤ room }
{
    let least = room.min(count.saturating_add(PACKET));
    if bytes.len() < least {
        let mut next = room.min(least.max(bytes.len().saturating_mul(2)));
        if bytes.reserve_exact(next - bytes.len()).is_err() {
            next = least;
            bytes.reserve_exact(next - bytes.len())?;
        }
        bytes.resize(next, 0)?;
    }
    Ok(())
}

// Reads to the start of a Vec until the file ends or there is no more room; answers how many bytes came. Each
// read asks for all the room that the Vec has left: what gives a packet a read, as a pipe can, drops the rest
// of one that is longer.
fn read_all(file: &mut impl Read, bytes: &mut Vec<u8>, room: usize) -> io::Result<usize>
    ensures inside { IfOk result (λ count. count ≤ vec_len bytes.new) }
    ensures within { vec_len bytes.old ≤ room → vec_len bytes.new ≤ room }
{
    let mut count = 0;
    while count < room {
        make_room(bytes, count, room)?;
        let more = file.read(&mut bytes[count..])?;
        if more == 0 {
            break;
        }
        count += more;
    }
    Ok(count)
}

// Reads a file, as far as there is room, into a Vec that has all of that room or none yet.
fn read(rt: &impl Files, name: &str, room: usize, bytes: &mut Vec<u8>) -> io::Result<()> {
    let mut file = fs::open(rt, name)?;
    let count = read_all(&mut file, bytes, room)?;
    bytes.truncate(count);
    Ok(())
}

// Reads the file that argument i names, as far as there is room.
pub fn read_named(
    rt: &(impl Files + Env + Eprint + AllocGlobal),
    i: usize,
    room: usize,
    usage: impl AsSlice<u8> + Drop,
) -> io::Result<Option<Vec<u8>>> {
    let mut bytes = vec![in rt.alloc(); 0u8; first_room(room)]?;
    let found = with_named(rt, i, usage, |name| read(rt, name, room, &mut bytes))?;
    Ok(found.map(|_| bytes))
}

// The same, and nothing is said: what is missing or fails is empty.
pub fn read_named_quietly(rt: &(impl Files + Env + AllocGlobal), i: usize, room: usize) -> Vec<u8> {
    let first = first_room(room);
    if let (Ok(Some(name)), Ok(mut bytes)) = (name_at(rt, i), vec![in rt.alloc(); 0u8; first]) {
        if let Ok(()) = read(rt, name.as_str(), room, &mut bytes) {
            return bytes;
        }
    }
    Vec::new(rt.alloc())
}

// Writes the file that argument i names, which is created or overwritten.
pub fn write_named(
    rt: &(impl Files + Env + Eprint + AllocGlobal),
    i: usize,
    bytes: &[u8],
    usage: impl AsSlice<u8> + Drop,
) -> io::Result<()> {
    with_named(rt, i, usage, |name| fs::write(rt, name, bytes))?;
    Ok(())
}
