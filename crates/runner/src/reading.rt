// The input of a case.
use laws::word_at;
use session::session::Session;
use session_bytes::layout::SIZE;
use session_bytes::read::read_session;
use std::io;
use std::io::Read;

// Fills a buffer from the input; false where the input ends before, and the rest of the buffer stays.
pub fn read_full(rt: &impl Input, buffer: &mut [u8]) -> io::Result<bool> {
    match rt.reader().read_exact(buffer) {
        Ok(()) => Ok(true),
        Err(error) if error.kind() == io::ErrorKind::UnexpectedEof => Ok(false),
        Err(error) => Err(error),
    }
}

// Two bytes of the input as a number.
pub fn read_word(rt: &impl Input) -> io::Result<u16> {
    let mut bytes = [0u8; 2];
    read_full(rt, &mut bytes)?;
    Ok(word_at(&bytes, 0))
}

// The bytes of a list, with their count before them, in room for them. A list that has no room is not read,
// and is empty.
pub fn read_list<'a>(rt: &impl Input, room: &'a mut [u8]) -> io::Result<&'a [u8]> {
    let count = read_word(rt)? as usize;
    match room.get_mut(..count) {
        Some(bytes) => {
            read_full(rt, bytes)?;
            Ok(bytes)
        }
        None => Ok(&[]),
    }
}

// The session that the input gives, as `session_bytes` lays it out.
pub fn read_given(rt: &impl Input) -> io::Result<Session> {
    let mut record = [0u8; SIZE];
    read_full(rt, &mut record)?;
    Ok(read_session(&record))
}
