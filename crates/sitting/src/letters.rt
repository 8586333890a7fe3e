// The keys of a sitting: letters that stand for the handset's keys, read one by one, played and noted. A
// line's end shows the picture.
use console::events::{Answered, Key};
use console::file::fail;
use handset::event::event;
use session::session::Session;
use std::io;
use std::io::Read;

// The most bytes of keys that are played.
const MOST: usize = 65536;

const NEWLINE: u8 = b'\n';

// The event that a letter stands for; none where it is no key.
fn event_of(letter: u8) -> Option<u8> {
    match letter {
        b'0'..=b'9' => Some(letter - b'0'),
        b'.' => Some(Session::POINT),
        b'u' => Some(Session::UP),
        b'd' => Some(Session::DOWN),
        b'l' => Some(Session::LEFT),
        b'r' => Some(Session::RIGHT),
        b'e' => Some(Session::ENTER),
        b's' => Some(Session::SECOND),
        _ => None,
    }
}

// A sitting under way: the sheet and the session that the keys so far have left, and their events.
#[derive(Drop)]
pub struct Sitting<'a> {
    pub image: &'a [u8],
    pub sheet: Vec<u8>,
    pub session: Session,
    pub events: Vec<u8>,
}

impl Sitting<'_> {
    // Plays an event, and says what was pressed and answered.
    fn step(&mut self, out: &impl Print, number: u8) -> io::Result<()> {
        let stepped = event(self.image, &mut self.sheet, self.session, number);
        self.session = stepped.session;
        println!(out; "{}: {}", Key(number), Answered(stepped.answer.number()))
    }

    // Plays a letter of the keys, and notes its event.
    fn play(&mut self, out: &impl Print, letter: u8) -> io::Result<()> {
        if letter == NEWLINE {
            return self.show(out);
        }
        if let Some(number) = event_of(letter) {
            self.step(out, number)?;
            self.events.push(number)?;
        }
        Ok(())
    }

    // The picture at the end of keys whose last line has no end.
    fn end(&self, out: &impl Print, last: u8) -> io::Result<()> {
        if last != NEWLINE {
            self.show(out)?;
        }
        Ok(())
    }

    // Plays the keys one by one, and says so where some are left. What they come from stays open.
    pub fn play_all(
        &mut self,
        rt: &(impl Print + Eprint + Alloc),
        keys: &mut impl Read,
    ) -> io::Result<()> {
        let mut letters = keys.by_ref().bytes();
        let mut last = NEWLINE;
        for _ in 0..MOST {
            match letters.next() {
                Some(Ok(letter)) => {
                    self.play(rt, letter)?;
                    last = letter;
                }
                Some(Err(error)) => {
                    self.end(rt, last)?;
                    return fail(rt, "the keys", error);
                }
                None => return self.end(rt, last),
            }
        }
        self.end(rt, last)?;
        if let Some(Ok(_)) = letters.next() {
            println!(rt; "more than 65,536 bytes of keys: the rest is not played")?;
        }
        Ok(())
    }
}
