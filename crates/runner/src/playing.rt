// Cases of Event: a list of events played from Open on, and one event on a given session.
use crate::Case;
use crate::hex::Hex;
use crate::reading::{read_full, read_given, read_list, read_word};
use handset::event::event;
use session::answer::Answer;
use session::session::Session;
use session_bytes::layout::SIZE;
use session_bytes::write::write_session;
use std::{fmt, io};

// How many events a case can have.
const MOST: usize = 4096;

// An answer: 't' for taken, 'f' for flash, 'd' and the image place for finished, '!' and the image place for
// fired, 'r' and the number for refused.
#[derive(Clone, Copy)]
struct Letter(Answer);

impl fmt::Display for Letter {
    fn fmt<W: fmt::Write>(&self, f: &mut fmt::Formatter<W>) -> fmt::Result {
        match self.0 {
            Answer::Taken => write!(f, "t"),
            Answer::Flash => write!(f, "f"),
            Answer::Finished(place) => write!(f, "d{}", place.0),
            Answer::Fired(place) => write!(f, "!{}", place.0),
            Answer::Refused(number) => write!(f, "r{number}"),
        }
    }
}

impl Case<'_, '_> {
    // Plays an event, prints the answer, and hands back the session that comes of it.
    fn play_one(&mut self, rt: &impl Print, session: Session, number: u8) -> io::Result<Session> {
        let stepped = event(self.image, self.sheet, session, number);
        print!(rt; "{} ", Letter(stepped.answer))?;
        Ok(stepped.session)
    }

    // The sheet that a list of events left, and what Draw answers on the session that it left.
    pub fn print_end(&self, rt: &impl Print, session: Session) -> io::Result<()> {
        print!(rt; "{} ", Hex(self.sheet))?;
        let area = (self.columns() as usize) * (self.lines() as usize);
        self.print_picture(rt, session, area)
    }

    // The input goes on with the events, their count before them in two bytes: Open's refusal, each event's
    // answer on the session and sheet that the one before it left, the sheet afterwards, and what Draw then
    // answers.
    pub fn play(&mut self, rt: &(impl Input + Print)) -> io::Result<()> {
        let mut room = [0u8; MOST];
        let events = read_list(rt, &mut room)?;
        let opened = self.opened();
        print!(rt; "{} ", opened.refusal)?;
        let mut session = opened.session;
        for number in events {
            session = self.play_one(rt, session, *number)?;
        }
        self.print_end(rt, session)
    }

    // One event on the session and sheet of the input, which goes on as that of Draw does, with the event in
    // two bytes for the picture's length: the answer, the sheet afterwards, and the session handed back.
    pub fn step(&mut self, rt: &(impl Input + Print)) -> io::Result<()> {
        read_full(rt, self.sheet)?;
        let number = (read_word(rt)? % 256) as u8;
        let given = read_given(rt)?;
        let session = self.play_one(rt, given, number)?;
        let mut record = [0u8; SIZE];
        write_session(&mut record, session);
        print!(rt; "{} {}", Hex(self.sheet), Hex(&record))
    }
}
