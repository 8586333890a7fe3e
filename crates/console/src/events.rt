// Keys and answers in words.
use crate::words::Refused;
use session::answer::Answer;
use session::session::Session;
use std::fmt;

// The key of an event.
#[derive(Clone, Copy)]
pub struct Key(pub u8);

impl fmt::Display for Key {
    fn fmt<W: fmt::Write>(&self, f: &mut fmt::Formatter<W>) -> fmt::Result {
        match self.0 {
            Session::POINT => f.write_str("POINT"),
            Session::UP => f.write_str("UP"),
            Session::DOWN => f.write_str("DOWN"),
            Session::LEFT => f.write_str("LEFT"),
            Session::RIGHT => f.write_str("RIGHT"),
            Session::ENTER => f.write_str("ENTER"),
            Session::SECOND => f.write_str("one second"),
            digit => write!(f, "{digit}"),
        }
    }
}

// An answer by its number, since a list of answers has no more.
#[derive(Clone, Copy)]
pub struct Answered(pub u32);

impl fmt::Display for Answered {
    fn fmt<W: fmt::Write>(&self, f: &mut fmt::Formatter<W>) -> fmt::Result {
        match self.0 {
            0 => f.write_str("taken"),
            1..Answer::FINISHED => f.write_str("flash"),
            n @ Answer::FINISHED..Answer::FIRED => {
                write!(f, "finished at place {}", n - Answer::FINISHED)
            }
            n @ Answer::FIRED..Answer::REFUSED => {
                write!(f, "fired at place {}", n - Answer::FIRED)
            }
            // A refusal's number fits a byte.
            n => write!(f, "{}", Refused(((n - Answer::REFUSED) % 256) as u8)),
        }
    }
}
