// What a line is answered.
ghost use Rattle.rabctl.specs.Replies.{is_error, is_silent, counted};
ghost use Rattle.std.specs.Prelude.{◌≡◌};

use crate::problem::Problem;
use rules::bearer::RabState;
use rules::refusal::Refusal;
use std::fmt;

#[derive(Clone, Copy)]
pub enum Answer {
    Silence,
    Ready,
    Opened,
    // The count of reports of a frame, and of an expiry.
    Frame(usize),
    Expiry(usize),
    Refused(Refusal),
    Rab(RabState),
    // The size of a grant.
    Held(u8),
    // Whether there is room.
    Room(bool),
    // A picture of the cabinet is to follow.
    Shown,
    Error(Problem),
}

impl Answer {
    pub fn is_error(&self) -> bool
        ensures { result ≡ is_error self.now }
    {
        matches!(self, Answer::Error(_))
    }

    pub fn is_silent(&self) -> bool
        ensures { result ≡ is_silent self.now }
    {
        matches!(self, Answer::Silence)
    }

    // How many reports follow the answer.
    pub fn counted(&self) -> usize
        ensures { result ≡ counted self.now }
    {
        match self {
            Answer::Frame(count) | Answer::Expiry(count) => *count,
            _ => 0,
        }
    }
}

// The answer without its line's number. Its reports, or the picture, go on in lines of their own.
impl fmt::Display for Answer {
    fn fmt<W: fmt::Write>(&self, f: &mut fmt::Formatter<W>) -> fmt::Result {
        match self {
            Answer::Silence => Ok(()),
            Answer::Ready => f.write_str("cabinet: ready"),
            Answer::Opened => f.write_str("open: done"),
            Answer::Frame(count) => write!(f, "frame: {count} reports"),
            Answer::Expiry(count) => write!(f, "expiry: {count} reports"),
            Answer::Refused(refusal) => write!(f, "refused: {refusal}"),
            Answer::Rab(state) => write!(f, "rab: {state}"),
            Answer::Held(size) => write!(f, "grant: {size}"),
            Answer::Room(true) => f.write_str("room: yes"),
            Answer::Room(false) => f.write_str("room: no"),
            Answer::Shown => f.write_str("| the cabinet"),
            Answer::Error(problem) => write!(f, "error: {problem}"),
        }
    }
}
