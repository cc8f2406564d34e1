// The RABs that the controller knows.
//
// Place and RAB ID stay two numbers: the public calls and every report give them so.
ghost use Rattle.rules.specs.Telling.{rab_text};
ghost use Rattle.std.specs.Prelude.{Some};

use crate::item::Priority;
use std::fmt;

// A set-up RAB: its grant, its size in use and its priority in use.
// The default only fills the unused room of a list with a fixed capacity.
#[derive(Clone, Copy, Debug, Default, PartialEq, Eq)]
pub struct Bearer {
    pub place: u8,
    pub rab: u8,
    pub grant: u8,
    pub size: u8,
    pub priority: Priority,
}

// A request for a size, waiting or at its turn.
#[derive(Clone, Copy, Debug, PartialEq, Eq)]
pub struct Request {
    pub place: u8,
    pub rab: u8,
    pub size: u8,
    pub priority: Priority,
}

// What the question for a RAB is answered; a set-up RAB with its size in use.
#[derive(Clone, Copy, Debug, PartialEq, Eq)]
pub enum RabState {
    Unknown,
    Waiting,
    SetUp(u8),
    SetUpWaiting(u8),
}

impl fmt::Display for RabState {
    ghost output = { λ state. Some (rab_text state) };

    fn fmt<W: fmt::Write>(&self, f: &mut fmt::Formatter<W>) -> fmt::Result {
        match self {
            RabState::Unknown => f.write_str("unknown"),
            RabState::Waiting => f.write_str("waiting"),
            RabState::SetUp(size) => write!(f, "set up {size}"),
            RabState::SetUpWaiting(size) => write!(f, "set up {size} and waiting"),
        }
    }
}
