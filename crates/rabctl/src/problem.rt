// What is wrong with a line that is answered by an error: the text says what was expected.
ghost use Rattle.rabctl.specs.Replies.{no_memory};
ghost use Rattle.rabctl.specs.declared.problem.Problem.TheVariants.{Unread};
ghost use Rattle.std.specs.Prelude.{◌≡◌};

use std::alloc::AllocError;
use std::fmt;

#[derive(Clone, Copy)]
pub enum Problem {
    // The line is not read, or no memory is left for what it makes.
    Unread(script::Error),
    BeforeCabinet,
    SecondCabinet,
    NotBuilt(Unbuilt),
}

// The calls that are not carried out yet.
#[derive(Clone, Copy)]
pub enum Unbuilt {
    Start,
    Execute,
    Withdraw,
}

impl From<script::Error> for Problem {
    ghost from_gives = { λ error problem. problem ≡ Unread error };

    fn from(error: script::Error) -> Self {
        Self::Unread(error)
    }
}

impl From<AllocError> for Problem {
    ghost from_gives = { λ _ problem. problem ≡ no_memory };

    fn from(_: AllocError) -> Self {
        Self::Unread(script::Error::NoMemory)
    }
}

impl fmt::Display for Unbuilt {
    fn fmt<W: fmt::Write>(&self, f: &mut fmt::Formatter<W>) -> fmt::Result {
        f.write_str(match self {
            Unbuilt::Start => "start",
            Unbuilt::Execute => "execute",
            Unbuilt::Withdraw => "withdraw",
        })
    }
}

impl fmt::Display for Problem {
    fn fmt<W: fmt::Write>(&self, f: &mut fmt::Formatter<W>) -> fmt::Result {
        match self {
            Problem::Unread(error) => write!(f, "{error}"),
            Problem::BeforeCabinet => f.write_str("expected cabinet before any other line"),
            Problem::SecondCabinet => f.write_str("expected no second cabinet"),
            Problem::NotBuilt(call) => write!(f, "not built yet: {call}"),
        }
    }
}
