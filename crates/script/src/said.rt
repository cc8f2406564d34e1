// What a line says, or what is wrong with it.
ghost use Rattle.script.specs.Numbers.{most_of};
ghost use Rattle.script.specs.Telling.{name, argument_text, fault_text};
ghost use Rattle.std.specs.Prelude.{◌≡◌, Some};

use std::fmt;

// Domain and timer stay numbers here: the controller refuses one that nothing has.
#[derive(Debug, PartialEq, Eq, Drop)]
pub enum Line {
    // No word, or a comment.
    Skipped,
    Cabinet { number: u16, pool: Pool },
    Open { place: u8, ue: u32, domain: u8 },
    Frame(Vec<u8>),
    Expiry { place: u8, timer: u8 },
    Start { ue: u32 },
    Execute { ticket: u8 },
    Withdraw { ticket: u8 },
    Rab { place: u8, rab: u8 },
    Grant { grant: u8 },
    Room { size: u8, named: Vec<u8> },
    Show,
}

// What a cabinet's grants come from.
#[derive(Clone, Copy, Debug, PartialEq, Eq)]
pub enum Pool {
    Rate { capacity: u16 },
    Tree,
}

// A word that is to be a number.
#[derive(Clone, Copy, Debug, PartialEq, Eq)]
pub enum Argument {
    Number,
    Capacity,
    Place,
    Ue,
    Domain,
    Timer,
    Ticket,
    Rab,
    Grant,
    Size,
}

impl Argument {
    // The largest number that it may be.
    pub fn most(self) -> u32
        ensures { result ≡ most_of self }
    {
        match self {
            Argument::Ue => u32::MAX,
            Argument::Number | Argument::Capacity => u32::from(u16::MAX),
            _ => u32::from(u8::MAX),
        }
    }

    fn name(self) -> &'static str
        ensures { result.now ≡ name self }
    {
        match self {
            Argument::Number => "NUMBER",
            Argument::Capacity => "CAPACITY",
            Argument::Place => "PLACE",
            Argument::Ue => "UE",
            Argument::Domain => "DOMAIN",
            Argument::Timer => "TIMER",
            Argument::Ticket => "TICKET",
            Argument::Rab => "RAB",
            Argument::Grant => "GRANT",
            Argument::Size => "SIZE",
        }
    }
}

// Its name, with its range.
impl fmt::Display for Argument {
    ghost output = { λ a. Some (argument_text a) };

    fn fmt<W: fmt::Write>(&self, f: &mut fmt::Formatter<W>) -> fmt::Result {
        let name = self.name();
        let most = self.most();
        write!(f, "{name}, a decimal number 0..{most}")
    }
}

// Why a line says nothing: its first fault from the left.
#[derive(Clone, Copy, Debug, PartialEq, Eq)]
pub enum Fault {
    UnknownWord,
    Missing(Argument),
    NotDecimal(Argument),
    OutOfRange(Argument),
    MissingPool,
    UnknownPool,
    NotHex,
    OddHex,
    Extra,
}

// What was expected instead.
impl fmt::Display for Fault {
    ghost output = { λ f. Some (fault_text f) };

    fn fmt<W: fmt::Write>(&self, f: &mut fmt::Formatter<W>) -> fmt::Result {
        match self {
            Fault::UnknownWord => f.write_str(
                "expected cabinet, open, frame, expiry, start, execute, withdraw, rab, grant, room or show",
            ),
            Fault::Missing(argument) => write!(f, "expected {argument}, and the line ends"),
            Fault::NotDecimal(argument) => write!(f, "expected {argument}, and the word is none"),
            Fault::OutOfRange(argument) => write!(
                f,
                "expected {argument}, and the number is larger"
            ),
            Fault::MissingPool => f.write_str("expected rate or tree, and the line ends"),
            Fault::UnknownPool => f.write_str("expected rate or tree"),
            Fault::NotHex => f.write_str("expected hex digits, 0..9, a..f or A..F"),
            Fault::OddHex => f.write_str(
                "expected two hex digits for each byte, and one is left over",
            ),
            Fault::Extra => f.write_str("expected the end of the line, and a word follows"),
        }
    }
}

impl std::error::Error for Fault {}
