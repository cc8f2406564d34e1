// Connections, their timers, and the tickets of relocations.
ghost use Rattle.rules.specs.Codes.{Decodes};
ghost use Rattle.rules.specs.Connections.{closed, opened, preparing, prepared, relocating, of_ue, vacant};
ghost use Rattle.rules.specs.Numbers.{domain_number, domain_of, timer_number, timer_of};
ghost use Rattle.rules.specs.Telling.{state_text, domain_text};
ghost use Rattle.std.specs.Prelude.{◌≡◌, Some};

use crate::code::UnknownCode;
use std::fmt;

#[derive(Clone, Copy, Debug, PartialEq, Eq)]
pub enum ConnectionState {
    Closed,
    Open,
    Preparing,
    Prepared,
    Executed,
}

// Named tests beside `==`: the contracts of other crates cite each.
impl ConnectionState {
    pub fn is_closed(self) -> bool
        ensures { result ≡ closed self }
    {
        self == ConnectionState::Closed
    }

    pub fn is_open(self) -> bool
        ensures { result ≡ opened self }
    {
        self == ConnectionState::Open
    }

    pub fn is_preparing(self) -> bool
        ensures { result ≡ preparing self }
    {
        self == ConnectionState::Preparing
    }

    pub fn is_prepared(self) -> bool
        ensures { result ≡ prepared self }
    {
        self == ConnectionState::Prepared
    }

    // Preparing, prepared or executed.
    pub fn is_relocating(self) -> bool
        ensures { result ≡ relocating self }
    {
        !matches!(self, ConnectionState::Closed | ConnectionState::Open)
    }
}

impl fmt::Display for ConnectionState {
    ghost output = { λ state. Some (state_text state) };

    fn fmt<W: fmt::Write>(&self, f: &mut fmt::Formatter<W>) -> fmt::Result {
        f.write_str(match self {
            ConnectionState::Closed => "closed",
            ConnectionState::Open => "open",
            ConnectionState::Preparing => "preparing",
            ConnectionState::Prepared => "prepared",
            ConnectionState::Executed => "executed",
        })
    }
}

// The core network domain of an Iu connection.
#[derive(Clone, Copy, Debug, PartialEq, Eq)]
pub enum Domain {
    Cs = 0,
    Ps = 1,
}

impl Domain {
    pub fn number(self) -> u8
        ensures { result ≡ domain_number self }
    {
        self as u8
    }
}

impl TryFrom<u8> for Domain {
    type Error = UnknownCode;

    ghost try_from_gives = { Decodes domain_of };

    fn try_from(code: u8) -> Result<Self, UnknownCode> {
        match code {
            0 => Ok(Domain::Cs),
            1 => Ok(Domain::Ps),
            _ => Err(UnknownCode(code)),
        }
    }
}

impl fmt::Display for Domain {
    ghost output = { λ domain. Some (domain_text domain) };

    fn fmt<W: fmt::Write>(&self, f: &mut fmt::Formatter<W>) -> fmt::Result {
        f.write_str(match self {
            Domain::Cs => "CS",
            Domain::Ps => "PS",
        })
    }
}

// TQUEUING and TRELOCprep.
#[derive(Clone, Copy, Debug, PartialEq, Eq)]
pub enum Timer {
    Tqueuing = 1,
    Trelocprep = 2,
}

impl Timer {
    pub fn number(self) -> u8
        ensures { result ≡ timer_number self }
    {
        self as u8
    }
}

impl TryFrom<u8> for Timer {
    type Error = UnknownCode;

    ghost try_from_gives = { Decodes timer_of };

    fn try_from(code: u8) -> Result<Self, UnknownCode> {
        match code {
            1 => Ok(Timer::Tqueuing),
            2 => Ok(Timer::Trelocprep),
            _ => Err(UnknownCode(code)),
        }
    }
}

// What stands at a connection place. UE and domain mean nothing while it is closed.
// It is flat, since the rules give every place a state, a UE and a domain.
#[derive(Clone, Copy, Debug, PartialEq, Eq)]
pub struct Connection {
    pub state: ConnectionState,
    pub ue: u32,
    pub domain: Domain,
}

impl Connection {
    // A place at which nothing stands.
    pub const VACANT: Connection = Connection {
        state: ConnectionState::Closed,
        ue: 0,
        domain: Domain::Cs,
    };

    // Whether it stands and is the UE's.
    pub fn is_of(&self, ue: u32) -> bool
        ensures { result ≡ of_ue ue self.now }
    {
        !self.state.is_closed() && self.ue == ue
    }
}

// By hand: its clause promises that `VACANT` is the rules' vacant place, and a derived one has no clause.
impl Default for Connection {
    ghost is_default = { λ connection. connection ≡ vacant };

    fn default() -> Connection {
        Connection::VACANT
    }
}

// What the controller keeps of a ticket that is out: whose it is, and whether its relocation still runs.
#[derive(Clone, Copy, Debug, PartialEq, Eq)]
pub struct TicketRecord {
    pub ue: u32,
    pub running: bool,
}

// What a ticket is known by: the number of its controller and one of its own, 0 to 15.
#[derive(Clone, Copy, Debug, PartialEq, Eq)]
pub struct TicketId {
    pub controller: u16,
    pub number: u8,
}
