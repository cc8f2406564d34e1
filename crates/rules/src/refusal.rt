// Calls that are refused.
ghost use Rattle.rules.specs.Numbers.{reason_number, layer_number, layer_of};
ghost use Rattle.rules.specs.Telling.{reason_text, refusal_text};
ghost use Rattle.std.specs.Prelude.{◌≡◌, Some};

use std::fmt;

#[derive(Clone, Copy, Debug, PartialEq, Eq)]
pub enum Reason {
    ShortList = 1,
    BrokenFrame = 2,
    RepeatedRab = 3,
    BadPlace = 4,
    PlaceTaken = 5,
    DomainTaken = 6,
    BadCode = 7,
    UeRelocating = 8,
    NotRunning = 9,
    UeAbsent = 10,
    TicketOut = 11,
    TicketsGone = 12,
    ForeignTicket = 13,
    NotPrepared = 14,
}

impl Reason {
    pub fn number(self) -> u8
        ensures { result ≡ reason_number self }
    {
        self as u8
    }

    pub fn layer(self) -> Layer
        ensures { result ≡ layer_of self }
    {
        match self {
            Reason::BrokenFrame => Layer::Frame,
            Reason::RepeatedRab => Layer::Message,
            _ => Layer::Controller,
        }
    }
}

impl fmt::Display for Reason {
    ghost output = { λ reason. Some (reason_text reason) };

    fn fmt<W: fmt::Write>(&self, f: &mut fmt::Formatter<W>) -> fmt::Result {
        f.write_str(match self {
            Reason::ShortList => "report list too short",
            Reason::BrokenFrame => "broken frame",
            Reason::RepeatedRab => "repeated RAB",
            Reason::BadPlace => "bad place",
            Reason::PlaceTaken => "place taken",
            Reason::DomainTaken => "domain taken",
            Reason::BadCode => "bad code",
            Reason::UeRelocating => "UE relocating",
            Reason::NotRunning => "not running",
            Reason::UeAbsent => "UE absent",
            Reason::TicketOut => "ticket out",
            Reason::TicketsGone => "tickets gone",
            Reason::ForeignTicket => "foreign ticket",
            Reason::NotPrepared => "not prepared",
        })
    }
}

// Who refused: the frame reader, the message check or the controller.
#[derive(Clone, Copy, Debug, PartialEq, Eq)]
pub enum Layer {
    Frame = 1,
    Message = 2,
    Controller = 3,
}

impl Layer {
    pub fn number(self) -> u8
        ensures { result ≡ layer_number self }
    {
        self as u8
    }
}

// Why a call was refused and where: an offset in the frame for the layers 1 and 2, a connection place for layer 3.
// A refusal that names no place has place 0: the rules give every refusal a reason, a layer and a place.
#[derive(Clone, Copy, Debug, PartialEq, Eq)]
pub struct Refusal {
    pub reason: Reason,
    pub place: u16,
}

impl Refusal {
    pub fn number(&self) -> u8
        ensures { result ≡ reason_number self.now.reason }
    {
        self.reason.number()
    }

    pub fn layer(&self) -> u8
        ensures { result ≡ layer_number (layer_of self.now.reason) }
    {
        self.reason.layer().number()
    }
}

impl fmt::Display for Refusal {
    ghost output = { λ refusal. Some (refusal_text refusal) };

    fn fmt<W: fmt::Write>(&self, f: &mut fmt::Formatter<W>) -> fmt::Result {
        write!(
            f,
            "{} layer {} place {} {}",
            self.number(),
            self.layer(),
            self.place,
            self.reason
        )
    }
}
