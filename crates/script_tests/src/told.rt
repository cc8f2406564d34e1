// What a line says, as text to compare.
use script::{Argument, Error, Fault, Line, Pool};
use std::alloc::{AllocError, Global};

// In words of its own: what is expected is fixed here, and not taken from Display.
fn name(argument: Argument) -> &'static str {
    match argument {
        Argument::Number => "number",
        Argument::Capacity => "capacity",
        Argument::Place => "place",
        Argument::Ue => "ue",
        Argument::Domain => "domain",
        Argument::Timer => "timer",
        Argument::Ticket => "ticket",
        Argument::Rab => "rab",
        Argument::Grant => "grant",
        Argument::Size => "size",
    }
}

fn fault_told(heap: Global, fault: Fault) -> Result<String, AllocError> {
    match fault {
        Fault::UnknownWord => format!(in heap; "unknown word"),
        Fault::Missing(argument) => format!(in heap; "missing {}", name(argument)),
        Fault::NotDecimal(argument) => format!(in heap; "{} not decimal", name(argument)),
        Fault::OutOfRange(argument) => format!(in heap; "{} out of range", name(argument)),
        Fault::MissingPool => format!(in heap; "missing pool"),
        Fault::UnknownPool => format!(in heap; "unknown pool"),
        Fault::NotHex => format!(in heap; "not hex"),
        Fault::OddHex => format!(in heap; "odd hex"),
        Fault::Extra => format!(in heap; "extra word"),
    }
}

fn line_told(heap: Global, line: Line) -> Result<String, AllocError> {
    match line {
        Line::Skipped => format!(in heap; "skipped"),
        Line::Cabinet {
            number,
            pool: Pool::Tree,
        } => format!(in heap; "cabinet {number} tree"),
        Line::Cabinet {
            number,
            pool: Pool::Rate { capacity },
        } => { format!(in heap; "cabinet {number} rate {capacity}") }
        Line::Open { place, ue, domain } => format!(in heap; "open {place} {ue} {domain}"),
        Line::Frame(bytes) => format!(in heap; "frame {bytes:?}"),
        Line::Expiry { place, timer } => format!(in heap; "expiry {place} {timer}"),
        Line::Start { ue } => format!(in heap; "start {ue}"),
        Line::Execute { ticket } => format!(in heap; "execute {ticket}"),
        Line::Withdraw { ticket } => format!(in heap; "withdraw {ticket}"),
        Line::Rab { place, rab } => format!(in heap; "rab {place} {rab}"),
        Line::Grant { grant } => format!(in heap; "grant {grant}"),
        Line::Room { size, named } => format!(in heap; "room {size} {named:?}"),
        Line::Show => format!(in heap; "show"),
    }
}

pub fn told(heap: Global, line: &[u8]) -> Result<String, AllocError> {
    match script::parse(heap, line) {
        Ok(line) => line_told(heap, line),
        Err(Error::Fault(fault)) => fault_told(heap, fault),
        Err(Error::NoMemory) => Err(AllocError),
    }
}
