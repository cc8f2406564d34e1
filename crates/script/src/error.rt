// Why a line is not read.
ghost use Rattle.script.specs.Telling.{error_text};
ghost use Rattle.script.specs.declared.error.Error.TheVariants.{Fault as Faulty, NoMemory};
ghost use Rattle.std.specs.Prelude.{◌≡◌, Some};

use crate::said::Fault;
use std::alloc::{AllocError, AllocFailed};
use std::fmt;

#[derive(Clone, Copy, Debug, PartialEq, Eq)]
pub enum Error {
    Fault(Fault),
    NoMemory,
}

impl From<Fault> for Error {
    ghost from_gives = { λ f e. e ≡ Faulty f };

    fn from(fault: Fault) -> Self {
        Self::Fault(fault)
    }
}

impl From<AllocError> for Error {
    ghost from_gives = { λ _ e. e ≡ NoMemory };

    fn from(_: AllocError) -> Self {
        Self::NoMemory
    }
}

impl<T: Drop> From<AllocFailed<T>> for Error {
    ghost from_gives = { λ _ e. e ≡ NoMemory };

    fn from(_: AllocFailed<T>) -> Self {
        Self::from(AllocError)
    }
}

impl fmt::Display for Error {
    ghost output = { λ e. Some (error_text e) };

    fn fmt<W: fmt::Write>(&self, f: &mut fmt::Formatter<W>) -> fmt::Result {
        match self {
            Error::Fault(fault) => write!(f, "{fault}"),
            Error::NoMemory => f.write_str("expected a line that fits into memory"),
        }
    }
}

impl std::error::Error for Error {}
