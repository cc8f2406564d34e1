// Codes that name nothing.
ghost use Rattle.rules.specs.Telling.{code_text};
ghost use Rattle.std.specs.Prelude.{Some};

use std::error::Error;
use std::fmt;

// A code that no domain, timer or frame kind has.
#[derive(Clone, Copy, Debug, PartialEq, Eq)]
pub struct UnknownCode(pub u8);

impl fmt::Display for UnknownCode {
    ghost output = { λ code. Some (code_text code) };

    fn fmt<W: fmt::Write>(&self, f: &mut fmt::Formatter<W>) -> fmt::Result {
        write!(f, "unknown code {}", self.0)
    }
}

impl Error for UnknownCode {}
