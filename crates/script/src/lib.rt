// What one line of a script says.
#![tactic(auto)]

ghost use Rattle.script.specs.Saying.{said, Agrees};
ghost use Rattle.script.specs.Script.{meaning, comment, may_take_memory};
ghost use Rattle.std.specs.Prelude.{◌≡◌, true, IsErrOf};

use crate::verb::Verb;
use crate::words::Words;
use std::alloc::Global;

mod arguments;
mod calls;
mod error;
mod hex;
mod number;
mod said;
mod verb;
mod words;

pub use error::Error;
pub use said::{Argument, Fault, Line, Pool};

fn is_comment(line: &[u8]) -> bool
    ensures { result ≡ comment line.now }
{
    line.first() == Some(&b'#')
}

// What a line without its newline says, or its first fault from the left.
// Only a frame line or a room line takes memory, so no other fails for want of it.
pub fn parse(heap: Global, line: &[u8]) -> Result<Line, Error>
    ensures answer { Agrees said result (meaning line.now) }
    ensures memory { IsErrOf result Error.NoMemory → may_take_memory line.now ≡ true }
{
    if is_comment(line) {
        return Ok(Line::Skipped);
    }
    let mut words = Words::new(line);
    let Some(first) = words.next() else {
        return Ok(Line::Skipped);
    };
    let verb = Verb::try_from(first)?;
    calls::call(heap, verb, words)
}
