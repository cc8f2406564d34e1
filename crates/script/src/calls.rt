// What a line says whose first word is known.
ghost use Rattle.script.specs.Saying.{said, Agrees, LeadsTo};
ghost use Rattle.script.specs.Script.{call_of, ended, takes_memory};
ghost use Rattle.std.specs.Prelude.{◌≡◌, true, IsErrOf};

use crate::error::Error;
use crate::said::{Argument, Line};
use crate::verb::Verb;
use crate::words::Words;
use crate::{hex, number};
use std::alloc::Global;

// Reads the arguments of a line whose first word is `verb`. Words may be left after them.
// The casts lose nothing: number has checked the range of each.
fn read(heap: Global, verb: Verb, words: &mut Words<'_>) -> Result<Line, Error>
    ensures answer { LeadsTo (λ line. ended (said line) words.new) result (call_of verb words.old) }
    ensures memory { IsErrOf result Error.NoMemory → takes_memory verb ≡ true }
{
    Ok(match verb {
        Verb::Cabinet => Line::Cabinet {
            number: words.number(Argument::Number)? as u16,
            pool: words.pool()?,
        },
        Verb::Open => Line::Open {
            place: words.number(Argument::Place)? as u8,
            ue: words.number(Argument::Ue)?,
            domain: words.number(Argument::Domain)? as u8,
        },
        Verb::Frame => Line::Frame(words.gather(heap, hex::add_bytes)?),
        Verb::Expiry => Line::Expiry {
            place: words.number(Argument::Place)? as u8,
            timer: words.number(Argument::Timer)? as u8,
        },
        Verb::Start => Line::Start {
            ue: words.number(Argument::Ue)?,
        },
        Verb::Execute => Line::Execute {
            ticket: words.number(Argument::Ticket)? as u8,
        },
        Verb::Withdraw => Line::Withdraw {
            ticket: words.number(Argument::Ticket)? as u8,
        },
        Verb::Rab => Line::Rab {
            place: words.number(Argument::Place)? as u8,
            rab: words.number(Argument::Rab)? as u8,
        },
        Verb::Grant => Line::Grant {
            grant: words.number(Argument::Grant)? as u8,
        },
        Verb::Room => Line::Room {
            size: words.number(Argument::Size)? as u8,
            named: words.gather(heap, number::add_grant)?,
        },
        Verb::Show => Line::Show,
    })
}

// What a line says whose first word is `verb`, with `words` after it.
pub fn call(heap: Global, verb: Verb, mut words: Words<'_>) -> Result<Line, Error>
    ensures answer { Agrees said result (call_of verb words.entry) }
    ensures memory { IsErrOf result Error.NoMemory → takes_memory verb ≡ true }
{
    let line = read(heap, verb, &mut words)?;
    Ok(words.end(line)?)
}
