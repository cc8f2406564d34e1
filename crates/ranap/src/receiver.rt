// A frame read and its message checked.
ghost use Rattle.ranap.specs.Distinct.{Receives};
ghost use Rattle.ranap.specs.View.{answered};
ghost use Rattle.rules.specs.Frame.{received};
ghost use Rattle.std.specs.Prelude.{◌≡◌};

use crate::checker::check;
use crate::message::Message;
use crate::reader::read;
use rules::refusal::Refusal;

// What a frame says, or why it is refused by the reader or the message check.
// Not inlined: the room for 32 items would be cleared at each line of a script.
#[inline(never)]
pub fn receive(frame: &[u8]) -> Result<Message, Refusal>
    ensures answer { answered result ≡ received frame.now }
    ensures accepted { Receives frame.now (answered result) }
{
    let message = read(frame)?;
    check(message.items())?;
    Ok(message)
}
