// The first word of a line, which chooses the call.
ghost use Rattle.script.specs.Verbs.{verb_of};
ghost use Rattle.script.specs.declared.said.Fault.TheVariants.{UnknownWord};
ghost use Rattle.std.specs.Prelude.{◌≡◌, Some, None, MatchResult};

use crate::said::Fault;

#[derive(Clone, Copy)]
pub enum Verb {
    Cabinet,
    Open,
    Frame,
    Expiry,
    Start,
    Execute,
    Withdraw,
    Rab,
    Grant,
    Room,
    Show,
}

// The call that a first word chooses.
impl TryFrom<&[u8]> for Verb {
    type Error = Fault;

    ghost try_from_gives = { λ word r. MatchResult r (λ v. verb_of word.now ≡ Some v) (λ f. (verb_of word.now ≡ None) × (f ≡ UnknownWord)) };

    fn try_from(word: &[u8]) -> Result<Self, Fault> {
        match word {
            b"cabinet" => Ok(Verb::Cabinet),
            b"open" => Ok(Verb::Open),
            b"frame" => Ok(Verb::Frame),
            b"expiry" => Ok(Verb::Expiry),
            b"start" => Ok(Verb::Start),
            b"execute" => Ok(Verb::Execute),
            b"withdraw" => Ok(Verb::Withdraw),
            b"rab" => Ok(Verb::Rab),
            b"grant" => Ok(Verb::Grant),
            b"room" => Ok(Verb::Room),
            b"show" => Ok(Verb::Show),
            _ => Err(Fault::UnknownWord),
        }
    }
}
