// The run of a script: its cabinet, and whether a line was an error.
ghost use Rattle.controller.specs.Listed.{listed};
ghost use Rattle.rabctl.specs.Cabinets.{stands, standing};
ghost use Rattle.rabctl.specs.Replies.{is_error, or_error, before_cabinet, made_by, line_reply, after_line, line_told, makes_one, may_want_memory, no_memory};
ghost use Rattle.rabctl.specs.declared.answer.Answer.TheVariants.{Error};
ghost use Rattle.script.specs.Saying.{said};
ghost use Rattle.script.specs.Script.{meaning};
ghost use Rattle.std.specs.Option.{option_map};
ghost use Rattle.std.specs.Prelude.{◌≡◌, true, false, ◌||◌, length, IfOk, IsErrOf, None, OnErr, OnOk, ◌≢◌};

use crate::answer::Answer;
use crate::cabinet::{Cabinet, Pool};
use crate::problem::Problem;
use crate::reply;
use controller::Controller;
use rules::report::Report;
use script::Line;
use std::alloc::{AllocError, Global};

#[derive(Drop)]
pub struct Desk {
    // None before the cabinet stands.
    cabinet: Option<Cabinet>,
    failed: bool,
}

// The cabinet that a line makes where none stands.
fn made_by(heap: Global, line: &Line) -> Result<Option<Cabinet>, AllocError>
    ensures made { IfOk result (λ c. standing c ≡ made_by (said line.now)) }
    ensures memory { OnErr result (makes_one None (said line.now) ≡ true) }
{
    match line {
        Line::Cabinet { number, pool } => {
            let cabinet = Controller::new(*number, Pool::from(*pool), heap)?;
            Ok(Some(cabinet))
        }
        _ => Ok(None),
    }
}

impl Desk {
    pub fn new() -> Desk
        ensures cabinet { standing result.cabinet ≡ None }
        ensures failed { result.failed ≡ false }
    {
        Desk {
            cabinet: None,
            failed: false,
        }
    }

    // Whether any line so far was an error.
    pub fn failed(&self) -> bool
        ensures { result ≡ self.now.failed }
    {
        self.failed
    }

    // The cabinet that stands.
    pub fn cabinet(&self) -> Option<&Cabinet>
        ensures { option_map (λ c. stands c.now) result ≡ standing self.now.cabinet }
    {
        self.cabinet.as_ref()
    }

    // Carries a line out before the cabinet stands.
    // Not inlined: the room for a whole cabinet would be cleared at each line.
    #[inline(never)]
    fn begin(&mut self, heap: Global, line: &Line) -> Result<Answer, AllocError>
        ensures answer { IfOk result (λ a. a ≡ before_cabinet (said line.now)) }
        ensures state { OnOk result (standing self.new.cabinet ≡ made_by (said line.now)) }
        ensures kept { OnErr result (standing self.new.cabinet ≡ standing self.old.cabinet) }
        ensures memory { OnErr result (makes_one None (said line.now) ≡ true) }
        ensures failed { self.new.failed ≡ self.old.failed }
    {
        self.cabinet = made_by(heap, line)?;
        Ok(reply::before_cabinet(line))
    }

    // Carries a line out.
    fn carry_out(
        &mut self,
        heap: Global,
        line: &[u8],
        reports: &mut [Report],
    ) -> Result<Answer, Problem>
        ensures answer { (result ≢ Err no_memory) → or_error result ≡ line_reply (length reports.old) (standing self.old.cabinet) (meaning line.now) }
        ensures state { (result ≢ Err no_memory) → standing self.new.cabinet ≡ after_line (length reports.old) (standing self.old.cabinet) (meaning line.now) }
        ensures list { (result ≢ Err no_memory) → reports.new ≡ listed (line_told (length reports.old) (standing self.old.cabinet) (meaning line.now)) reports.old }
        ensures kept { IsErrOf result no_memory → standing self.new.cabinet ≡ standing self.old.cabinet }
        ensures untouched { IsErrOf result no_memory → reports.new ≡ reports.old }
        ensures memory { IsErrOf result no_memory → may_want_memory (standing self.old.cabinet) line.now ≡ true }
        ensures failed { self.new.failed ≡ self.old.failed }
    {
        let said = script::parse(heap, line)?;
        match &mut self.cabinet {
            Some(cabinet) => Ok(reply::at_cabinet(cabinet, &said, reports)),
            None => Ok(self.begin(heap, &said)?),
        }
    }

    // The answer to a line, with a note of whether it is an error. Its reports stand in the first places of the list.
    // Only a frame line, a room line or the line that makes the cabinet can fail for want of memory, and then nothing is carried out.
    pub fn answer(&mut self, heap: Global, line: &[u8], reports: &mut [Report]) -> Answer
        ensures answer { (result ≢ Error no_memory) → result ≡ line_reply (length reports.old) (standing self.old.cabinet) (meaning line.now) }
        ensures state { (result ≢ Error no_memory) → standing self.new.cabinet ≡ after_line (length reports.old) (standing self.old.cabinet) (meaning line.now) }
        ensures list { (result ≢ Error no_memory) → reports.new ≡ listed (line_told (length reports.old) (standing self.old.cabinet) (meaning line.now)) reports.old }
        ensures kept { (standing self.new.cabinet ≢ after_line (length reports.old) (standing self.old.cabinet) (meaning line.now)) → standing self.new.cabinet ≡ standing self.old.cabinet }
        ensures untouched { (reports.new ≢ listed (line_told (length reports.old) (standing self.old.cabinet) (meaning line.now)) reports.old) → reports.new ≡ reports.old }
        ensures memory { may_want_memory (standing self.old.cabinet) line.now ≡ false → result ≡ line_reply (length reports.old) (standing self.old.cabinet) (meaning line.now) }
        ensures failed { self.new.failed ≡ (self.old.failed || is_error result) }
    {
        let answer = self
            .carry_out(heap, line, reports)
            .unwrap_or_else(Answer::Error);
        self.failed |= answer.is_error();
        answer
    }
}
