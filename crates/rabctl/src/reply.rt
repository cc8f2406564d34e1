// What a line is answered, before the cabinet stands and after.
ghost use Rattle.controller.specs.Listed.{listed};
ghost use Rattle.rabctl.specs.Cabinets.{stands};
ghost use Rattle.rabctl.specs.Replies.{answered, before_cabinet, at_cabinet, left_at, told_at};
ghost use Rattle.script.specs.Saying.{said};
ghost use Rattle.std.specs.Prelude.{◌≡◌, length};

use crate::answer::Answer;
use crate::cabinet::Cabinet;
use crate::grants;
use crate::problem::{Problem, Unbuilt};
use rules::refusal::Refusal;
use rules::report::Report;
use script::Line;

// Until the cabinet stands, only a cabinet line is carried out.
pub fn before_cabinet(line: &Line) -> Answer
    ensures { result ≡ before_cabinet (said line.now) }
{
    match line {
        Line::Skipped => Answer::Silence,
        Line::Cabinet { .. } => Answer::Ready,
        _ => Answer::Error(Problem::BeforeCabinet),
    }
}

// The controller carries a line out, or refuses it.
fn carried_out(
    cabinet: &mut Cabinet,
    line: &Line,
    reports: &mut [Report],
) -> Result<Answer, Refusal>
    ensures answer { answered (λ a. a) result ≡ at_cabinet (length reports.old) (stands cabinet.old) (said line.now) }
    ensures state { stands cabinet.new ≡ left_at (length reports.old) (stands cabinet.old) (said line.now) }
    ensures list { reports.new ≡ listed (told_at (length reports.old) (stands cabinet.old) (said line.now)) reports.old }
{
    Ok(match line {
        Line::Skipped => Answer::Silence,
        Line::Cabinet { .. } => Answer::Error(Problem::SecondCabinet),
        Line::Open { place, ue, domain } => {
            cabinet.open(*place, *ue, *domain)?;
            Answer::Opened
        }
        Line::Frame(bytes) => Answer::Frame(cabinet.frame(bytes.as_slice(), reports)?),
        Line::Expiry { place, timer } => Answer::Expiry(cabinet.expiry(*place, *timer, reports)?),
        Line::Rab { place, rab } => Answer::Rab(cabinet.rab(*place, *rab)?),
        Line::Grant { grant } => Answer::Held(cabinet.held(*grant)),
        Line::Room { size, named } => {
            let given = grants::named_set(named.as_slice());
            Answer::Room(cabinet.room(&given, *size))
        }
        Line::Show => Answer::Shown,
        Line::Start { .. } => Answer::Error(Problem::NotBuilt(Unbuilt::Start)),
        Line::Execute { .. } => Answer::Error(Problem::NotBuilt(Unbuilt::Execute)),
        Line::Withdraw { .. } => Answer::Error(Problem::NotBuilt(Unbuilt::Withdraw)),
    })
}

// The answer once the cabinet stands. The reports stand in the first places of the list.
pub fn at_cabinet(cabinet: &mut Cabinet, line: &Line, reports: &mut [Report]) -> Answer
    ensures answer { result ≡ at_cabinet (length reports.old) (stands cabinet.old) (said line.now) }
    ensures state { stands cabinet.new ≡ left_at (length reports.old) (stands cabinet.old) (said line.now) }
    ensures list { reports.new ≡ listed (told_at (length reports.old) (stands cabinet.old) (said line.now)) reports.old }
{
    carried_out(cabinet, line, reports).unwrap_or_else(Answer::Refused)
}
