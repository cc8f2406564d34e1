// Refusals by the controller.
ghost use Rattle.controller.specs.Checked.{Checks};
ghost use Rattle.rules.specs.Refusals.{refusal, unless_short};
ghost use Rattle.std.specs.Prelude.{◌≡◌, None};

use rules::refusal::{Reason, Refusal};

// The last of the places of connections.
pub(crate) const LAST_PLACE: u8 = 15;

// No call makes more reports.
const MOST_REPORTS: usize = 288;

pub(crate) fn at_place(reason: Reason, place: u8) -> Refusal
    ensures { result ≡ refusal reason place }
{
    Refusal {
        reason,
        place: u16::from(place),
    }
}

// The list of reports has to hold whatever a call may report; no place is named.
pub(crate) fn check_list(records: usize) -> Result<(), Refusal>
    ensures { Checks (unless_short records None) result }
{
    if records < MOST_REPORTS {
        return Err(at_place(Reason::ShortList, 0));
    }
    Ok(())
}
