// Controllers of which the law of runs holds: see specs/. The lemmas by which book and state agree through each call are in proofs/.
#![tactic(auto)]

mod site;

ghost use Rattle.controller.specs.View.{view};
ghost use Rattle.rules.specs.Calls.{new_state};
ghost use Rattle.runs.specs.Law.{LawOfRuns, ReportsBounded};
ghost use Rattle.std.specs.Prelude.{◌≡◌, IfOk};

use admission::RadioPool;
use controller::Controller;
pub use site::Site;
use std::alloc::{AllocError, Global};

// It does nothing, and carries that of every new controller with a sound pool, after every list of calls,
// the next call makes at most 288 reports.
pub fn next_call_bounded<P: RadioPool>()
    ensures { ReportsBounded P.RadioPool.radio }
{}

// A new controller over a pool that it empties first. If the pool was sound, the law of runs holds of the controller:
// whatever list of calls is made, what the book of that run says is so.
pub fn commission<P: RadioPool + Drop>(
    number: u16,
    pool: P,
    heap: Global,
) -> Result<Controller<P>, AllocError>
    ensures new { IfOk result (λ c. view P.RadioPool.radio P.RadioPool.state c ≡ new_state P.RadioPool.radio number (P.RadioPool.state pool)) }
    ensures law { IfOk result (λ c. P.RadioPool.radio.sound (P.RadioPool.state pool) → LawOfRuns P.RadioPool.radio (view P.RadioPool.radio P.RadioPool.state c)) }
{
    Controller::new(number, pool, heap)
}
