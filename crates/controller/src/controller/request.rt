// One request for a size, at its turn.
// `Ready` and `Waitable` relate a request and the controller, so the type of neither can hold them.
ghost use Rattle.controller.specs.Gave.{Did};
ghost use Rattle.controller.specs.Turn.{Waitable};
ghost use Rattle.controller.specs.View.{view};
ghost use Rattle.rules.specs.Request.{pre_empt, free_own, done, wait_or_fail, ask};
ghost use Rattle.rules.specs.State.{each};
ghost use Rattle.std.specs.Prelude.{◌≡◌};

use crate::controller::Controller;
use crate::writing::Sheet;
use admission::RadioPool;
use rules::bearer::{Bearer, Request};
use rules::report::{Cause, ReportKind};

impl<P: RadioPool> Controller<P> {
    // A RAB is pre-empted: a modification waiting on it first fails, then its release is requested.
    fn pre_empt(&mut self, b: &Bearer, sheet: &mut Sheet<'_>)
        ensures { Did P.radio P.state (pre_empt b.now) self.old self.new sheet.old sheet.new }
    {
        self.fail_waiting(Cause::RabPreempted, b.place, b.rab, sheet);
        self.drop_bearer(ReportKind::ReleaseRequested, Cause::RabPreempted, b, sheet);
    }

    // Each victim in its order.
    fn pre_empt_all(&mut self, victims: &[Bearer], sheet: &mut Sheet<'_>)
        ensures { Did P.radio P.state (each pre_empt victims.now) self.old self.new sheet.old sheet.new }
    {
        for b in victims {
            self.pre_empt(b, sheet);
        }
    }

    // A modification's own grant is given back.
    fn free_own(&mut self, own: Option<Bearer>)
        ensures { view P.radio P.state self.new ≡ free_own own (view P.radio P.state self.old) }
    {
        if let Some(b) = own {
            self.free_bearer(&b);
        }
    }

    // A request is done: its own grant back first, then its victims' in their order, then a new grant.
    pub(super) fn carry_out(&mut self, q: &Request, victims: &[Bearer], sheet: &mut Sheet<'_>)
        requires { Waitable q.now (view P.radio P.state self.old) }
        ensures { Did P.radio P.state (done q.now victims.now) self.old self.new sheet.old sheet.new }
    {
        let own = self.rabs.bearer(q.place, q.rab);
        self.free_own(own);
        self.pre_empt_all(victims, sheet);
        self.establish(q, sheet);
    }

    // Without room a request waits if it may, else it fails with cause 6.
    fn wait_or_fail(&mut self, q: &Request, sheet: &mut Sheet<'_>)
        requires { Waitable q.now (view P.radio P.state self.old) }
        ensures { Did P.radio P.state (wait_or_fail q.now) self.old self.new sheet.old sheet.new }
    {
        if q.priority.queuing {
            self.enqueue(q, sheet);
        } else {
            sheet.tell(
                ReportKind::Failed,
                q.place,
                q.rab,
                Cause::MaximumBitRateNotAvailable,
            );
        }
    }

    // A request for a size: done where there is room, at once or by pre-emption.
    pub(super) fn ask(&mut self, q: &Request, sheet: &mut Sheet<'_>)
        requires { Waitable q.now (view P.radio P.state self.old) }
        ensures { Did P.radio P.state (ask q.now) self.old self.new sheet.old sheet.new }
    {
        if self.is_admitted(q) {
            self.carry_out(q, &[], sheet);
        } else if q.priority.triggers
            && let Some(victims) = self.victims(q)
        {
            self.carry_out(q, victims.as_slice(), sheet);
        } else {
            self.wait_or_fail(q, sheet);
        }
    }
}
