// The actions of which every call is made up, each with at most one report.
ghost use Rattle.std.specs.Prelude.{◌≡◌, ◌<◌};
ghost use Rattle.controller.specs.Gave.{Did};
ghost use Rattle.controller.specs.Turn.{Ready, Waitable};
ghost use Rattle.controller.specs.View.{view};
ghost use Rattle.rules.specs.Actions.{fail_waiting, free_bearer, drop_bearer, free_grant, establish, enqueue};

use crate::controller::Controller;
use crate::writing::Sheet;
use admission::RadioPool;
use rules::bearer::{Bearer, Request};
use rules::report::{Cause, ReportKind};

impl<P: RadioPool> Controller<P> {
    // The RAB's waiting request fails, if it has one: kind 3.
    pub(super) fn fail_waiting(&mut self, cause: Cause, place: u8, rab: u8, sheet: &mut Sheet<'_>)
        ensures { Did P.radio P.state (fail_waiting cause place rab) self.old self.new sheet.old sheet.new }
    {
        if self.rabs.request(place, rab).is_some() {
            self.rabs.remove_request(place, rab);
            sheet.tell(ReportKind::Failed, place, rab, cause);
        }
    }

    // A set-up RAB's grant is given back, and it stands in the table no more.
    pub(super) fn free_bearer(&mut self, b: &Bearer)
        ensures { view P.radio P.state self.new ≡ free_bearer b.now (view P.radio P.state self.old) }
    {
        self.rabs.remove_bearer(b.place, b.rab);
        self.pool.give(b.grant);
    }

    // A set-up RAB goes: kind 4, 6 or 7.
    pub(super) fn drop_bearer(
        &mut self,
        kind: ReportKind,
        cause: Cause,
        b: &Bearer,
        sheet: &mut Sheet<'_>,
    )
        ensures { Did P.radio P.state (drop_bearer kind cause b.now) self.old self.new sheet.old sheet.new }
    {
        self.free_bearer(b);
        sheet.tell(kind, b.place, b.rab, cause);
    }

    // The smallest grant number that is not held; 63 where all before it are, even if it is held too,
    // as the rules define it: the take is then refused.
    fn free_grant(&self) -> u8
        ensures answer { result ≡ free_grant (view P.radio P.state self.now) }
        ensures small { result < 64 }
    {
        (0..63u8).find(|g| self.pool.held(*g) == 0).unwrap_or(63)
    }

    // A new grant is taken, and the RAB stands in the table.
    fn enter_new(&mut self, q: &Request)
        requires { Ready q.now (view P.radio P.state self.old) }
        ensures { view P.radio P.state self.new ≡ (establish q.now (view P.radio P.state self.old)).state }
    {
        let grant = self.free_grant();
        self.pool.take(grant, q.size);
        self.rabs.enter(Bearer {
            place: q.place,
            rab: q.rab,
            grant,
            size: q.size,
            priority: q.priority,
        });
    }

    // A RAB is set up with a new grant: kind 1, with the size that it now has.
    pub(super) fn establish(&mut self, q: &Request, sheet: &mut Sheet<'_>)
        requires { Ready q.now (view P.radio P.state self.old) }
        ensures { Did P.radio P.state (establish q.now) self.old self.new sheet.old sheet.new }
    {
        self.enter_new(q);
        sheet.tell_done(q.place, q.rab, q.size);
    }

    // A request waits, behind those that came before: kind 2.
    pub(super) fn enqueue(&mut self, q: &Request, sheet: &mut Sheet<'_>)
        requires { Waitable q.now (view P.radio P.state self.old) }
        ensures { Did P.radio P.state (enqueue q.now) self.old self.new sheet.old sheet.new }
    {
        self.rabs.enqueue(*q);
        sheet.tell(ReportKind::Queued, q.place, q.rab, Cause::NoCause);
    }
}
