// A release item on an open connection.
ghost use Rattle.controller.specs.Gave.{Did};
ghost use Rattle.rules.specs.Request.{supersede, release_unset, release};
ghost use Rattle.rules.specs.Tables.{waits_as};

use crate::controller::Controller;
use crate::writing::Sheet;
use admission::RadioPool;
use rules::report::{Cause, ReportKind};

impl<P: RadioPool> Controller<P> {
    // The RAB's waiting request fails with cause 9, if it has one.
    pub(super) fn supersede(&mut self, place: u8, rab: u8, sheet: &mut Sheet<'_>)
        ensures { Did P.radio P.state (supersede place rab) self.old self.new sheet.old sheet.new }
    {
        self.fail_waiting(Cause::RequestSuperseded, place, rab, sheet);
    }

    // A RAB that is not set up: released if it waited, else unknown.
    fn release_unset(&mut self, place: u8, rab: u8, sheet: &mut Sheet<'_>)
        ensures { Did P.radio P.state (λ x. release_unset (waits_as place rab x.queue) place rab x) self.old self.new sheet.old sheet.new }
    {
        if self.rabs.request(place, rab).is_none() {
            sheet.tell(ReportKind::NotReleased, place, rab, Cause::InvalidRabId);
        } else {
            self.supersede(place, rab, sheet);
            sheet.tell(ReportKind::Released, place, rab, Cause::NoCause);
        }
    }

    // A waiting request is superseded, a grant is given back: kind 4 for a known RAB, kind 5 for an unknown one.
    pub(super) fn release(&mut self, place: u8, rab: u8, sheet: &mut Sheet<'_>)
        ensures { Did P.radio P.state (release place rab) self.old self.new sheet.old sheet.new }
    {
        match self.rabs.bearer(place, rab) {
            None => self.release_unset(place, rab, sheet),
            Some(b) => {
                self.supersede(place, rab, sheet);
                self.drop_bearer(ReportKind::Released, Cause::NoCause, &b, sheet);
            }
        }
    }
}
