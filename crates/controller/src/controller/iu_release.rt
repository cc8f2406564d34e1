// Iu release, and the failing of all that wait at a place.
ghost use Rattle.controller.specs.Gave.{Did};
ghost use Rattle.rules.specs.Actions.{fail_all};
ghost use Rattle.rules.specs.Events.{drop_place, close, iu_release};
ghost use Rattle.rules.specs.Queue.{serve};
ghost use Rattle.rules.specs.Tables.{waits_at};

use crate::controller::Controller;
use crate::writing::Sheet;
use admission::RadioPool;
use rules::report::{Cause, ReportKind};

impl<P: RadioPool> Controller<P> {
    // All requests that wait at a place fail, by arrival.
    pub(super) fn fail_all_at(&mut self, cause: Cause, place: u8, sheet: &mut Sheet<'_>)
        ensures { Did P.radio P.state (fail_all cause (waits_at place)) self.old self.new sheet.old sheet.new }
    {
        self.fail_all(cause, |_, q| q.place == place, sheet);
    }

    // The place's set-up RABs are gone with their connection, by RAB ID.
    fn drop_place(&mut self, place: u8, sheet: &mut Sheet<'_>)
        ensures { Did P.radio P.state (drop_place place) self.old self.new sheet.old sheet.new }
    {
        while let Some(b) = self.rabs.bearer_at(place) {
            self.drop_bearer(ReportKind::Gone, Cause::IuReleased, &b, sheet);
        }
    }

    // The place is closed, and the queue served.
    fn close_and_serve(&mut self, place: u8, sheet: &mut Sheet<'_>)
        ensures { Did P.radio P.state (λ x. serve (close place x)) self.old self.new sheet.old sheet.new }
    {
        self.connections.close(place);
        self.serve(sheet);
    }

    pub(super) fn iu_release(&mut self, place: u8, sheet: &mut Sheet<'_>)
        ensures { Did P.radio P.state (iu_release place) self.old self.new sheet.old sheet.new }
    {
        self.end_if_running(place, sheet);
        self.fail_all_at(Cause::IuReleased, place, sheet);
        self.drop_place(place, sheet);
        self.close_and_serve(place, sheet);
    }
}
