// A set-up or modify item on an open connection.
ghost use Rattle.controller.specs.Gave.{Did};
ghost use Rattle.controller.specs.View.{view};
ghost use Rattle.rules.specs.Request.{assign_anew, assign};
ghost use Rattle.rules.specs.Tables.{waits_as};
ghost use Rattle.std.specs.Prelude.{◌≡◌, None};

use crate::controller::Controller;
use crate::controller::checks::request_for;
use crate::writing::Sheet;
use admission::RadioPool;
use rules::item::Assignment;
use rules::report::ReportKind;

impl<P: RadioPool> Controller<P> {
    // An item whose RAB does not wait: it fails by its first fault, keeps the size in use, or asks for a size.
    fn assign_anew(&mut self, place: u8, a: &Assignment, sheet: &mut Sheet<'_>)
        requires { waits_as place a.now.rab (view P.radio P.state self.old).queue ≡ None }
        ensures { Did P.radio P.state (assign_anew place a.now) self.old self.new sheet.old sheet.new }
    {
        let own = self.rabs.bearer(place, a.rab);
        if let Some(cause) = self.fault(a, own) {
            sheet.tell(ReportKind::Failed, place, a.rab, cause);
        } else if let Some(b) = own
            && !a.flags.parameters
        {
            sheet.tell_done(b.place, b.rab, b.size);
        } else {
            self.ask(&request_for(place, a, own), sheet);
        }
    }

    // A waiting request of the RAB is superseded first, whatever comes of the item.
    pub(super) fn assign(&mut self, place: u8, a: &Assignment, sheet: &mut Sheet<'_>)
        ensures { Did P.radio P.state (assign place a.now) self.old self.new sheet.old sheet.new }
    {
        self.supersede(place, a.rab, sheet);
        self.assign_anew(place, a, sheet);
    }
}
