// How a relocation is commanded, and how it ends.
ghost use Rattle.controller.specs.Gave.{Did};
ghost use Rattle.controller.specs.View.{view};
ghost use Rattle.rules.specs.Events.{end_if_running};
ghost use Rattle.rules.specs.Relocation.{ended, failure, cancel_all, preparation_expires, commanded};
ghost use Rattle.std.specs.Prelude.{◌≡◌};

use crate::controller::Controller;
use crate::writing::Sheet;
use admission::RadioPool;
use rules::connection::{Connection, ConnectionState};
use rules::report::{Cause, ReportKind};

impl<P: RadioPool> Controller<P> {
    // The UE's relocation has ended: its connections are open, its ticket still out.
    fn end_relocation(&mut self, ue: u32)
        ensures { view P.radio P.state self.new ≡ ended ue (view P.radio P.state self.old) }
    {
        self.connections.reopen(ue);
        self.tickets.stop(ue);
    }

    // A failure ends the relocation, with kind 9, cause 5, on the ticket's other connection.
    pub(super) fn failure(&mut self, place: u8, sheet: &mut Sheet<'_>)
        ensures { Did P.radio P.state (failure place) self.old self.new sheet.old sheet.new }
    {
        let ue = self.connections.at(place).ue;
        self.notify_on(
            ue,
            Some(place),
            ReportKind::RelocationCancel,
            Cause::RelocationCancelled,
            sheet,
        );
        self.end_relocation(ue);
    }

    // A relocation ends with kind 9 on each of the UE's connections.
    pub(super) fn cancel_all(&mut self, cause: Cause, ue: u32, sheet: &mut Sheet<'_>)
        ensures { Did P.radio P.state (cancel_all cause ue) self.old self.new sheet.old sheet.new }
    {
        self.notify_on(ue, None, ReportKind::RelocationCancel, cause, sheet);
        self.end_relocation(ue);
    }

    // TRELOCprep has run out: kind 9 with cause 4.
    pub(super) fn preparation_expires(&mut self, place: u8, sheet: &mut Sheet<'_>)
        ensures { Did P.radio P.state (preparation_expires place) self.old self.new sheet.old sheet.new }
    {
        let ue = self.connections.at(place).ue;
        self.cancel_all(Cause::TrelocprepExpiry, ue, sheet);
    }

    // A RELOCATION COMMAND makes a connection prepared.
    pub(super) fn command(&mut self, place: u8)
        ensures { view P.radio P.state self.new ≡ (commanded place (view P.radio P.state self.old)).state }
    {
        let connection = self.connections.at(place);
        self.connections.put(
            place,
            Connection {
                state: ConnectionState::Prepared,
                ..connection
            },
        );
    }

    // A running relocation ends as by a failure.
    pub(super) fn end_if_running(&mut self, place: u8, sheet: &mut Sheet<'_>)
        ensures { Did P.radio P.state (end_if_running place) self.old self.new sheet.old sheet.new }
    {
        match self.connections.at(place).state {
            ConnectionState::Preparing | ConnectionState::Prepared => self.failure(place, sheet),
            ConnectionState::Closed | ConnectionState::Open | ConnectionState::Executed => {}
        }
    }
}
