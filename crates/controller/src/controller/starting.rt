// The start of a relocation.
ghost use Rattle.controller.specs.Checked.{Admits};
ghost use Rattle.controller.specs.Gave.{Did};
ghost use Rattle.controller.specs.Listed.{listed};
ghost use Rattle.controller.specs.Starts.{required_on};
ghost use Rattle.controller.specs.Tickets.{by_id};
ghost use Rattle.controller.specs.View.{view};
ghost use Rattle.rules.specs.Calls.{start_answer, start_outcome};
ghost use Rattle.rules.specs.Refusals.{start_refusal};
ghost use Rattle.rules.specs.Relocation.{free_ticket, relocation_runs, start};
ghost use Rattle.std.specs.Prelude.{◌≡◌, Some, length};

use crate::controller::Controller;
use crate::refusing::{at_place, check_list};
use crate::ticket::Ticket;
use crate::writing::Sheet;
use admission::RadioPool;
use rules::connection::{ConnectionState, TicketRecord};
use rules::refusal::{Reason, Refusal};
use rules::report::{Cause, Report, ReportKind};

impl<P: RadioPool> Controller<P> {
    // A start is refused for the first reason against it; else the number of its ticket is answered.
    fn check_start(&self, records: usize, ue: u32) -> Result<u8, Refusal>
        ensures { Admits (start_refusal records ue (view P.radio P.state self.now)) (Some (free_ticket (view P.radio P.state self.now))) result }
    {
        check_list(records)?;
        if self.is_relocating(ue) {
            return Err(at_place(Reason::UeRelocating, 0));
        }
        if !self.is_present(ue) {
            return Err(at_place(Reason::UeAbsent, 0));
        }
        if self.tickets.any_of(ue) {
            return Err(at_place(Reason::TicketOut, 0));
        }
        self.tickets.free().ok_or(at_place(Reason::TicketsGone, 0))
    }

    // The UE's connections are preparing, and its ticket is out under the smallest number.
    // It is searched for again: passed down, it would need a `requires` of each function on the way.
    fn run_relocation(&mut self, ue: u32)
        ensures { view P.radio P.state self.new ≡ relocation_runs ue (view P.radio P.state self.old) }
    {
        self.connections.change(ue, |_| ConnectionState::Preparing);
        if let Some(number) = self.tickets.free() {
            self.tickets
                .put(number, Some(TicketRecord { ue, running: true }));
        }
    }

    // Kind 8 on each of the UE's connections by place, and its relocation runs.
    fn require_on(&mut self, ue: u32, sheet: &mut Sheet<'_>)
        ensures { Did P.radio P.state (required_on ue) self.old self.new sheet.old sheet.new }
    {
        self.notify_on(
            ue,
            None,
            ReportKind::RelocationRequired,
            Cause::NoCause,
            sheet,
        );
        self.run_relocation(ue);
    }

    // The requests that wait on the UE's connections fail with cause 3 first.
    fn begin(&mut self, ue: u32, sheet: &mut Sheet<'_>)
        ensures { Did P.radio P.state (start ue) self.old self.new sheet.old sheet.new }
    {
        self.fail_all(
            Cause::RelocationTriggered,
            |connections, q| connections.is_of(q.place, ue),
            sheet,
        );
        self.require_on(ue, sheet);
    }

    // A UE's relocation starts. The ticket of it is answered, and the count of reports: they stand
    // in the first places of the list, and the others hold what they held.
    pub fn start(&mut self, ue: u32, reports: &mut [Report]) -> Result<(Ticket, usize), Refusal>
        ensures answer { by_id result ≡ start_answer (length reports.old) ue (view P.radio P.state self.old) }
        ensures state { view P.radio P.state self.new ≡ (start_outcome (length reports.old) ue (view P.radio P.state self.old)).state }
        ensures list { reports.new ≡ listed (start_outcome (length reports.old) ue (view P.radio P.state self.old)).reports reports.old }
    {
        let number = self.check_start(reports.len(), ue)?;
        let ticket = Ticket::new(self.number, number);
        let mut sheet = Sheet::new(reports);
        self.begin(ue, &mut sheet);
        Ok((ticket, sheet.count()))
    }
}
