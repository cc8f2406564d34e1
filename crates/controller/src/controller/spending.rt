// The execution and the withdrawal of a relocation, each of which spends its ticket.
ghost use Rattle.controller.specs.Checked.{Checks};
ghost use Rattle.controller.specs.Gave.{Did};
ghost use Rattle.controller.specs.Listed.{listed};
ghost use Rattle.controller.specs.Tickets.{id_of, handing_back};
ghost use Rattle.controller.specs.View.{view};
ghost use Rattle.rules.specs.Calls.{execute_answer, execute_outcome, withdraw_answer, withdraw_outcome};
ghost use Rattle.rules.specs.Refusals.{foreign, execute_refusal, withdraw_refusal};
ghost use Rattle.rules.specs.Relocation.{runs, ready, execute_of, give_back, withdraw_of, withdraw};
ghost use Rattle.std.specs.Prelude.{◌≡◌, length};

use crate::controller::Controller;
use crate::refusing::{at_place, check_list};
use crate::ticket::Ticket;
use crate::writing::Sheet;
use admission::RadioPool;
use rules::connection::{ConnectionState, TicketId, TicketRecord};
use rules::refusal::{Reason, Refusal};
use rules::report::{Cause, Report};

// Whether a ticket is out and its relocation runs.
fn is_running(ticket: Option<TicketRecord>) -> bool
    ensures { result ≡ runs ticket }
{
    ticket.is_some_and(|t| t.running)
}

impl<P: RadioPool> Controller<P> {
    // Another controller's ticket, or one that is not out.
    fn is_foreign(&self, ticket: TicketId) -> bool
        ensures { result ≡ foreign ticket (view P.radio P.state self.now) }
    {
        ticket.controller != self.number || !self.tickets.is_out(ticket.number)
    }

    // An Option of the record here and below, as the definitions take one.
    // Whether the ticket's relocation runs and each of its connections is prepared.
    fn is_ready(&self, ticket: Option<TicketRecord>) -> bool
        ensures { result ≡ ready ticket (view P.radio P.state self.now) }
    {
        ticket.is_some_and(|t| t.running && self.connections.all_prepared(t.ue))
    }

    // An execution is refused for the first reason against it.
    fn check_execute(&self, ticket: TicketId) -> Result<(), Refusal>
        ensures { Checks (execute_refusal ticket (view P.radio P.state self.now)) result }
    {
        if self.is_foreign(ticket) {
            return Err(at_place(Reason::ForeignTicket, 0));
        }
        if !self.is_ready(self.tickets.at(ticket.number)) {
            return Err(at_place(Reason::NotPrepared, 0));
        }
        Ok(())
    }

    // The ticket's connections are executed.
    fn execute_of(&mut self, ticket: Option<TicketRecord>)
        ensures { view P.radio P.state self.new ≡ execute_of ticket (view P.radio P.state self.old) }
    {
        if let Some(t) = ticket {
            self.connections.change(t.ue, |_| ConnectionState::Executed);
        }
    }

    // The ticket's number is free again.
    fn give_back(&mut self, number: u8)
        ensures { view P.radio P.state self.new ≡ give_back number (view P.radio P.state self.old) }
    {
        self.tickets.put(number, None);
    }

    // A relocation is executed. It reports nothing; a refusal hands the ticket back.
    pub fn execute(&mut self, ticket: Ticket) -> Result<(), (Ticket, Refusal)>
        ensures answer { result ≡ handing_back ticket (execute_answer (id_of ticket) (view P.radio P.state self.old)) }
        ensures state { view P.radio P.state self.new ≡ (execute_outcome (id_of ticket) (view P.radio P.state self.old)).state }
    {
        let id = ticket.id();
        if let Err(refusal) = self.check_execute(id) {
            return Err((ticket, refusal));
        }
        let kept = self.tickets.at(id.number);
        self.execute_of(kept);
        self.give_back(id.number);
        ticket.spend();
        Ok(())
    }

    // A withdrawal is refused for the first reason against it.
    fn check_withdraw(&self, records: usize, ticket: TicketId) -> Result<(), Refusal>
        ensures { Checks (withdraw_refusal records ticket (view P.radio P.state self.now)) result }
    {
        check_list(records)?;
        if self.is_foreign(ticket) {
            return Err(at_place(Reason::ForeignTicket, 0));
        }
        Ok(())
    }

    // What runs is called off: kind 9 with cause 5.
    fn call_off(&mut self, ticket: Option<TicketRecord>, sheet: &mut Sheet<'_>)
        ensures { Did P.radio P.state (withdraw_of ticket) self.old self.new sheet.old sheet.new }
    {
        if let Some(t) = ticket
            && t.running
        {
            self.cancel_all(Cause::RelocationCancelled, t.ue, sheet);
        }
    }

    // The relocation of a ticket's number is withdrawn, and the number is free again.
    fn withdraw_number(&mut self, number: u8, sheet: &mut Sheet<'_>)
        ensures { Did P.radio P.state (withdraw number) self.old self.new sheet.old sheet.new }
    {
        let kept = self.tickets.at(number);
        self.call_off(kept, sheet);
        self.give_back(number);
    }

    // A relocation is withdrawn. Whether it still ran is answered, and the count of reports: they stand
    // in the first places of the list, and the others hold what they held. A refusal hands the ticket back.
    // The pair is a public answer, as the rules give it.
    pub fn withdraw(
        &mut self,
        ticket: Ticket,
        reports: &mut [Report],
    ) -> Result<(bool, usize), (Ticket, Refusal)>
        ensures answer { result ≡ handing_back ticket (withdraw_answer (length reports.old) (id_of ticket) (view P.radio P.state self.old)) }
        ensures state { view P.radio P.state self.new ≡ (withdraw_outcome (length reports.old) (id_of ticket) (view P.radio P.state self.old)).state }
        ensures list { reports.new ≡ listed (withdraw_outcome (length reports.old) (id_of ticket) (view P.radio P.state self.old)).reports reports.old }
    {
        let id = ticket.id();
        if let Err(refusal) = self.check_withdraw(reports.len(), id) {
            return Err((ticket, refusal));
        }
        let ran = is_running(self.tickets.at(id.number));
        let mut sheet = Sheet::new(reports);
        self.withdraw_number(id.number, &mut sheet);
        ticket.spend();
        Ok((ran, sheet.count()))
    }
}
