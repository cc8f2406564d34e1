// Which tickets are out.
ghost use Rattle.bearers.specs.Places.{tickets_of};
ghost use Rattle.rules.specs.Refusals.{any_ticket};
ghost use Rattle.rules.specs.Relocation.{stopped};
ghost use Rattle.rules.specs.Tables.{is_some, first_from};
ghost use Rattle.std.specs.Prelude.{◌≡◌, ◌<◌, not, map, replicate, None, IfSome, unwrap_or, slice_index_or, slice_set};

use crate::slots::{at, put};
use crate::tickets::Tickets;
use rules::connection::TicketRecord;

impl Tickets {
    // No ticket is out.
    pub fn new() -> Tickets
        ensures { tickets_of result ≡ replicate 16 None }
    {
        Tickets { all: [None; 16] }
    }

    // What is kept of the ticket of a number, if it is out; over 15 there is none.
    pub fn at(&self, number: u8) -> Option<TicketRecord>
        ensures { result ≡ slice_index_or (tickets_of self.now) number None }
    {
        at(&self.all, number)
    }

    // Whether the ticket of a number is out.
    pub fn is_out(&self, number: u8) -> bool
        ensures { result ≡ is_some (slice_index_or (tickets_of self.now) number None) }
    {
        self.at(number).is_some()
    }

    // The smallest number that no ticket out has, if there is one.
    pub fn free(&self) -> Option<u8>
        ensures answer { unwrap_or result 16 ≡
            first_from (λ i. not (is_some (slice_index_or (tickets_of self.now) i None))) 0 16 }
        ensures within { IfSome result (λ number. number < 16) }
    {
        (0..16u8).find(|number| !self.is_out(*number))
    }

    // Whether a ticket of the UE is out.
    pub fn any_of(&self, ue: u32) -> bool
        ensures { result ≡ any_ticket ue (tickets_of self.now) }
    {
        self.all
            .iter()
            .any(|ticket| ticket.is_some_and(|t| t.ue == ue))
    }

    // What is kept under a number is replaced; over 15 there is none.
    pub fn put(&mut self, number: u8, ticket: Option<TicketRecord>)
        ensures { tickets_of self.new ≡ slice_set (tickets_of self.old) number ticket }
    {
        put(&mut self.all, number, ticket);
    }

    // The UE's relocation has ended; its ticket stays out.
    pub fn stop(&mut self, ue: u32)
        ensures { tickets_of self.new ≡ map (stopped ue) (tickets_of self.old) }
    {
        for ticket in &mut self.all {
            if let Some(t) = ticket
                && t.ue == ue
            {
                t.running = false;
            }
        }
    }
}
