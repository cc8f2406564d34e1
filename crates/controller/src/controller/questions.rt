// Questions, which leave everything as it is.
ghost use Rattle.admission.specs.Member.{member};
ghost use Rattle.controller.specs.View.{view};
ghost use Rattle.rules.specs.Calls.{rab_state, size_in_use, question};
ghost use Rattle.rules.specs.Connections.{at_place};
ghost use Rattle.rules.specs.Relocation.{ticket_at};
ghost use Rattle.rules.specs.Tables.{is_some};
ghost use Rattle.std.specs.Prelude.{◌≡◌};

use crate::controller::Controller;
use crate::refusing::at_place;
use admission::{GrantSet, RadioPool};
use rules::bearer::{Bearer, RabState, Request};
use rules::connection::{Connection, TicketRecord};
use rules::refusal::{Reason, Refusal};

// A RAB's state by its set-up and its waiting request.
fn state_of(bearer: Option<Bearer>, request: Option<Request>) -> RabState
    ensures { result ≡ rab_state (is_some request) (size_in_use bearer) }
{
    match (bearer, request) {
        (None, None) => RabState::Unknown,
        (None, Some(_)) => RabState::Waiting,
        (Some(b), None) => RabState::SetUp(b.size),
        (Some(b), Some(_)) => RabState::SetUpWaiting(b.size),
    }
}

impl<P: RadioPool> Controller<P> {
    // The state of a RAB, refused at a place over 15 or closed.
    pub fn rab(&self, place: u8, rab: u8) -> Result<RabState, Refusal>
        ensures { result ≡ question place rab (view P.radio P.state self.now) }
    {
        if self.is_bad_place(place) {
            return Err(at_place(Reason::BadPlace, place));
        }
        Ok(state_of(self.rabs.bearer(place, rab), self.rabs.request(place, rab)))
    }

    // What stands at a place; over 15 it is closed.
    pub fn connection(&self, place: u8) -> Connection
        ensures { result ≡ at_place place (view P.radio P.state self.now) }
    {
        self.connections.at(place)
    }

    // What is kept of the ticket of a number, if it is out; over 15 there is none.
    pub fn ticket(&self, number: u8) -> Option<TicketRecord>
        ensures { result ≡ ticket_at number (view P.radio P.state self.now) }
    {
        self.tickets.at(number)
    }

    // The set-up RABs, by place and RAB ID.
    pub fn bearers(&self) -> &[Bearer]
        ensures { result.now ≡ (view P.radio P.state self.now).bearers }
    {
        self.rabs.bearers()
    }

    // The waiting requests, by arrival.
    pub fn queue(&self) -> &[Request]
        ensures { result.now ≡ (view P.radio P.state self.now).queue }
    {
        self.rabs.queue()
    }

    // The radio pool as it stands.
    pub fn pool(&self) -> &P
        ensures { P.state result.now ≡ (view P.radio P.state self.now).pool }
    {
        &self.pool
    }

    // The size of a grant; 0 where it is not held, as the rules say it.
    pub fn held(&self, grant: u8) -> u8
        ensures { result ≡ P.radio.holds (view P.radio P.state self.now).pool grant }
    {
        self.pool.held(grant)
    }

    // Whether a size is admitted with the grants of a set given back.
    pub fn room(&self, given: &GrantSet, size: u8) -> bool
        ensures { result ≡ P.radio.admits (view P.radio P.state self.now).pool (member given.now) size }
    {
        self.pool.room(given, size)
    }
}
