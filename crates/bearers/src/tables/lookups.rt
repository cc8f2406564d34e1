// Making the tables, and looking things up in them.
ghost use Rattle.bearers.specs.Order.{bearer_good, bearers_good, requests_good};
ghost use Rattle.bearers.specs.Spot.{IsAt, IsGapFor};
ghost use Rattle.bearers.specs.View.{bearers_of, queue_of};
ghost use Rattle.rules.specs.Tables.{is_some, stands_at, waits_at, set_up_as, waits_as, known_in};
ghost use Rattle.std.specs.Prelude.{◌≡◌, ◌≤◌, true, [], length, IfSome, IfOk, IfErr, find, nat_le};

use crate::tables::RabTables;
use rules::bearer::{Bearer, Request};
use std::alloc::{AllocError, Global};

impl RabTables {
    // Two empty tables, with room for 64 RABs and 64 requests.
    pub fn new(heap: Global) -> Result<RabTables, AllocError>
        ensures { IfOk result (λ t. (bearers_of t ≡ []) × (queue_of t ≡ [])) }
    {
        let bearers = Vec::with_capacity(heap, 64)?;
        let queue = Vec::with_capacity(heap, 64)?;
        Ok(RabTables { bearers, queue })
    }

    // Bearer and Request are plain data that anyone may make: what the tables keep of them is said by their look-ups.
    // The set-up RABs, by place and RAB ID.
    pub fn bearers(&self) -> &[Bearer]
        ensures answer { result.now ≡ bearers_of self.now }
        ensures good { bearers_good result.now ≡ true }
        ensures few { length result.now ≤ 64 }
    {
        &self.bearers
    }

    // The waiting requests, by arrival.
    pub fn queue(&self) -> &[Request]
        ensures answer { result.now ≡ queue_of self.now }
        ensures good { requests_good result.now ≡ true }
        ensures few { length result.now ≤ 64 }
    {
        &self.queue
    }

    // Where the RAB stands among the set-up ones, or where it belongs.
    // Place and RAB ID are two numbers here as in the rules and in the public calls; a struct of them would be taken apart at each.
    pub(super) fn search(&self, place: u8, rab: u8) -> Result<usize, usize>
        ensures found { IfOk result (IsAt place rab (bearers_of self.now)) }
        ensures absent { IfErr result (IsGapFor place rab (bearers_of self.now)) }
    {
        self.bearers
            .binary_search_by_key(&(place, rab), |b| (b.place, b.rab))
    }

    // Two tests of one line, of two tables: one generic function would be no plainer.
    // Whether the RAB is set up.
    pub(super) fn is_set_up(&self, place: u8, rab: u8) -> bool
        ensures { result ≡ is_some (set_up_as place rab (bearers_of self.now)) }
    {
        self.bearer(place, rab).is_some()
    }

    // Whether a request of the RAB waits.
    pub(super) fn is_waiting(&self, place: u8, rab: u8) -> bool
        ensures { result ≡ is_some (waits_as place rab (queue_of self.now)) }
    {
        self.request(place, rab).is_some()
    }

    // The RAB as it is set up, if it is.
    pub fn bearer(&self, place: u8, rab: u8) -> Option<Bearer>
        ensures answer { result ≡ set_up_as place rab (bearers_of self.now) }
        ensures good { IfSome result (λ b. bearer_good b ≡ true) }
    {
        self.search(place, rab).ok().map(|at| self.bearers[at])
    }

    // The RAB's waiting request, if it has one.
    pub fn request(&self, place: u8, rab: u8) -> Option<Request>
        ensures { result ≡ waits_as place rab (queue_of self.now) }
    {
        self.queue
            .iter()
            .find(|q| (q.place, q.rab) == (place, rab))
            .copied()
    }

    // How many RABs are known: set up, or waiting for their set-up.
    pub fn known(&self) -> usize
        ensures { result ≡ known_in (bearers_of self.now) (queue_of self.now) }
    {
        let waiting = self
            .queue
            .iter()
            .filter(|q| !self.is_set_up(q.place, q.rab));
        self.bearers.len() + waiting.count()
    }

    // Whether 64 RABs are known. While both tables together are shorter than that, nothing need be counted.
    pub fn is_full(&self) -> bool
        ensures { result ≡ nat_le 64 (known_in (bearers_of self.now) (queue_of self.now)) }
    {
        if self.bearers.len() + self.queue.len() < 64 {
            return false;
        }
        self.known() >= 64
    }

    // Two chains, over two tables of two types: a trait for the one field would be longer.
    // The first set-up RAB of a place, by RAB ID.
    pub fn bearer_at(&self, place: u8) -> Option<Bearer>
        ensures { result ≡ find (stands_at place) (bearers_of self.now) }
    {
        self.bearers.iter().find(|b| b.place == place).copied()
    }

    // The first waiting request of a place, by arrival.
    pub fn request_at(&self, place: u8) -> Option<Request>
        ensures { result ≡ find (waits_at place) (queue_of self.now) }
    {
        self.queue.iter().find(|q| q.place == place).copied()
    }
}
