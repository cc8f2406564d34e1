// Changing the tables.
ghost use Rattle.bearers.specs.Order.{level_good, bearer_good};
ghost use Rattle.bearers.specs.View.{bearers_of, queue_of, enterable, queueable};
ghost use Rattle.rules.specs.Tables.{with_bearer, without_bearer, without_request};
ghost use Rattle.std.specs.Prelude.{◌≡◌, [], ◌∷◌, ◌++◌, if◌then◌else◌};

use crate::tables::RabTables;
use rules::bearer::{Bearer, Request};
use rules::item::Priority;

fn is_level_good(p: &Priority) -> bool
    ensures { result ≡ level_good p.now }
{
    (1..=15).contains(&p.level)
}

fn is_bearer_good(b: &Bearer) -> bool
    ensures { result ≡ bearer_good b.now }
{
    b.grant < 64 && is_level_good(&b.priority)
}

impl RabTables {
    fn is_enterable(&self, b: &Bearer) -> bool
        ensures { result ≡ enterable b.now (bearers_of self.now) (queue_of self.now) }
    {
        is_bearer_good(b)
            && !self.is_set_up(b.place, b.rab)
            && !self.is_waiting(b.place, b.rab)
            && !self.is_full()
    }

    fn is_queueable(&self, q: &Request) -> bool
        ensures { result ≡ queueable q.now (bearers_of self.now) (queue_of self.now) }
    {
        is_level_good(&q.priority)
            && !self.is_waiting(q.place, q.rab)
            && (self.is_set_up(q.place, q.rab) || !self.is_full())
    }

    // The RAB is taken out of the table of set-up RABs, if it stands there.
    pub fn remove_bearer(&mut self, place: u8, rab: u8)
        ensures bearers { bearers_of self.new ≡ without_bearer place rab (bearers_of self.old) }
        ensures queue { queue_of self.new ≡ queue_of self.old }
    {
        if let Ok(at) = self.search(place, rab) {
            self.bearers.remove(at);
        }
    }

    // The RAB's waiting request leaves the queue, if there is one.
    pub fn remove_request(&mut self, place: u8, rab: u8)
        ensures bearers { bearers_of self.new ≡ bearers_of self.old }
        ensures queue { queue_of self.new ≡ without_request place rab (queue_of self.old) }
    {
        self.queue.retain(|q| (q.place, q.rab) != (place, rab));
    }

    // A set-up RAB in its place in the table. It is refused, and nothing changes, if the RAB is set up or waits,
    // if 64 are known, or if its grant number is over 63 or its level not 1 to 15.
    // Whether it was entered. A public answer, and a bool: why it would be refused is asked beforehand.
    pub fn enter(&mut self, b: Bearer) -> bool
        ensures answer { result ≡ enterable b (bearers_of self.old) (queue_of self.old) }
        ensures bearers { bearers_of self.new ≡ (if result then with_bearer b (bearers_of self.old) else bearers_of self.old) }
        ensures queue { queue_of self.new ≡ queue_of self.old }
    {
        match self.search(b.place, b.rab) {
            Err(at) if self.is_enterable(&b) => {
                // It has room, and so cannot fail.
                let _ = self.bearers.insert(at, b);
                true
            }
            _ => false,
        }
    }

    // A request at the end of the queue. It is refused, and nothing changes, if one of its RAB waits,
    // if the RAB is not set up and 64 are known, or if its level is not 1 to 15.
    // Whether it was queued. A public answer, and a bool: why it would be refused is asked beforehand.
    pub fn enqueue(&mut self, q: Request) -> bool
        ensures answer { result ≡ queueable q (bearers_of self.old) (queue_of self.old) }
        ensures bearers { bearers_of self.new ≡ bearers_of self.old }
        ensures queue { queue_of self.new ≡ (if result then queue_of self.old ++ q ∷ [] else queue_of self.old) }
    {
        if !self.is_queueable(&q) {
            return false;
        }
        // It has room, and so cannot fail.
        let _ = self.queue.push(q);
        true
    }
}
