// The search for room: the admission set, the candidates of a pre-emption, and the victims.
ghost use Rattle.admission.specs.Member.{member};
ghost use Rattle.bearers.specs.Order.{bearer_good};
ghost use Rattle.controller.specs.Chosen.{front_for};
ghost use Rattle.controller.specs.View.{view};
ghost use Rattle.rules.specs.Connections.{opened, state_at};
ghost use Rattle.rules.specs.Preemption.{own_grant, admitted, candidate};
ghost use Rattle.std.specs.Prelude.{◌≡◌, true, IfSome, option_map};

use crate::controller::Controller;
use admission::{GrantSet, RadioPool};
use arrayvec::ArrayVec;
use rules::bearer::{Bearer, Request};

// What a search begins with: nothing for a set-up, the RAB's own grant for a modification.
fn own_set(own: Option<Bearer>) -> GrantSet
    requires { IfSome own (λ b. bearer_good b ≡ true) }
    ensures { member result ≡ own_grant own }
{
    let mut set = GrantSet::empty();
    if let Some(b) = own {
        set.insert(b.grant);
    }
    set
}

impl<P: RadioPool> Controller<P> {
    // A test with a name, as `is_preparing` and `is_bad_place` are: contracts cite each.
    // Whether the connection at a place is open.
    pub(super) fn is_open(&self, place: u8) -> bool
        ensures { result ≡ opened (state_at place (view P.radio P.state self.now)) }
    {
        self.connections.at(place).state.is_open()
    }

    // Whether a request would be admitted, a modification with its own grant given back.
    pub(super) fn is_admitted(&self, q: &Request) -> bool
        ensures { result ≡ admitted (view P.radio P.state self.now) q.now }
    {
        let own = self.rabs.bearer(q.place, q.rab);
        self.pool.room(&own_set(own), q.size)
    }

    // Whether a RAB of this level may be pre-empted for a request.
    fn is_candidate(&self, b: &Bearer, q: &Request, level: u8) -> bool
        ensures { result ≡ candidate q.now (view P.radio P.state self.now) level b.now }
    {
        b.priority.level == level
            && q.priority.level < level
            && b.priority.preemptable
            && self.is_open(b.place)
            && (b.place, b.rab) != (q.place, q.rab)
    }

    // The candidates are added to the admission set one by one, level by level from 14 down, and in a level by place
    // and RAB ID; the search ends at the first set that gives room.
    pub(super) fn victims(&self, q: &Request) -> Option<ArrayVec<Bearer, 64>>
        ensures { option_map (λ v. v.items) result ≡ front_for q.now (view P.radio P.state self.now) }
    {
        let mut given = own_set(self.rabs.bearer(q.place, q.rab));
        let mut victims = ArrayVec::new();
        // The project has this search as nested loops that one label leaves, when the grown set admits the size.
        let found = 'search: {
            'levels: for level in (1..=14u8).rev() {
                'table: for b in self.rabs.bearers() {
                    // Tried as a `filter` on the table's iterator: the check refuses such a loop in a loop.
                    if !self.is_candidate(b, q, level) {
                        continue;
                    }
                    victims.push(*b);
                    given.insert(b.grant);
                    if self.pool.room(&given, q.size) {
                        break 'search true;
                    }
                }
            }
            false
        };
        found.then_some(victims)
    }
}
