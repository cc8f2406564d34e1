// What is wrong with a set-up or modify item, and the priority that it asks under.
ghost use Rattle.controller.specs.View.{view};
ghost use Rattle.rules.specs.Checks.{effective, priority_of, parts_missing, ill_combined, ill_valued, fault_of};
ghost use Rattle.rules.specs.Request.{request_of};
ghost use Rattle.std.specs.Prelude.{◌≡◌};

use crate::controller::Controller;
use admission::RadioPool;
use rules::bearer::{Bearer, Request};
use rules::item::{Assignment, Flags, Priority};
use rules::report::Cause;

// An item and its set-up RAB are two arguments, as in the definitions.
// Level 15, "no priority", may not trigger and is not pre-emptable.
fn effective_of(p: Priority) -> Priority
    ensures { result ≡ effective p }
{
    Priority {
        triggers: p.triggers && p.level != 15,
        preemptable: p.preemptable && p.level != 15,
        ..p
    }
}

// The values in use of a modification; of a set-up that names none, level 14, pre-emptable, no other right.
fn priority_for(a: &Assignment, own: Option<Bearer>) -> Priority
    ensures { result ≡ priority_of a.now own }
{
    if a.flags.priority {
        return effective_of(a.priority);
    }
    match own {
        Some(b) => b.priority,
        None => Priority {
            level: 14,
            triggers: false,
            preemptable: true,
            queuing: false,
        },
    }
}

// The request of an item.
pub(super) fn request_for(place: u8, a: &Assignment, own: Option<Bearer>) -> Request
    ensures { result ≡ request_of place a.now own }
{
    Request {
        place,
        rab: a.rab,
        size: a.size,
        priority: priority_for(a, own),
    }
}

fn lacks_parts(f: Flags, own: Option<Bearer>) -> bool
    ensures { result ≡ parts_missing f own }
{
    match own {
        None => !(f.parameters && f.transport && f.plane),
        Some(_) => f.transport && !(f.parameters || f.plane),
    }
}

fn is_ill_combined(a: &Assignment, own: Option<Bearer>) -> bool
    ensures { result ≡ ill_combined a.now own }
{
    lacks_parts(a.flags, own) || (a.flags.priority && !a.flags.parameters)
}

fn is_ill_valued(a: &Assignment) -> bool
    ensures { result ≡ ill_valued a.now }
{
    a.flags.parameters
        && (!(1..=64).contains(&a.size)
            || (a.flags.priority && !(1..=15).contains(&a.priority.level)))
}

impl<P: RadioPool> Controller<P> {
    // The first cause for which an item fails, if there is one: a cause to report, not a refusal of the call.
    pub(super) fn fault(&self, a: &Assignment, own: Option<Bearer>) -> Option<Cause>
        ensures { result ≡ fault_of a.now own (view P.radio P.state self.now) }
    {
        if is_ill_combined(a, own) {
            return Some(Cause::InvalidCombination);
        }
        if is_ill_valued(a) {
            return Some(Cause::InvalidValue);
        }
        if own.is_none() && self.rabs.is_full() {
            return Some(Cause::TableFull);
        }
        None
    }
}
