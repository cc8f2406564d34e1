// Opening a connection.
ghost use Rattle.controller.specs.Checked.{Admits};
ghost use Rattle.controller.specs.View.{view};
ghost use Rattle.rules.specs.Calls.{open_answer, open_outcome};
ghost use Rattle.rules.specs.Numbers.{domain_of};
ghost use Rattle.rules.specs.Refusals.{open_refusal};
ghost use Rattle.std.specs.Prelude.{◌≡◌};

use crate::controller::Controller;
use crate::refusing::{LAST_PLACE, at_place};
use admission::RadioPool;
use rules::connection::{Connection, ConnectionState, Domain};
use rules::refusal::{Reason, Refusal};

impl<P: RadioPool> Controller<P> {
    // A connection is refused for the first reason against it; else the domain of the code is answered.
    fn check_open(&self, place: u8, ue: u32, code: u8) -> Result<Domain, Refusal>
        ensures { Admits (open_refusal place ue code (view P.radio P.state self.now)) (domain_of code) result }
    {
        if LAST_PLACE < place {
            return Err(at_place(Reason::BadPlace, place));
        }
        if !self.connections.at(place).state.is_closed() {
            return Err(at_place(Reason::PlaceTaken, place));
        }
        let domain = Domain::try_from(code);
        if domain.is_ok_and(|d| self.has_domain(ue, d)) {
            return Err(at_place(Reason::DomainTaken, place));
        }
        let Ok(domain) = domain else {
            return Err(at_place(Reason::BadCode, place));
        };
        if self.is_relocating(ue) {
            return Err(at_place(Reason::UeRelocating, place));
        }
        Ok(domain)
    }

    // The UE's connection in a domain, 0 CS or 1 PS, opens at a place from 0 to 15.
    // The number itself comes in: one that no domain has is refused.
    pub fn open(&mut self, place: u8, ue: u32, domain: u8) -> Result<(), Refusal>
        ensures answer { result ≡ open_answer place ue domain (view P.radio P.state self.old) }
        ensures state { view P.radio P.state self.new ≡ (open_outcome place ue domain (view P.radio P.state self.old)).state }
    {
        let domain = self.check_open(place, ue, domain)?;
        self.connections.put(
            place,
            Connection {
                state: ConnectionState::Open,
                ue,
                domain,
            },
        );
        Ok(())
    }
}
