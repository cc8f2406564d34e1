// What connections a UE has.
ghost use Rattle.controller.specs.View.{view};
ghost use Rattle.rules.specs.Connections.{of_ue, any_connection};
ghost use Rattle.rules.specs.Numbers.{domain_number};
ghost use Rattle.rules.specs.Refusals.{ue_relocating};
ghost use Rattle.std.specs.Prelude.{◌≡◌, ◌&&◌, ◌==◌};

use crate::controller::Controller;
use admission::RadioPool;
use rules::connection::Domain;

impl<P: RadioPool> Controller<P> {
    // Whether it has any.
    pub(super) fn is_present(&self, ue: u32) -> bool
        ensures { result ≡ any_connection (of_ue ue) (view P.radio P.state self.now).connections }
    {
        self.connections.has(ue, |_| true)
    }

    // Whether it has one in a domain.
    pub(super) fn has_domain(&self, ue: u32, domain: Domain) -> bool
        ensures { result ≡ any_connection (λ c. of_ue ue c && domain_number c.domain == domain_number domain) (view P.radio P.state self.now).connections }
    {
        self.connections.has(ue, |c| c.domain == domain)
    }

    // Whether one of them is preparing, prepared or executed.
    pub(super) fn is_relocating(&self, ue: u32) -> bool
        ensures { result ≡ ue_relocating ue (view P.radio P.state self.now) }
    {
        self.connections.has(ue, |c| c.state.is_relocating())
    }
}
