// The failing of all waiting requests that are meant.
ghost use Rattle.controller.specs.Gave.{Did};
ghost use Rattle.controller.specs.View.{view};
ghost use Rattle.controller.specs.Whose.{Tests, fail_meant};
ghost use Rattle.rules.specs.Tables.{is_some, waits_as};
ghost use Rattle.rules.specs.declared.connection.Connection.{Connection};
ghost use Rattle.std.specs.Prelude.{◌≡◌, ℕ, Bool, true, IfSome, List, find};

use crate::controller::Controller;
use crate::writing::Sheet;
use admission::RadioPool;
use bearers::Connections;
use rules::bearer::Request;
use rules::report::Cause;

impl<P: RadioPool> Controller<P> {
    // The first waiting request that is meant.
    fn first_meant<F: Fn(&Connections, &Request) -> bool>(&self, meant: &F) -> Option<Request>
        requires { F.IsAlwaysCallable meant.now }
        ensures first { (t : List Connection → ℕ → Bool) → Tests (F.post meant.now) t →
            result ≡ find (λ q. t (view P.radio P.state self.now).connections q.place) (view P.radio P.state self.now).queue }
        ensures waits { IfSome result (λ q. is_some (waits_as q.place q.rab (view P.radio P.state self.now).queue) ≡ true) }
    {
        self.rabs
            .queue()
            .iter()
            .find(|q| meant(&self.connections, q))
            .copied()
    }

    // All that are meant fail, by arrival.
    pub(super) fn fail_all<F: Fn(&Connections, &Request) -> bool>(
        &mut self,
        cause: Cause,
        meant: F,
        sheet: &mut Sheet<'_>,
    )
        requires { F.IsAlwaysCallable meant }
        ensures { (t : List Connection → ℕ → Bool) → Tests (F.post meant) t →
            Did P.radio P.state (fail_meant cause t) self.old self.new sheet.old sheet.new }
    {
        while let Some(q) = self.first_meant(&meant) {
            self.fail_waiting(cause, q.place, q.rab, sheet);
        }
    }
}
