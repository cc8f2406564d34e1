// Serving the queue.
ghost use Rattle.controller.specs.Due.{due};
ghost use Rattle.controller.specs.Gave.{Did};
ghost use Rattle.controller.specs.View.{view};
ghost use Rattle.rules.specs.Preemption.{admitted};
ghost use Rattle.rules.specs.Queue.{next, serve_one, serve};
ghost use Rattle.std.specs.Prelude.{◌≡◌, Some, find};

use crate::controller::Controller;
use crate::writing::Sheet;
use admission::RadioPool;
use rules::bearer::Request;

impl<P: RadioPool> Controller<P> {
    // The first waiting request of a level, by arrival, that would be admitted. The pool is asked for none behind it.
    fn first_of(&self, level: u8) -> Option<Request>
        ensures { result ≡ find (due level (admitted (view P.radio P.state self.now))) (view P.radio P.state self.now).queue }
    {
        self.rabs
            .queue()
            .iter()
            .find(|q| q.priority.level == level && self.is_admitted(q))
            .copied()
    }

    // The first waiting request, by level, then arrival, that would be admitted.
    fn next_admitted(&self) -> Option<Request>
        ensures { result ≡ next (view P.radio P.state self.now) }
    {
        (1..16u8).find_map(|level| self.first_of(level))
    }

    // A waiting request is done.
    fn serve_one(&mut self, q: &Request, sheet: &mut Sheet<'_>)
        requires { next (view P.radio P.state self.old) ≡ Some q.now }
        ensures { Did P.radio P.state (serve_one q.now) self.old self.new sheet.old sheet.new }
    {
        self.rabs.remove_request(q.place, q.rab);
        self.carry_out(q, &[], sheet);
    }

    // The first that would be admitted is done; then the search begins again, until none would be.
    // At most 64 requests wait, so that many turns are enough.
    pub(super) fn serve(&mut self, sheet: &mut Sheet<'_>)
        ensures { Did P.radio P.state serve self.old self.new sheet.old sheet.new }
    {
        for turn in 0..64u8 {
            let Some(q) = self.next_admitted() else {
                return;
            };
            self.serve_one(&q, sheet);
        }
    }
}
