// Making a controller.
ghost use Rattle.controller.specs.View.{view};
ghost use Rattle.rules.specs.Calls.{given_back, new_state};
ghost use Rattle.std.specs.Prelude.{◌≡◌, IfOk};

use crate::controller::Controller;
use admission::RadioPool;
use bearers::{Connections, RabTables, Tickets};
use std::alloc::{AllocError, Global};

// Every grant that the pool holds is given back, from 0 upward.
fn give_back_all<P: RadioPool>(pool: &mut P)
    ensures { P.state pool.new ≡ given_back P.radio 64 (P.state pool.old) }
{
    for grant in 0..64u8 {
        let _ = pool.give(grant);
    }
}

impl<P: RadioPool + Drop> Controller<P> {
    // A controller with every place closed and nothing known, over a pool that it empties first.
    // Room for the tables is made here: no later call wants memory.
    pub fn new(number: u16, mut pool: P, heap: Global) -> Result<Controller<P>, AllocError>
        ensures { IfOk result (λ c. view P.radio P.state c ≡ new_state P.radio number (P.state pool)) }
    {
        let rabs = RabTables::new(heap)?;
        give_back_all(&mut pool);
        Ok(Controller {
            number,
            connections: Connections::new(),
            rabs,
            tickets: Tickets::new(),
            pool,
        })
    }
}
