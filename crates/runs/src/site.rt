// A controller with the tickets of its relocations, which are held beside it. It has no calls yet.
ghost use Rattle.runs.specs.Held.{HoldsAll};
ghost use Rattle.std.specs.Prelude.{◌≡◌, length};

use admission::RadioPool;
use controller::{Controller, Ticket};

pub struct Site<P: RadioPool> {
    controller: Controller<P>,
    // by their own numbers
    held: [Option<Ticket>; 16],
    ghost wide: { length held ≡ 16 },
    // a ticket is held exactly if it is out
    ghost all: { HoldsAll held controller },
}
