// The tickets 0 to 15. The calls on them are in the module below.
ghost use Rattle.std.specs.Prelude.{◌≡◌, length};

use rules::connection::TicketRecord;

mod out;

// What is kept of each ticket that is out.
// No Model: with Copy it wants an `inverse` too, and the clauses see the list by one word, `tickets_of`.
#[derive(Clone, Copy)]
pub struct Tickets {
    all: [Option<TicketRecord>; 16],
    ghost wide: { length all ≡ 16 },
}
