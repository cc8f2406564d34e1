// The 16 connection places. The calls on them are in the module below.
ghost use Rattle.std.specs.Prelude.{◌≡◌, length};

use rules::connection::Connection;

mod places;

// No Model: with Copy it wants an `inverse` too, and the clauses see the list by one word, `connections_of`.
#[derive(Clone, Copy)]
pub struct Connections {
    all: [Connection; 16],
    ghost wide: { length all ≡ 16 },
}
