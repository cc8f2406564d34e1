// The two tables of RABs, with what they always keep. The calls on them are in the modules below.
ghost use Rattle.std.specs.Prelude.{◌≡◌, ◌≤◌, true, vec_capacity};
ghost use Rattle.bearers.specs.Order.{ascending, apart, in_range};
ghost use Rattle.rules.specs.Tables.{known_in};

use rules::bearer::{Bearer, Request};

mod changes;
mod lookups;

// Room for 64 of each is made once on the heap: no later call wants memory, as an insert into a BTreeMap would,
// and the struct stays small on the stack, as with two ArrayVecs of 64 it would not.
// No Model: a clause speaks of one of the two tables, by `bearers_of` or `queue_of`.
#[derive(Drop)]
pub struct RabTables {
    bearers: Vec<Bearer>,
    queue: Vec<Request>,
    // set-up RABs by place and RAB ID, each once
    ghost sorted: { ascending bearers.items ≡ true },
    // no RAB waits twice
    ghost single: { apart queue.items ≡ true },
    // at most 64 RABs are known
    ghost few: { known_in bearers.items queue.items ≤ 64 },
    // grant numbers are below 64, levels 1 to 15
    ghost ranges: { in_range bearers.items queue.items ≡ true },
    ghost bearers_reserved: { 64 ≤ vec_capacity bearers },
    ghost queue_reserved: { 64 ≤ vec_capacity queue },
}
