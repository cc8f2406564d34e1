// The items of a frame, and in the module below the calls on them.
ghost use Rattle.std.specs.Prelude.{◌≡◌, ◌≤◌, length};

use rules::item::ReadItem;

mod list;

// At most 32 items, in frame order.
// An ArrayVec would keep the count itself, but it is not Copy, and a message is.
// No Model by the list: it does not give back what stands in the places that are not used, and a copy has those too.
#[derive(Clone, Copy)]
pub struct Items {
    all: [ReadItem; 32],
    count: usize,
    ghost few: { count ≤ 32 },
    ghost wide: { length all ≡ 32 },
}
