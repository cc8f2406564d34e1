// The message check: no RAB ID comes twice.
ghost use Rattle.ranap.specs.Distinct.{Checks};
ghost use Rattle.rules.specs.Message.{distinct};
ghost use Rattle.std.specs.Prelude.{◌≡◌};

use rules::item::ReadItem;
use rules::refusal::{Reason, Refusal};

// The first repeat of a RAB ID is refused by the offset of its item.
fn first_repeat(items: &[ReadItem]) -> Result<(), Refusal>
    ensures { result ≡ distinct items.now }
{
    // A HashSet of the RAB IDs would want the heap.
    let mut seen = [false; 256];
    for item in items {
        let rab = usize::from(item.item.rab());
        if seen[rab] {
            return Err(Refusal {
                reason: Reason::RepeatedRab,
                place: item.offset,
            });
        }
        seen[rab] = true;
    }
    Ok(())
}

// The items pass exactly when all their RAB IDs differ; else the first that repeats one is refused by its offset.
pub fn check(items: &[ReadItem]) -> Result<(), Refusal>
    ensures answer { result ≡ distinct items.now }
    ensures distinct { Checks items.now result }
{
    first_repeat(items)
}
