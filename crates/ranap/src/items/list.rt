// Making a list of items, and reading it.
ghost use Rattle.ranap.specs.View.{listed};
ghost use Rattle.std.specs.Prelude.{◌≡◌, ◌<◌, [], ◌∷◌, ◌++◌, length, if◌then◌else◌, nat_lt};

use crate::items::Items;
use rules::item::{Item, ReadItem};

impl Items {
    pub fn empty() -> Items
        ensures { listed result ≡ [] }
    {
        let blank = ReadItem {
            offset: 0,
            item: Item::Release(0),
        };
        Items {
            all: [blank; 32],
            count: 0,
        }
    }

    // One item more, at the end, where there is room.
    pub(crate) fn add(&mut self, item: ReadItem)
        requires { length (listed self.old) < 32 }
        ensures { listed self.new ≡ listed self.old ++ item ∷ [] }
    {
        self.all[self.count] = item;
        self.count += 1;
    }

    // One item more, at the end; false, and nothing changes, where there are 32 already.
    // A bool and no Result: it is a public answer, and a full list is its only refusal.
    pub fn push(&mut self, item: ReadItem) -> bool
        ensures answer { result ≡ nat_lt (length (listed self.old)) 32 }
        ensures after { listed self.new ≡ (if result then listed self.old ++ item ∷ [] else listed self.old) }
    {
        if self.count >= 32 {
            return false;
        }
        self.add(item);
        true
    }

    pub fn as_slice(&self) -> &[ReadItem]
        ensures { result.now ≡ listed self.now }
    {
        &self.all[..self.count]
    }
}
