// The items of a RAB ASSIGNMENT REQUEST, each followed by serving the queue.
ghost use Rattle.controller.specs.Gave.{Did};
ghost use Rattle.controller.specs.Items.{taken, item_turn};
ghost use Rattle.rules.specs.Events.{assignment};
ghost use Rattle.std.specs.Prelude.{◌≡◌};

use crate::controller::Controller;
use crate::writing::Sheet;
use admission::RadioPool;
use rules::item::{Item, ReadItem};
use rules::report::{Cause, ReportKind};

impl<P: RadioPool> Controller<P> {
    // An item is carried out on an open connection; on a relocating one it fails with cause 3.
    fn take_item(&mut self, place: u8, item: Item, sheet: &mut Sheet<'_>)
        ensures { Did P.radio P.state (taken place item) self.old self.new sheet.old sheet.new }
    {
        let cause = Cause::RelocationTriggered;
        match (item, self.is_open(place)) {
            (Item::Assign(a), true) => self.assign(place, &a, sheet),
            (Item::Assign(a), false) => sheet.tell(ReportKind::Failed, place, a.rab, cause),
            (Item::Release(rab), true) => self.release(place, rab, sheet),
            (Item::Release(rab), false) => sheet.tell(ReportKind::NotReleased, place, rab, cause),
        }
    }

    // An item has its turn, and the queue is served.
    fn take_turn(&mut self, place: u8, item: Item, sheet: &mut Sheet<'_>)
        ensures { Did P.radio P.state (item_turn place item) self.old self.new sheet.old sheet.new }
    {
        self.take_item(place, item, sheet);
        self.serve(sheet);
    }

    // The releases have their turns first, then the others, both in frame order.
    // The project has such loops go over the items with their index.
    pub(super) fn assignment(&mut self, place: u8, items: &[ReadItem], sheet: &mut Sheet<'_>)
        ensures { Did P.radio P.state (assignment place items.now) self.old self.new sheet.old sheet.new }
    {
        'releases: for (_i, read) in items.iter().enumerate() {
            if matches!(read.item, Item::Release(_)) {
                self.take_turn(place, read.item, sheet);
            }
        }
        'others: for (_i, read) in items.iter().enumerate() {
            if matches!(read.item, Item::Assign(_)) {
                self.take_turn(place, read.item, sheet);
            }
        }
    }
}
