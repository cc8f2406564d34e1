// The parts of a message.
ghost use Rattle.ranap.specs.View.{saying};
ghost use Rattle.rules.specs.Message.{place_of, items_of};
ghost use Rattle.std.specs.Prelude.{◌≡◌};

use crate::message::Message;
use rules::item::ReadItem;

impl Message {
    // The connection place that the message names, whether or not there is such a place.
    pub fn place(&self) -> u8
        ensures { result ≡ place_of (saying self.now) }
    {
        match self {
            Message::RabAssignmentRequest(place, _)
            | Message::IuReleaseCommand(place)
            | Message::RelocationCommand(place)
            | Message::RelocationPreparationFailure(place) => *place,
        }
    }

    // The items, of which only a RAB ASSIGNMENT REQUEST has any.
    pub fn items(&self) -> &[ReadItem]
        ensures { result.now ≡ items_of (saying self.now) }
    {
        match self {
            Message::RabAssignmentRequest(_, items) => items.as_slice(),
            _ => &[],
        }
    }
}
