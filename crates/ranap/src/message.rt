// What a frame says once it is read.
use crate::items::Items;

mod parts;

// Each kind of message with its place, a RAB ASSIGNMENT REQUEST also with its items.
// No PartialEq: that of its items would compare places that are not used.
#[derive(Clone, Copy)]
pub enum Message {
    RabAssignmentRequest(u8, Items),
    IuReleaseCommand(u8),
    RelocationCommand(u8),
    RelocationPreparationFailure(u8),
}
