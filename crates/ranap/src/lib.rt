// The two lower layers of the Iu interface: reading a frame, and checking its message.
#![tactic(auto)]

mod checker;
mod head;
mod items;
mod message;
mod reader;
mod receiver;

pub use checker::check;
pub use items::Items;
pub use message::Message;
pub use reader::read;
pub use receiver::receive;
