// The RAB controller over any radio pool.
#![tactic(auto)]

mod controller;
mod refusing;
mod ticket;
mod writing;

pub use controller::Controller;
pub use ticket::Ticket;
