// The tables of the controller that have no radio pool in them: set-up RABs, waiting requests, connections, tickets.
#![tactic(auto)]

mod connections;
mod slots;
mod tables;
mod tickets;

pub use connections::Connections;
pub use tables::RabTables;
pub use tickets::Tickets;
