// The controller: its number, its tables and its radio pool. What it does is in the modules below.
use admission::RadioPool;
use bearers::{Connections, RabTables, Tickets};

mod actions;
mod assign;
mod checks;
mod failing;
mod frames;
mod items;
mod iu_release;
mod making;
mod notifying;
mod opening;
mod preemption;
mod questions;
mod queue;
mod release;
mod relocation;
mod request;
mod spending;
mod starting;
mod timers;
mod ues;

// Contracts see it by `view P.radio P.state`: a model's value cannot yet use what a bound says of the pool.
#[derive(Drop)]
pub struct Controller<P: RadioPool> {
    number: u16,
    connections: Connections,
    rabs: RabTables,
    tickets: Tickets,
    pool: P,
}
