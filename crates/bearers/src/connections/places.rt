// What stands at each place, and what a UE has.
ghost use Rattle.bearers.specs.Closures.{Gives, AnswersOfUe, StepsOfUe};
ghost use Rattle.bearers.specs.Places.{connections_of};
ghost use Rattle.rules.specs.Connections.{prepared, reopened, vacant, of_ue, any_connection, changed, each_of_ue};
ghost use Rattle.rules.specs.declared.connection.Connection.{Connection};
ghost use Rattle.rules.specs.declared.connection.ConnectionState.{ConnectionState};
ghost use Rattle.std.specs.Fn.{FnReturnsAt};
ghost use Rattle.std.specs.List.{IsAnyAnswer};
ghost use Rattle.std.specs.Prelude.{◌≡◌, ◌&&◌, ℕ, Bool, replicate, slice_index_or, slice_set};

use crate::connections::Connections;
use crate::slots::{at, put};
use rules::connection::{Connection, ConnectionState};

// A relocation that has ended leaves a connection open, unless it is executed.
fn reopened_state(state: ConnectionState) -> ConnectionState
    ensures { result ≡ reopened state }
{
    match state {
        ConnectionState::Preparing | ConnectionState::Prepared => ConnectionState::Open,
        ConnectionState::Closed | ConnectionState::Open | ConnectionState::Executed => state,
    }
}

impl Connections {
    // All places closed.
    pub fn new() -> Connections
        ensures { connections_of result ≡ replicate 16 vacant }
    {
        Connections {
            all: [Connection::VACANT; 16],
        }
    }

    // What stands at a place; over 15 it is closed.
    pub fn at(&self, place: u8) -> Connection
        ensures { result ≡ slice_index_or (connections_of self.now) place vacant }
    {
        at(&self.all, place)
    }

    // Whether the connection at a place is the UE's.
    pub fn is_of(&self, place: u8, ue: u32) -> bool
        ensures { result ≡ of_ue ue (slice_index_or (connections_of self.now) place vacant) }
    {
        self.at(place).is_of(ue)
    }

    // The connection is put at a place; over 15 there is none.
    pub fn put(&mut self, place: u8, connection: Connection)
        ensures { connections_of self.new ≡ slice_set (connections_of self.old) place connection }
    {
        put(&mut self.all, place, connection);
    }

    // The place is closed; over 15 there is none.
    pub fn close(&mut self, place: u8)
        ensures { connections_of self.new ≡ slice_set (connections_of self.old) place vacant }
    {
        self.put(place, Connection::VACANT);
    }

    // Whether the UE has a connection that passes the test.
    pub fn has<F: Fn(&Connection) -> bool>(&self, ue: u32, test: F) -> bool
        requires { F.IsAlwaysCallable test }
        ensures by_function { (t : Connection → Bool) → Gives (F.post test) (λ c. t c.now) →
            result ≡ any_connection (λ c. of_ue ue c && t c) (connections_of self.now) }
        ensures each { IsAnyAnswer (AnswersOfUe ue (FnReturnsAt F.Fn test)) (connections_of self.now) result }
    {
        self.all.iter().any(|c| c.is_of(ue) && test(c))
    }

    // Whether all of the UE's connections have had their RELOCATION COMMAND.
    pub fn all_prepared(&self, ue: u32) -> bool
        ensures { result ≡ each_of_ue ue prepared (connections_of self.now) }
    {
        self.all
            .iter()
            .filter(|c| c.is_of(ue))
            .all(|c| c.state.is_prepared())
    }

    // All connections of the UE take a step, the others stay as they are.
    pub fn change<F: Fn(ConnectionState) -> ConnectionState>(&mut self, ue: u32, step: F)
        requires { F.IsAlwaysCallable step }
        ensures by_function { (g : ConnectionState → ConnectionState) → Gives (F.post step) g →
            connections_of self.new ≡ changed ue g (connections_of self.old) }
        ensures each { (place : ℕ) →
            StepsOfUe ue (F.post step) (slice_index_or (connections_of self.old) place vacant) (slice_index_or (connections_of self.new) place vacant) }
    {
        for c in &mut self.all {
            if c.is_of(ue) {
                c.state = step(c.state);
            }
        }
    }

    // The UE's relocation has ended: its connections are open again, but for executed ones.
    pub fn reopen(&mut self, ue: u32)
        ensures { connections_of self.new ≡ changed ue reopened (connections_of self.old) }
    {
        self.change(ue, reopened_state);
    }
}
