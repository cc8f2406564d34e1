// The ticket of a relocation.
ghost use Rattle.controller.specs.Tickets.{id_of};
ghost use Rattle.std.specs.Prelude.{◌≡◌};

use rules::connection::TicketId;

// Its holder may have the relocation executed, or withdraw it, once. It is not `Drop`: it is spent, or handed back.
pub struct Ticket {
    id: TicketId,
}

impl Ticket {
    pub(crate) fn new(controller: u16, number: u8) -> Ticket
        ensures { id_of result ≡ record { controller = controller; number = number } }
    {
        Ticket {
            id: TicketId { controller, number },
        }
    }

    // The number of the controller that handed it out, and its own.
    pub fn id(&self) -> TicketId
        ensures { result ≡ id_of self.now }
    {
        self.id
    }

    pub(crate) fn spend(self) {
        let Ticket { id: _ } = self;
    }
}
