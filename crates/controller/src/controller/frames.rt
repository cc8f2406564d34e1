// What an arriving frame does.
ghost use Rattle.controller.specs.Checked.{Checks};
ghost use Rattle.controller.specs.Gave.{Did};
ghost use Rattle.controller.specs.Listed.{listed};
ghost use Rattle.controller.specs.View.{view};
ghost use Rattle.ranap.specs.View.{saying};
ghost use Rattle.rules.specs.Calls.{frame_answer, frame_outcome};
ghost use Rattle.rules.specs.Events.{handled};
ghost use Rattle.rules.specs.Frame.{received};
ghost use Rattle.rules.specs.Refusals.{message_refusal};
ghost use Rattle.std.specs.Prelude.{◌≡◌, length};

use crate::controller::Controller;
use crate::refusing::{at_place, check_list};
use crate::writing::Sheet;
use admission::RadioPool;
use ranap::{Message, receive};
use rules::connection::ConnectionState;
use rules::refusal::{Reason, Refusal};
use rules::report::Report;

impl<P: RadioPool> Controller<P> {
    // A message is refused for the first reason against it, by the state of its connection.
    fn check_message(&self, message: &Message) -> Result<(), Refusal>
        ensures { Checks (message_refusal (saying message.now) (view P.radio P.state self.now)) result }
    {
        let place = message.place();
        match (self.connections.at(place).state, message) {
            (ConnectionState::Closed, _) => Err(at_place(Reason::BadPlace, place)),
            (ConnectionState::Preparing, _) => Ok(()),
            (_, Message::RelocationCommand(_) | Message::RelocationPreparationFailure(_)) => {
                Err(at_place(Reason::NotRunning, place))
            }
            (_, _) => Ok(()),
        }
    }

    fn handle(&mut self, message: &Message, sheet: &mut Sheet<'_>)
        ensures { Did P.radio P.state (handled (saying message.now)) self.old self.new sheet.old sheet.new }
    {
        match message {
            Message::RabAssignmentRequest(place, items) => {
                self.assignment(*place, items.as_slice(), sheet)
            }
            Message::IuReleaseCommand(place) => self.iu_release(*place, sheet),
            Message::RelocationCommand(place) => self.command(*place),
            Message::RelocationPreparationFailure(place) => self.failure(*place, sheet),
        }
    }

    // A frame has arrived. The count of reports is answered: they stand in the first places of the list,
    // and the others hold what they held.
    pub fn frame(&mut self, bytes: &[u8], reports: &mut [Report]) -> Result<usize, Refusal>
        ensures answer { result ≡ frame_answer (length reports.old) (received bytes.now) (view P.radio P.state self.old) }
        ensures state { view P.radio P.state self.new ≡ (frame_outcome (length reports.old) (received bytes.now) (view P.radio P.state self.old)).state }
        ensures list { reports.new ≡ listed (frame_outcome (length reports.old) (received bytes.now) (view P.radio P.state self.old)).reports reports.old }
    {
        check_list(reports.len())?;
        let message = receive(bytes)?;
        self.check_message(&message)?;
        let mut sheet = Sheet::new(reports);
        self.handle(&message, &mut sheet);
        Ok(sheet.count())
    }
}
