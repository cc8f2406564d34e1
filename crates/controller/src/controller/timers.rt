// The timers of a connection, and what their expiry does.
ghost use Rattle.controller.specs.Checked.{Admits};
ghost use Rattle.controller.specs.Gave.{Did};
ghost use Rattle.controller.specs.Listed.{listed};
ghost use Rattle.controller.specs.View.{view};
ghost use Rattle.rules.specs.Calls.{expiry_answer, expiry_outcome};
ghost use Rattle.rules.specs.Numbers.{timer_of};
ghost use Rattle.rules.specs.Refusals.{bad_place, expiry_refusal};
ghost use Rattle.rules.specs.Timers.{queuing_runs, preparation_runs, timer_runs, expires};
ghost use Rattle.std.specs.Prelude.{◌≡◌, Some, length};

use crate::controller::Controller;
use crate::refusing::{at_place, check_list};
use crate::writing::Sheet;
use admission::RadioPool;
use rules::connection::{ConnectionState, Timer};
use rules::refusal::{Reason, Refusal};
use rules::report::{Cause, Report};

impl<P: RadioPool> Controller<P> {
    // A place over 15, or closed. Over 15 all are closed.
    pub(super) fn is_bad_place(&self, place: u8) -> bool
        ensures { result ≡ bad_place place (view P.radio P.state self.now) }
    {
        self.connections.at(place).state.is_closed()
    }

    fn is_queuing(&self, place: u8) -> bool
        ensures { result ≡ queuing_runs place (view P.radio P.state self.now) }
    {
        self.rabs.request_at(place).is_some()
    }

    // Whether TRELOCprep runs at a place: a test with a name, since contracts cite it.
    fn is_preparing(&self, place: u8) -> bool
        ensures { result ≡ preparation_runs place (view P.radio P.state self.now) }
    {
        self.connections.at(place).state.is_preparing()
    }

    fn runs(&self, place: u8, timer: Timer) -> bool
        ensures { result ≡ timer_runs (Some timer) place (view P.radio P.state self.now) }
    {
        match timer {
            Timer::Tqueuing => self.is_queuing(place),
            Timer::Trelocprep => self.is_preparing(place),
        }
    }

    // Whether a timer, 1 TQUEUING or 2 TRELOCprep, runs at a place.
    // The number itself comes in: one that no timer has never runs.
    pub fn is_running(&self, place: u8, timer: u8) -> bool
        ensures { result ≡ timer_runs (timer_of timer) place (view P.radio P.state self.now) }
    {
        Timer::try_from(timer).is_ok_and(|timer| self.runs(place, timer))
    }

    // An expiry is refused for the first reason against it, by the state of the place's connection and the timer;
    // else the timer of the code is answered.
    fn check_expiry(&self, records: usize, place: u8, code: u8) -> Result<Timer, Refusal>
        ensures { Admits (expiry_refusal records place code (view P.radio P.state self.now)) (timer_of code) result }
    {
        check_list(records)?;
        match (self.connections.at(place).state, Timer::try_from(code)) {
            (ConnectionState::Closed, _) => Err(at_place(Reason::BadPlace, place)),
            (_, Err(_)) => Err(at_place(Reason::BadCode, place)),
            (
                ConnectionState::Open
                | ConnectionState::Preparing
                | ConnectionState::Prepared
                | ConnectionState::Executed,
                Ok(Timer::Tqueuing),
            ) => {
                if !self.is_queuing(place) {
                    return Err(at_place(Reason::NotRunning, place));
                }
                Ok(Timer::Tqueuing)
            }
            (ConnectionState::Preparing, Ok(Timer::Trelocprep)) => Ok(Timer::Trelocprep),
            (
                ConnectionState::Open | ConnectionState::Prepared | ConnectionState::Executed,
                Ok(Timer::Trelocprep),
            ) => Err(at_place(Reason::NotRunning, place)),
        }
    }

    // What a timer that has run out does.
    fn expire(&mut self, place: u8, timer: Timer, sheet: &mut Sheet<'_>)
        ensures { Did P.radio P.state (expires (Some timer) place) self.old self.new sheet.old sheet.new }
    {
        match timer {
            Timer::Tqueuing => self.fail_all_at(Cause::TqueuingExpiry, place, sheet),
            Timer::Trelocprep => self.preparation_expires(place, sheet),
        }
    }

    // A timer, 1 TQUEUING or 2 TRELOCprep, has run out at a place. The count of reports is answered:
    // they stand in the first places of the list, and the others hold what they held.
    // The number itself comes in: one that no timer has is refused.
    pub fn expiry(&mut self, place: u8, timer: u8, reports: &mut [Report]) -> Result<usize, Refusal>
        ensures answer { result ≡ expiry_answer (length reports.old) place timer (view P.radio P.state self.old) }
        ensures state { view P.radio P.state self.new ≡ (expiry_outcome (length reports.old) place timer (view P.radio P.state self.old)).state }
        ensures list { reports.new ≡ listed (expiry_outcome (length reports.old) place timer (view P.radio P.state self.old)).reports reports.old }
    {
        let timer = self.check_expiry(reports.len(), place, timer)?;
        let mut sheet = Sheet::new(reports);
        self.expire(place, timer, &mut sheet);
        Ok(sheet.count())
    }
}
