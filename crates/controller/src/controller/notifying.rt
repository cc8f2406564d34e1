// What is told on a UE's connections, by place.
ghost use Rattle.controller.specs.Notices.{told, notices_from};
ghost use Rattle.controller.specs.Page.{Wrote};
ghost use Rattle.controller.specs.View.{view};
ghost use Rattle.rules.specs.Connections.{at_place};
ghost use Rattle.std.specs.Prelude.{◌≡◌};

use crate::controller::Controller;
use crate::writing::Sheet;
use admission::RadioPool;
use rules::report::{Cause, ReportKind};

impl<P: RadioPool> Controller<P> {
    // A place is told if it is the UE's and not left out.
    fn is_told(&self, place: u8, ue: u32, except: Option<u8>) -> bool
        ensures { result ≡ told except ue place (at_place place (view P.radio P.state self.now)) }
    {
        self.connections.is_of(place, ue) && except != Some(place)
    }

    // Each of the UE's connections is told by place, but for one that is left out. No RAB is named.
    pub(super) fn notify_on(
        &self,
        ue: u32,
        except: Option<u8>,
        kind: ReportKind,
        cause: Cause,
        sheet: &mut Sheet<'_>,
    )
        ensures { Wrote (notices_from kind cause except ue 0 (view P.radio P.state self.now).connections) sheet.old sheet.new }
    {
        // By number, since the reports are by place.
        for place in 0..16u8 {
            if self.is_told(place, ue, except) {
                sheet.tell(kind, place, 0, cause);
            }
        }
    }
}
