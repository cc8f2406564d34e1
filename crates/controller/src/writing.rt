// Writing reports into the caller's list.
ghost use Rattle.controller.specs.Page.{page, page_of, Wrote};
ghost use Rattle.rules.specs.Actions.{report, done_report};
ghost use Rattle.std.specs.Prelude.{◌≡◌, [], ◌∷◌};

use rules::report::{Cause, Report, ReportKind};

// The caller's list, and how many of its records are written. The list is lent and keeps its length;
// the count is what a call answers. It is passed beside the controller, as a Formatter is beside a value.
#[derive(Drop)]
pub(crate) struct Sheet<'a> {
    reports: &'a mut [Report],
    count: usize,
}

impl<'a> Sheet<'a> {
    // Nothing is written yet.
    pub(crate) fn new(reports: &'a mut [Report]) -> Sheet<'a>
        ensures page { page_of result ≡ page reports.old 0 }
        ensures same { result.reports.ghost_name ≡ reports.entry.ghost_name }
    {
        Sheet { reports, count: 0 }
    }

    pub(crate) fn count(&self) -> usize
        ensures { result ≡ self.now.count }
    {
        self.count
    }

    // One report more, if the list is long enough.
    pub(crate) fn write(&mut self, report: Report)
        ensures { Wrote (report ∷ []) self.old self.new }
    {
        if self.count < self.reports.len() {
            self.reports[self.count] = report;
            self.count += 1;
        }
    }

    // A report that names no size.
    pub(crate) fn tell(&mut self, kind: ReportKind, place: u8, rab: u8, cause: Cause)
        ensures { Wrote (report kind place rab cause ∷ []) self.old self.new }
    {
        self.write(Report {
            kind,
            place,
            rab,
            cause,
            size: 0,
        });
    }

    // Kind 1, with the size that the RAB now has.
    pub(crate) fn tell_done(&mut self, place: u8, rab: u8, size: u8)
        ensures { Wrote (done_report place rab size ∷ []) self.old self.new }
    {
        self.write(Report {
            kind: ReportKind::Done,
            place,
            rab,
            cause: Cause::NoCause,
            size,
        });
    }
}
