// What is reported to the core network.
ghost use Rattle.rules.specs.Numbers.{kind_number, cause_number};
ghost use Rattle.rules.specs.Telling.{kind_text, cause_text, whose_text, numbers_text, subject_text, detail_text, report_text};
ghost use Rattle.std.specs.Fmt.{WritesOnOk};
ghost use Rattle.std.specs.Prelude.{◌≡◌, Some};

use std::fmt;

#[derive(Clone, Copy, Debug, PartialEq, Eq)]
pub enum ReportKind {
    Done = 1,
    Queued = 2,
    Failed = 3,
    Released = 4,
    NotReleased = 5,
    ReleaseRequested = 6,
    Gone = 7,
    RelocationRequired = 8,
    RelocationCancel = 9,
}

impl ReportKind {
    pub fn number(self) -> u8
        ensures { result ≡ kind_number self }
    {
        self as u8
    }
}

impl fmt::Display for ReportKind {
    ghost output = { λ kind. Some (kind_text kind) };

    fn fmt<W: fmt::Write>(&self, f: &mut fmt::Formatter<W>) -> fmt::Result {
        f.write_str(match self {
            ReportKind::Done => "done",
            ReportKind::Queued => "queued",
            ReportKind::Failed => "failed",
            ReportKind::Released => "released",
            ReportKind::NotReleased => "not released",
            ReportKind::ReleaseRequested => "release requested",
            ReportKind::Gone => "gone",
            ReportKind::RelocationRequired => "relocation required",
            ReportKind::RelocationCancel => "relocation cancel",
        })
    }
}

#[derive(Clone, Copy, Debug, PartialEq, Eq)]
pub enum Cause {
    NoCause = 0,
    RabPreempted = 1,
    TqueuingExpiry = 2,
    RelocationTriggered = 3,
    TrelocprepExpiry = 4,
    RelocationCancelled = 5,
    MaximumBitRateNotAvailable = 6,
    InvalidValue = 7,
    InvalidCombination = 8,
    RequestSuperseded = 9,
    InvalidRabId = 10,
    IuReleased = 11,
    TableFull = 12,
}

impl Cause {
    pub fn number(self) -> u8
        ensures { result ≡ cause_number self }
    {
        self as u8
    }
}

impl fmt::Display for Cause {
    ghost output = { λ cause. Some (cause_text cause) };

    fn fmt<W: fmt::Write>(&self, f: &mut fmt::Formatter<W>) -> fmt::Result {
        f.write_str(match self {
            Cause::NoCause => "no cause",
            Cause::RabPreempted => "RAB pre-empted",
            Cause::TqueuingExpiry => "TQUEUING expiry",
            Cause::RelocationTriggered => "relocation triggered",
            Cause::TrelocprepExpiry => "TRELOCprep expiry",
            Cause::RelocationCancelled => "relocation cancelled",
            Cause::MaximumBitRateNotAvailable => "requested maximum bit rate not available",
            Cause::InvalidValue => "invalid RAB parameters value",
            Cause::InvalidCombination => "invalid RAB parameters combination",
            Cause::RequestSuperseded => "request superseded",
            Cause::InvalidRabId => "invalid RAB ID",
            Cause::IuReleased => "Iu released",
            Cause::TableFull => "table full",
        })
    }
}

// One record of the report list. The size is the size in use for `Done`, otherwise 0.
// It is flat, since the rules give a report as five numbers; the RAB ID is 0 where it concerns a whole connection.
#[derive(Clone, Copy, Debug, PartialEq, Eq)]
pub struct Report {
    pub kind: ReportKind,
    pub place: u8,
    pub rab: u8,
    pub cause: Cause,
    pub size: u8,
}

impl Report {
    // Its five numbers.
    #[tactic(auto, unfolding(crate::specs::Telling::numbers_text))]
    fn write_numbers<W: fmt::Write>(&self, f: &mut fmt::Formatter<W>) -> fmt::Result
        ensures { WritesOnOk W.write_str_gives f.old result (numbers_text self.now) f.new }
    {
        self.write_whose(f)?;
        let cause = self.cause.number();
        write!(f, ",{cause},{}) ", self.size)
    }

    // Kind, place and RAB ID: a proof follows only a few writes at once.
    #[tactic(auto, unfolding(crate::specs::Telling::whose_text))]
    fn write_whose<W: fmt::Write>(&self, f: &mut fmt::Formatter<W>) -> fmt::Result
        ensures { WritesOnOk W.write_str_gives f.old result (whose_text self.now) f.new }
    {
        let kind = self.kind.number();
        write!(f, "({kind},{},{}", self.place, self.rab)
    }

    // Whom it concerns: a RAB, or a whole connection.
    fn write_subject<W: fmt::Write>(&self, f: &mut fmt::Formatter<W>) -> fmt::Result
        ensures { WritesOnOk W.write_str_gives f.old result (subject_text self.now) f.new }
    {
        match self.kind {
            ReportKind::RelocationRequired | ReportKind::RelocationCancel => {
                write!(f, "place {}", self.place)
            }
            _ => write!(f, "RAB {} at place {}", self.rab, self.place),
        }
    }

    // What it adds to its kind: the size in use, or a cause.
    fn write_detail<W: fmt::Write>(&self, f: &mut fmt::Formatter<W>) -> fmt::Result
        ensures { WritesOnOk W.write_str_gives f.old result (detail_text self.now) f.new }
    {
        if self.kind == ReportKind::Done {
            return write!(f, ", size {}", self.size);
        }
        if self.cause == Cause::NoCause {
            return Ok(());
        }
        write!(f, ", {}", self.cause)
    }
}

// Its five numbers, and words for a person.
impl fmt::Display for Report {
    ghost output = { λ report. Some (report_text report) };

    fn fmt<W: fmt::Write>(&self, f: &mut fmt::Formatter<W>) -> fmt::Result {
        self.write_numbers(f)?;
        self.write_subject(f)?;
        write!(f, ": {}", self.kind)?;
        self.write_detail(f)
    }
}
