// What a frame asks for.
ghost use Rattle.rules.specs.Codes.{Decodes};
ghost use Rattle.rules.specs.Message.{rab_of};
ghost use Rattle.rules.specs.Numbers.{frame_kind_number, frame_kind_of, fewest_items, most_items};
ghost use Rattle.rules.specs.Telling.{priority_text};
ghost use Rattle.std.specs.Prelude.{◌≡◌, false, Some};
ghost use Rattle.std.specs.Range.{range_inclusive_start, range_inclusive_end, range_inclusive_exhausted};

use crate::code::UnknownCode;
use std::fmt;
use std::ops::RangeInclusive;

#[derive(Clone, Copy, Debug, PartialEq, Eq)]
pub enum FrameKind {
    RabAssignmentRequest = 1,
    IuReleaseCommand = 2,
    RelocationCommand = 3,
    RelocationPreparationFailure = 4,
}

impl FrameKind {
    pub fn number(self) -> u8
        ensures { result ≡ frame_kind_number self }
    {
        self as u8
    }

    // How many items a frame of this kind may have.
    pub fn items(self) -> RangeInclusive<usize>
        ensures fewest { range_inclusive_start result ≡ fewest_items self }
        ensures most { range_inclusive_end result ≡ most_items self }
        ensures whole { range_inclusive_exhausted result ≡ false }
    {
        match self {
            FrameKind::RabAssignmentRequest => 1..=32,
            _ => 0..=0,
        }
    }
}

impl TryFrom<u8> for FrameKind {
    type Error = UnknownCode;

    ghost try_from_gives = { Decodes frame_kind_of };

    fn try_from(code: u8) -> Result<Self, UnknownCode> {
        match code {
            1 => Ok(FrameKind::RabAssignmentRequest),
            2 => Ok(FrameKind::IuReleaseCommand),
            3 => Ok(FrameKind::RelocationCommand),
            4 => Ok(FrameKind::RelocationPreparationFailure),
            _ => Err(UnknownCode(code)),
        }
    }
}

// Where an item stands in its frame.
#[derive(Clone, Copy, Debug, PartialEq, Eq)]
pub struct Pair {
    pub offset: u16,
    pub length: u16,
}

// Allocation/Retention Priority: the level, 1 the highest, and three rights:
// may trigger pre-emption, pre-emptable, queuing allowed.
#[derive(Clone, Copy, Debug, Default, PartialEq, Eq)]
pub struct Priority {
    pub level: u8,
    pub triggers: bool,
    pub preemptable: bool,
    pub queuing: bool,
}

impl fmt::Display for Priority {
    ghost output = { λ priority. Some (priority_text priority) };

    fn fmt<W: fmt::Write>(&self, f: &mut fmt::Formatter<W>) -> fmt::Result {
        write!(f, "level {}", self.level)?;
        if self.triggers {
            f.write_str(", may pre-empt")?;
        }
        if self.preemptable {
            f.write_str(", pre-emptable")?;
        }
        if self.queuing {
            f.write_str(", may queue")?;
        }
        Ok(())
    }
}

// Which parts an item has: RAB parameters, Allocation/Retention Priority, NAS Synchronisation Indicator,
// Transport Layer Information, User Plane Information.
#[derive(Clone, Copy, Debug, PartialEq, Eq)]
pub struct Flags {
    pub parameters: bool,
    pub priority: bool,
    pub synchronisation: bool,
    pub transport: bool,
    pub plane: bool,
}

// A set-up or modify item.
#[derive(Clone, Copy, Debug, PartialEq, Eq)]
pub struct Assignment {
    pub rab: u8,
    pub flags: Flags,
    pub size: u8,
    pub priority: Priority,
}

#[derive(Clone, Copy, Debug, PartialEq, Eq)]
pub enum Item {
    Assign(Assignment),
    Release(u8),
}

impl Item {
    pub fn rab(self) -> u8
        ensures { result ≡ rab_of self }
    {
        match self {
            Item::Assign(assignment) => assignment.rab,
            Item::Release(rab) => rab,
        }
    }
}

// An item with its offset in the frame.
#[derive(Clone, Copy, Debug, PartialEq, Eq)]
pub struct ReadItem {
    pub offset: u16,
    pub item: Item,
}
