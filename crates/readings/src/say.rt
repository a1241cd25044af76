// Answers in words.
use crate::commands::{Fault, Making};
use crate::mask::{Marks, Mask};
use crate::table::Table;
use crate::texts::Counted;
use array_columns::Refusal;
use program_kit::output::layout_name;
use std::alloc::{AllocError, AllocFailed};
use std::fmt;

// What an append answers: the column of the reading, and whether it is new; the slots so far. The flags stand beside no value that
// could be absent: each is a word of the answer.
#[derive(Clone, Copy)]
pub struct Appended {
    pub missing: bool,
    pub fresh: bool,
    pub column: usize,
    pub len: usize,
}

// What a command answers.
#[derive(Drop)]
pub enum Answer {
    Made(Making),
    Appended(Appended),
    Len(usize),
    Snapshot(Table),
    Finished(Table),
    Slice(Table),
    Mask(Mask),
}

// Why a command is not done. A name is as it is printed.
#[derive(Drop)]
pub enum Denied {
    Bad(Fault),
    NoBuilder,
    NoBatch,
    Refused(Refusal),
    OtherKind(String),
    Memory(AllocError),
}

impl From<Fault> for Denied {
    fn from(fault: Fault) -> Denied {
        Denied::Bad(fault)
    }
}

impl From<Refusal> for Denied {
    fn from(refusal: Refusal) -> Denied {
        Denied::Refused(refusal)
    }
}

impl From<AllocError> for Denied {
    fn from(e: AllocError) -> Denied {
        Denied::Memory(e)
    }
}

impl<T: Drop> From<AllocFailed<T>> for Denied {
    fn from(e: AllocFailed<T>) -> Denied {
        Denied::Memory(AllocError::from(e))
    }
}

// What each refusal of document 01 says in this program; its `Display` is the number.
fn sentence(refusal: Refusal) -> &'static str {
    match refusal {
        Refusal::FieldIds =>
            "more than 128 columns, or ids that are not distinct and from 0 to 127",
        Refusal::ChildCount => "not as many children as columns",
        Refusal::PartNotLent => "a part lies outside the memory, or a name has more than 32 bytes",
        Refusal::TooManySlots => "more than 65536 slots",
        Refusal::OffsetCount => "not as many offsets as slots",
        Refusal::ChildSlots => "a column has not as many slots as the batch",
        Refusal::UnknownTypeId => "a slot's id names no column",
        Refusal::OffsetRange => "an offset lies outside its column",
        Refusal::SliceRange => "the slice ends after the last slot",
        Refusal::IndexRange => "no such slot",
        Refusal::UnknownId => "no such column",
        Refusal::UnknownSetting => "the setting is none of 10, 3, 2 and 0",
        Refusal::MaskRoom => "too few words for the mask",
        Refusal::StrategyNotAllowed => "the strategy does not apply",
        Refusal::BuilderNumbers => "a builder has 1 to 65536 slots and 1 to 128 columns",
        Refusal::BuilderRoom => "the memory is too small for so many slots and columns",
        Refusal::NameNotFit => "the name is not UTF-8 of at most 32 bytes",
        Refusal::KindMismatch => "the column has another kind",
        Refusal::CapacityReached => "every slot is taken",
        Refusal::ColumnsReached => "every column is taken",
        Refusal::UnknownNumber | Refusal::LengthMismatch => "unknown",
    }
}

impl fmt::Display for Denied {
    fn fmt<W: fmt::Write>(&self, f: &mut fmt::Formatter<W>) -> fmt::Result {
        match self {
            Denied::Bad(fault) => write!(f, "bad line: {fault}"),
            Denied::NoBuilder => f.write_str("no builder yet"),
            Denied::NoBatch => f.write_str("no batch yet"),
            Denied::Refused(no) => write!(f, "refused {no}: {}", sentence(*no)),
            Denied::OtherKind(name) => {
                let no = Refusal::KindMismatch;
                write!(f, "refused {no}: the column \"{name}\" has another kind")
            }
            Denied::Memory(e) => write!(f, "{e}"),
        }
    }
}

impl fmt::Display for Making {
    fn fmt<W: fmt::Write>(&self, f: &mut fmt::Formatter<W>) -> fmt::Result {
        let layout = layout_name(self.layout);
        let slots = Counted(self.capacity, "slot");
        let columns = Counted(self.limit, "column");
        write!(f, "{layout} builder of {slots} and {columns}")
    }
}

impl fmt::Display for Appended {
    fn fmt<W: fmt::Write>(&self, f: &mut fmt::Formatter<W>) -> fmt::Result {
        let null = if self.missing { "null " } else { "" };
        let new = if self.fresh { "new " } else { "" };
        let column = self.column;
        let slots = Counted(self.len, "slot");
        write!(f, "{null}appended to {new}column {column}, {slots} so far")
    }
}

impl fmt::Display for Answer {
    fn fmt<W: fmt::Write>(&self, f: &mut fmt::Formatter<W>) -> fmt::Result {
        match self {
            Answer::Made(m) => write!(f, "{m}"),
            Answer::Appended(a) => write!(f, "{a}"),
            Answer::Len(n) => write!(f, "{} so far", Counted(*n, "slot")),
            Answer::Snapshot(t) => write!(f, "snapshot of {}\n{t}", Counted(t.len(), "slot")),
            Answer::Finished(t) => {
                let slots = Counted(t.len(), "slot");
                write!(
                    f,
                    "finished {slots}; the builder is now empty and sparse\n{t}"
                )
            }
            Answer::Slice(t) => write!(f, "slice of {}\n{t}", Counted(t.len(), "slot")),
            Answer::Mask(mask) => write!(f, "{mask}{}", Marks(mask)),
        }
    }
}
