// What a line asks, or why it is bad.
use crate::texts::Named;
use array_columns::{Kind, Layout};
use program_kit::builders::Reading;
use std::fmt;

// A builder to be made.
#[derive(Clone, Copy)]
pub struct Making {
    pub layout: Layout,
    pub capacity: usize,
    pub limit: usize,
}

#[derive(Clone, Copy)]
pub enum Command<'a> {
    Make(Making),
    Append(Reading<'a>),
    Len,
    Snapshot,
    Finish,
    Slice { start: usize, count: usize },
    Mask { setting: usize },
}

// Why a line is bad.
#[derive(Clone, Copy)]
pub enum Fault {
    Long,
    Unknown,
    Missing,
    Extra,
    Number,
    Quote,
    Kind,
    Value(Kind),
}

impl fmt::Display for Fault {
    fn fmt<W: fmt::Write>(&self, f: &mut fmt::Formatter<W>) -> fmt::Result {
        match *self {
            Fault::Long => f.write_str("the line is longer than 1024 bytes"),
            Fault::Unknown => f.write_str("no such command"),
            Fault::Missing => f.write_str("a word is missing"),
            Fault::Extra => f.write_str("there are words after the command"),
            Fault::Number => f.write_str("not a number from 0 to 18446744073709551615"),
            Fault::Quote => f.write_str("the name's quotes are not closed"),
            Fault::Kind => f.write_str("no such kind"),
            Fault::Value(kind) => { write!(f, "the value is not a number of kind {}", Named(kind)) }
        }
    }
}
