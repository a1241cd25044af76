// The null mask of a union array: its strategies, its words.
#![tactic(auto)]

mod answers;
pub mod mask;
pub mod named;
mod words;

pub use null_strategy::{Processor, Route};

// A strategy for the words of a mask; all but Gather are for sparse unions.
#[derive(Clone, Copy, Debug, PartialEq, Eq)]
pub enum SparseStrategy {
    Gather,
    SkipOne,
    SkipWithoutNulls,
    SkipFullyNull,
}

// What the null mask and the named strategies answer, beside the words that they write: how many nulls the mask has, if there is one,
// and the route.
#[derive(Clone, Copy, Debug, PartialEq, Eq)]
pub struct LogicalNulls {
    pub null_count: Option<usize>,
    pub route: Route,
}
