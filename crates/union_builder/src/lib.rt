// The union builder: its state by value, the memory that it fills lent to each call.
#![tactic(auto)]

mod append;
mod appends;
mod builder;
mod finish;
mod lent;
mod questions;

use array_columns::{Layout, Refusal};
use builder_columns::BuilderColumn;
use union_array::UnionArray;

// A builder of `capacity` slots and at most `limit` columns, with `len` slots and `count` columns so far.
#[derive(Clone, Copy, PartialEq, Eq)]
pub struct UnionBuilder {
    // There is no heap, so all the columns that there can be have their place here.
    pub columns: [BuilderColumn; 128],
    pub capacity: usize,
    pub limit: usize,
    pub len: usize,
    pub count: usize,
    pub layout: Layout,
}

// What `append`, `append_null` and `appends` answer, with the builder handed back. Each answer has a name of its own, as document 01
// has them, and a definition that gives its numbers.
#[derive(Clone, Copy)]
pub struct Appended {
    pub builder: UnionBuilder,
    pub answer: Result<(), Refusal>,
}

// What `len` answers, with the builder handed back.
#[derive(Clone, Copy)]
pub struct Length {
    pub builder: UnionBuilder,
    pub len: usize,
}

// What `finish_cloned` and `finish` answer, with the builder handed back.
#[derive(Clone, Copy)]
pub struct Finished {
    pub builder: UnionBuilder,
    pub answer: Result<UnionArray, Refusal>,
}
