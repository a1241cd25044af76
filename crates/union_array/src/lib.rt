// The union array: a description by value over lent memory.
#![tactic(auto)]

pub mod check;
mod fields;
mod lookup;
pub mod questions;
mod run;
pub mod slices;

use array_columns::{Column, Layout};

// A union array: its column list, and the parts of the lent type ids and offsets that are its own.
#[derive(Clone, Copy)]
pub struct UnionArray {
    // At most 128, in place: the library has no heap.
    pub columns: [Column; 128],
    pub fields: usize,
    pub children: usize,
    pub start: usize,
    pub count: usize,
    pub offsets_start: usize,
    pub offsets_count: usize,
    pub layout: Layout,
}

// A name's place in the lent bytes, and its length.
#[derive(Clone, Copy, Debug, PartialEq, Eq)]
pub struct NamePlace {
    pub start: usize,
    pub size: u8,
}

// What `type_names` answers: the first `count` places, in list order.
#[derive(Clone, Copy)]
pub struct TypeNames {
    // As many as there can be columns, in place: the library has no heap.
    pub names: [NamePlace; 128],
    pub count: usize,
}
