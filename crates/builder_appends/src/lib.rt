// One append, below the builder: planned, what it adds written, and what it leaves of the builder.
#![tactic(auto)]

ghost use Rattle.builder_appends.specs.Readings.{Readings};

mod planning;
pub mod questions;
pub mod runs;
pub mod steps;

use builder_columns::BuilderColumn;
use std::marker::Model;

// What an accepted append leaves of a builder: its slots and columns in use, the column with an id, and how many columns get a slot
// after that, each a null but for the column's own if a value was appended. `present` stands beside no value: that is written already.
#[derive(Clone, Copy)]
pub struct Step {
    pub column: BuilderColumn,
    pub id: usize,
    pub len: usize,
    pub count: usize,
    pub rows: usize,
    pub present: bool,
}

// The readings of a run: names in the text, kinds and presence by their numbers, and the values' bits. C hands them in as slices
// that lie side by side.
#[derive(Drop)]
pub struct Readings<'a> {
    pub text: &'a [u8],
    pub starts: &'a [u32],
    pub sizes: &'a [u8],
    pub kinds: &'a [u8],
    pub present: &'a [u8],
    pub bits: &'a [u64],
}

impl<'a> Model for Readings<'a> {
    ghost Value = { Readings };

    ghost view = { λ r. record { text = r.text.now; starts = r.starts.now; sizes = r.sizes.now; kinds = r.kinds.now; present = r.present.now; bits = r.bits.now } };
}

// One reading of a run: where its name lies in the text, its kind and presence by their numbers, and the value's bits. C hands in the
// numbers as they are, and one that names no case is refused.
#[derive(Clone, Copy)]
pub struct Reading {
    pub bits: u64,
    pub start: u32,
    pub size: u8,
    pub kind: u8,
    pub present: u8,
}
