// A builder's columns, below its appends: a column, where an append goes, and what it writes.
#![tactic(auto)]

pub mod columns;
pub mod find;
pub mod fitting;
pub mod planning;
pub mod slots;
pub mod store;

use array_columns::{Kind, Layout};

// A column that is being built. Its id is its place in the builder.
#[derive(Clone, Copy, Debug, PartialEq, Eq)]
pub struct BuilderColumn {
    pub slots: u32,
    // The name's length in bytes.
    pub size: u8,
    pub kind: Kind,
    pub masked: bool,
}

// A builder but for its columns, for the crates below `union_builder`: an `impl` stands where its type is declared.
#[derive(Clone, Copy)]
pub struct BuilderHead {
    pub capacity: usize,
    pub limit: usize,
    pub len: usize,
    pub count: usize,
    pub layout: Layout,
}

// The first column with a name.
#[derive(Clone, Copy)]
pub struct Found {
    pub column: BuilderColumn,
    pub id: usize,
}

// What an append is to do: its column as it is before the new slot, the columns in use after, and whether the name is new. `fresh`
// stands beside no value: all else is there of a known name, too.
#[derive(Clone, Copy)]
pub struct Plan {
    pub column: BuilderColumn,
    pub id: usize,
    pub count: usize,
    pub fresh: bool,
}
