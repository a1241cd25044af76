// Numbers and C structs, read as the crates below have them, and written back. C's numbers are this crate's: a test tells whether one
// names a case, and what reads it can't fail, since a caller may have asked before.
ghost use Rattle.std.specs.Prelude.{◌≡◌, ◌≤◌, length};
ghost use Rattle.std.specs.List.{list_all};
ghost use Rattle.array_columns.specs.Numbers.{layout_from};
ghost use Rattle.union_c.specs.Numbers.{is_case, entries_used, first_by};
ghost use Rattle.union_c.specs.Arrays.{column_from, is_column, array_from, is_array, array_named, column_to, array_to, name_to};
ghost use Rattle.union_c.specs.Nulls.{strategy_from, strategy_named};
ghost use Rattle.union_c.specs.Builders.{builder_column_from, is_builder_column, builder_from, is_builder, builder_named, builder_column_to, builder_to, builder_into, no_c_builder};

use crate::{CArray, CBuilder, CBuilderColumn, CColumn, CNamePlace};
use array_columns::{Column, Kind, Layout, Refusal};
use builder_columns::BuilderColumn;
use logical_nulls::SparseStrategy;
use union_array::{NamePlace, UnionArray};
use union_builder::UnionBuilder;

// The layout with a number; any other number is read as sparse.
fn layout_from(n: u8) -> Layout
    ensures { result ≡ layout_from n }
{
    if n == 1 {
        Layout::Dense
    } else {
        Layout::Sparse
    }
}

// Whether the numbers of a column's kind and mask name cases.
#[tactic(auto, unfolding(crate::specs::Numbers::is_case))]
fn is_case(kind: u8, masked: u8) -> bool
    ensures { result ≡ is_case kind masked }
{
    kind < 10 && masked < 2
}

// The strategy with a route's number; any other number is read as Gather's.
pub fn strategy_from(n: u8) -> SparseStrategy
    ensures { result ≡ strategy_from n }
{
    match n {
        4 => SparseStrategy::SkipOne,
        5 => SparseStrategy::SkipWithoutNulls,
        6 => SparseStrategy::SkipFullyNull,
        _ => SparseStrategy::Gather,
    }
}

// The strategy with a route's number, if there is one.
pub fn strategy_named(n: u8) -> Result<SparseStrategy, Refusal>
    ensures { result ≡ strategy_named n }
{
    match n {
        3..=6 => Ok(strategy_from(n)),
        _ => Err(Refusal::UnknownNumber),
    }
}

// How many of 128 entries are in use.
pub(crate) fn in_use(n: usize) -> usize
    ensures within { result ≤ 128 }
    ensures value { result ≡ entries_used n }
{
    n.min(128)
}

// Entries, each turned into another type, with those of `rest` after them. `to` says into what. The arrays are fields of structs;
// other crates fill theirs in three lines of their own.
pub(crate) fn turned<T: Copy, C: Copy + From<T>>(entries: &[T], rest: [C; 128]) -> [C; 128]
    ghost to: { T → C }
    requires few { length entries.now ≤ 128 }
    requires turns { (x : T) (c : C) → C.from_gives x c → c ≡ to x }
    ensures { result ≡ first_by (length entries.now) to entries.now rest }
{
    let mut out = rest;
    for (k, x) in entries.iter().enumerate() {
        out[k] = C::from(*x);
    }
    out
}

impl CColumn {
    // Whether its numbers name cases.
    fn is_column(&self) -> bool
        ensures { result ≡ is_column self.now }
    {
        is_case(self.kind, self.masked)
    }

    // Whether the numbers of each name cases. In `is_array` itself the `all` was not proved.
    fn are_columns(columns: &[CColumn]) -> bool
        ensures { result ≡ list_all is_column columns.now }
    {
        columns.iter().all(|c| c.is_column())
    }
}

impl From<CColumn> for Column {
    ghost from_gives = { λ c column. column ≡ column_from c };

    fn from(c: CColumn) -> Column {
        Column {
            values: c.values,
            mask: c.mask,
            name: c.name,
            slots: c.slots,
            bit: c.bit,
            size: c.size,
            id: c.id,
            kind: Kind::from_number(c.kind),
            masked: c.masked == 1,
        }
    }
}

impl From<Column> for CColumn {
    ghost from_gives = { λ column c. c ≡ column_to column };

    fn from(column: Column) -> CColumn {
        CColumn {
            values: column.values,
            mask: column.mask,
            name: column.name,
            slots: column.slots,
            bit: column.bit,
            size: column.size,
            id: column.id,
            kind: column.kind.number(),
            masked: column.masked as u8,
        }
    }
}

impl From<NamePlace> for CNamePlace {
    ghost from_gives = { λ name c. c ≡ name_to name };

    fn from(name: NamePlace) -> CNamePlace {
        CNamePlace {
            start: name.start,
            size: name.size,
        }
    }
}

impl CArray {
    // Whether each number of its columns in use names a case, and its layout does. Later columns are not read.
    #[tactic(auto, using(crate::proofs::Maps::all_used), unfolding(crate::specs::Arrays::is_array))]
    pub fn is_array(&self) -> bool
        ensures { result ≡ is_array self.now }
    {
        let n = in_use(self.fields);
        self.layout < 2 && CColumn::are_columns(&self.columns[..n])
    }

    // The array that a caller describes; a number that names no case is read as the first.
    #[tactic(auto, using(crate::proofs::Maps::written_is), unfolding(crate::specs::Arrays::array_from))]
    pub fn array(&self) -> UnionArray
        ensures { result ≡ array_from self.now }
    {
        let n = in_use(self.fields);
        UnionArray {
            columns: turned(&self.columns[..n], [Column::zeros(); 128]),
            fields: self.fields,
            children: self.children,
            start: self.start,
            count: self.count,
            offsets_start: self.offsets_start,
            offsets_count: self.offsets_count,
            layout: layout_from(self.layout),
        }
    }

    // The array that a caller describes, if its numbers name cases. A builder's is like it: a trait for both would be longer.
    pub fn read(&self) -> Result<UnionArray, Refusal>
        ensures { result ≡ array_named self.now }
    {
        if !self.is_array() {
            return Err(Refusal::UnknownNumber);
        }
        Ok(self.array())
    }
}

impl From<UnionArray> for CArray {
    ghost from_gives = { λ a c. c ≡ array_to a };

    #[tactic(auto, using(crate::proofs::Maps::written_is), unfolding(crate::specs::Arrays::array_to))]
    fn from(a: UnionArray) -> CArray {
        let n = in_use(a.fields);
        let zeros = CColumn::from(Column::zeros());
        CArray {
            columns: turned(&a.columns[..n], [zeros; 128]),
            fields: a.fields,
            children: a.children,
            start: a.start,
            count: a.count,
            offsets_start: a.offsets_start,
            offsets_count: a.offsets_count,
            layout: a.layout as u8,
        }
    }
}

impl CBuilderColumn {
    // Whether its numbers name cases.
    fn is_column(&self) -> bool
        ensures { result ≡ is_builder_column self.now }
    {
        is_case(self.kind, self.masked)
    }

    // Whether the numbers of each name cases. In `is_builder` itself the `all` was not proved.
    fn are_columns(columns: &[CBuilderColumn]) -> bool
        ensures { result ≡ list_all is_builder_column columns.now }
    {
        columns.iter().all(|c| c.is_column())
    }
}

impl From<CBuilderColumn> for BuilderColumn {
    ghost from_gives = { λ c column. column ≡ builder_column_from c };

    fn from(c: CBuilderColumn) -> BuilderColumn {
        BuilderColumn {
            slots: c.slots,
            size: c.size,
            kind: Kind::from_number(c.kind),
            masked: c.masked == 1,
        }
    }
}

impl From<BuilderColumn> for CBuilderColumn {
    ghost from_gives = { λ column c. c ≡ builder_column_to column };

    fn from(column: BuilderColumn) -> CBuilderColumn {
        CBuilderColumn {
            slots: column.slots,
            size: column.size,
            kind: column.kind.number(),
            masked: column.masked as u8,
        }
    }
}

impl CBuilder {
    // The builder of zeros.
    pub(crate) fn zeros() -> CBuilder
        ensures { result ≡ no_c_builder }
    {
        CBuilder {
            columns: [CBuilderColumn {
                slots: 0,
                size: 0,
                kind: 0,
                masked: 0,
            }; 128],
            capacity: 0,
            limit: 0,
            len: 0,
            count: 0,
            layout: 0,
        }
    }

    // Whether each number of its columns in use names a case, and its layout does. Later columns are not read.
    #[tactic(auto, using(crate::proofs::Maps::all_used), unfolding(crate::specs::Builders::is_builder))]
    pub fn is_builder(&self) -> bool
        ensures { result ≡ is_builder self.now }
    {
        let n = in_use(self.count);
        self.layout < 2 && CBuilderColumn::are_columns(&self.columns[..n])
    }

    // The builder that a caller keeps; a number that names no case is read as the first.
    #[tactic(auto, using(crate::proofs::Maps::written_is), unfolding(crate::specs::Builders::builder_from))]
    pub fn builder(&self) -> UnionBuilder
        ensures { result ≡ builder_from self.now }
    {
        let n = in_use(self.count);
        UnionBuilder {
            columns: turned(&self.columns[..n], [BuilderColumn::zeros(); 128]),
            capacity: self.capacity,
            limit: self.limit,
            len: self.len,
            count: self.count,
            layout: layout_from(self.layout),
        }
    }

    // The builder that a caller keeps, if its numbers name cases, as an array's.
    pub fn read(&self) -> Result<UnionBuilder, Refusal>
        ensures { result ≡ builder_named self.now }
    {
        if !self.is_builder() {
            return Err(Refusal::UnknownNumber);
        }
        Ok(self.builder())
    }

    // A builder as it is handed to a caller who keeps this one: columns past those in use stay as they are.
    #[tactic(auto, using(crate::proofs::Maps::written_is), unfolding(crate::specs::Builders::builder_into))]
    pub fn holding(&self, b: UnionBuilder) -> CBuilder
        ensures { result ≡ builder_into self.now b }
    {
        let n = in_use(b.count);
        CBuilder {
            columns: turned(&b.columns[..n], self.columns),
            capacity: b.capacity,
            limit: b.limit,
            len: b.len,
            count: b.count,
            layout: b.layout as u8,
        }
    }
}

impl From<UnionBuilder> for CBuilder {
    ghost from_gives = { λ b c. c ≡ builder_to b };

    fn from(b: UnionBuilder) -> CBuilder {
        CBuilder::zeros().holding(b)
    }
}
