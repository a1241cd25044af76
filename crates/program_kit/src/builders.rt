// Calls of a builder, each by the memory lent to it.
ghost use Rattle.std.specs.Prelude.{◌≡◌};

use array_columns::{Buffers, BuffersMut, Kind, Layout, Refusal};
use union_array::UnionArray;
use union_builder::UnionBuilder;

// What an append is given: a name, and a value's bits of a kind, or a null.
#[derive(Clone, Copy)]
pub struct Reading<'a> {
    pub name: &'a [u8],
    pub kind: Kind,
    pub value: Option<u64>,
}

// A builder of a layout; one of 1024 slots is by `new_dense` or `new_sparse`. By a match, since each of the four makings is run.
pub fn make(
    layout: Layout,
    slots: usize,
    columns: usize,
    lent: &Buffers<'_, '_>,
) -> Result<UnionBuilder, Refusal> {
    match (layout, slots) {
        (Layout::Dense, 1024) => UnionBuilder::new_dense(columns, lent),
        (Layout::Dense, _) => UnionBuilder::with_capacity_dense(slots, columns, lent),
        (Layout::Sparse, 1024) => UnionBuilder::new_sparse(columns, lent),
        (Layout::Sparse, _) => UnionBuilder::with_capacity_sparse(slots, columns, lent),
    }
}

// What stands for a builder whose making was refused, to which nothing is appended: sparse, of no slots and no columns.
pub fn refused() -> UnionBuilder {
    UnionBuilder::empty(Layout::Sparse, 0, 0)
}

// Appends a reading.
pub fn append(
    b: &mut UnionBuilder,
    reading: &Reading<'_>,
    lent: &mut BuffersMut<'_>,
) -> Result<(), Refusal> {
    let Reading { name, kind, value } = *reading;
    let r = match value {
        Some(bits) => b.append(name, kind, bits, lent),
        None => b.append_null(name, kind, lent),
    };
    *b = r.builder;
    r.answer
}

// The same by `append_mut`; a null has no such call.
pub fn append_lent(
    b: &mut UnionBuilder,
    reading: &Reading<'_>,
    lent: &mut BuffersMut<'_>,
) -> Result<(), Refusal> {
    match reading.value {
        Some(bits) => b.append_mut(reading.name, reading.kind, bits, lent),
        None => append(b, reading, lent),
    }
}

// How many slots there are.
pub fn len(b: &UnionBuilder) -> usize
    ensures { result ≡ b.now.len }
{
    b.len().len
}

// The batch so far.
pub fn finish_cloned(b: &UnionBuilder, lent: &Buffers<'_, '_>) -> Result<UnionArray, Refusal> {
    b.finish_cloned(lent).answer
}

// The last batch, which empties the builder.
pub fn finish(b: &mut UnionBuilder, lent: &Buffers<'_, '_>) -> Result<UnionArray, Refusal> {
    let r = b.finish(lent);
    *b = r.builder;
    r.answer
}
