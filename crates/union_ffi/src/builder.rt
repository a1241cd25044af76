// The makings of a builder and the calls on it, for C: four makings by C's names, and calls that are each a `match`, as in `array`. A
// kind is C's number. What is made, and what is appended, goes with the memory in one call alone, so no struct holds them.
ghost use Rattle.std.specs.Prelude.{◌≡◌};
ghost use Rattle.array_columns.specs.Buffers.{held, Same};
ghost use Rattle.std.proofs.Math.Option.{none, some};
ghost use Rattle.array_columns.specs.declared.Layout.TheVariants.{Sparse, Dense};
ghost use Rattle.union_ffi.specs.Builders.{c_outcome, c_made, c_append_with, c_len, c_finish_cloned, c_finish, append_named};

use array_columns::{Buffers, BuffersMut, Kind, Refusal};
use union_builder::UnionBuilder;
use union_c::{CBuilder, CBuilt, CFinished, CLength};

// A dense builder of `capacity` slots and at most `limit` columns.
pub fn union_builder_with_capacity_dense(capacity: usize, limit: usize, lent: &Buffers) -> CBuilt
    ensures { result ≡ c_made Dense capacity limit lent.now }
{
    CBuilt::from(UnionBuilder::with_capacity_dense(capacity, limit, lent))
}

// A sparse builder of `capacity` slots and at most `limit` columns.
pub fn union_builder_with_capacity_sparse(capacity: usize, limit: usize, lent: &Buffers) -> CBuilt
    ensures { result ≡ c_made Sparse capacity limit lent.now }
{
    CBuilt::from(UnionBuilder::with_capacity_sparse(capacity, limit, lent))
}

// A dense builder of 1024 slots.
pub fn union_builder_new_dense(limit: usize, lent: &Buffers) -> CBuilt
    ensures { result ≡ c_made Dense 1024 limit lent.now }
{
    CBuilt::from(UnionBuilder::new_dense(limit, lent))
}

// A sparse builder of 1024 slots.
pub fn union_builder_new_sparse(limit: usize, lent: &Buffers) -> CBuilt
    ensures { result ≡ c_made Sparse 1024 limit lent.now }
{
    CBuilt::from(UnionBuilder::new_sparse(limit, lent))
}

// The builder and the kind that a caller names.
fn named_append(builder: &CBuilder, kind: u8) -> Result<(UnionBuilder, Kind), Refusal>
    ensures { result ≡ append_named builder.now kind }
{
    Ok((builder.read()?, Kind::try_from(kind)?))
}

// Appends a value to the column with the name.
#[tactic(auto, unfolding(crate::specs::Builders::c_append_with))]
pub fn union_builder_append(
    builder: &CBuilder,
    name: &[u8],
    kind: u8,
    bits: u64,
    lent: &mut BuffersMut,
) -> CBuilt
    ensures same { Same lent.new lent.old }
    ensures after { c_outcome result (held lent.new) ≡ c_append_with builder.now (held lent.old) name.now kind (some bits) }
{
    match named_append(builder, kind) {
        Ok((b, k)) => builder.appended(b.append(name, k, bits, lent)),
        Err(refusal) => builder.refused(refusal),
    }
}

// Appends a null to the column with the name.
#[tactic(auto, unfolding(crate::specs::Builders::c_append_with))]
pub fn union_builder_append_null(
    builder: &CBuilder,
    name: &[u8],
    kind: u8,
    lent: &mut BuffersMut,
) -> CBuilt
    ensures same { Same lent.new lent.old }
    ensures after { c_outcome result (held lent.new) ≡ c_append_with builder.now (held lent.old) name.now kind none }
{
    match named_append(builder, kind) {
        Ok((b, k)) => builder.appended(b.append_null(name, k, lent)),
        Err(refusal) => builder.refused(refusal),
    }
}

// How many slots there are. Nothing is asked.
#[tactic(auto, unfolding(crate::specs::Builders::c_len, union_c::specs::Builders::builder_from))]
pub fn union_builder_len(builder: &CBuilder) -> CLength
    ensures { result ≡ c_len builder.now }
{
    CLength {
        builder: *builder,
        len: builder.len,
    }
}

// Describes the array so far, and keeps the builder.
#[tactic(auto, using(crate::proofs::Boundary::kept_told), unfolding(crate::specs::Builders::c_finish_cloned))]
pub fn union_builder_finish_cloned(builder: &CBuilder, lent: &Buffers) -> CFinished
    ensures { result ≡ c_finish_cloned builder.now lent.now }
{
    match builder.read() {
        Ok(b) => builder.kept(b.finish_cloned(lent).answer),
        Err(refusal) => builder.kept(Err(refusal)),
    }
}

// Describes the array so far, and hands back an empty builder.
#[tactic(auto, unfolding(crate::specs::Builders::c_finish))]
pub fn union_builder_finish(builder: &CBuilder, lent: &Buffers) -> CFinished
    ensures { result ≡ c_finish builder.now lent.now }
{
    match builder.read() {
        Ok(b) => builder.finished(b.finish(lent)),
        Err(refusal) => builder.kept(Err(refusal)),
    }
}
