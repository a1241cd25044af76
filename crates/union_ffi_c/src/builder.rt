// The makings of a builder and the calls on it, for C.
// The parameters are those of the C header: lent memory is five slices, a kind a number, and like calls have like ones.
ghost use Rattle.std.specs.Prelude.{◌≡◌};
ghost use Rattle.std.proofs.Math.Option.{none, some};
ghost use Rattle.array_columns.specs.declared.Layout.TheVariants.{Sparse, Dense};
ghost use Rattle.array_columns.specs.Buffers.{buffers_of};
ghost use Rattle.union_ffi.specs.Builders.{c_outcome, c_made, c_append_with, c_len, c_finish_cloned, c_finish};

use array_columns::{Buffers, BuffersMut};
use union_c::{CBuilder, CBuilt, CFinished, CLength};

// A dense builder of `capacity` slots and at most `limit` columns.
#[unsafe(no_mangle)]
pub extern "C" fn union_builder_with_capacity_dense(
    capacity: usize,
    limit: usize,
    type_ids: &[i8],
    offsets: &[i32],
    values: &[u64],
    masks: &[u64],
    names: &[u8],
) -> CBuilt
    ensures { result ≡ c_made Dense capacity limit (buffers_of type_ids.now offsets.now values.now masks.now names.now) }
{
    union_ffi::builder::union_builder_with_capacity_dense(
        capacity,
        limit,
        &Buffers {
            type_ids,
            offsets,
            values,
            masks,
            names,
        },
    )
}

// A sparse builder of `capacity` slots and at most `limit` columns.
#[unsafe(no_mangle)]
pub extern "C" fn union_builder_with_capacity_sparse(
    capacity: usize,
    limit: usize,
    type_ids: &[i8],
    offsets: &[i32],
    values: &[u64],
    masks: &[u64],
    names: &[u8],
) -> CBuilt
    ensures { result ≡ c_made Sparse capacity limit (buffers_of type_ids.now offsets.now values.now masks.now names.now) }
{
    union_ffi::builder::union_builder_with_capacity_sparse(
        capacity,
        limit,
        &Buffers {
            type_ids,
            offsets,
            values,
            masks,
            names,
        },
    )
}

// A dense builder of 1024 slots.
#[unsafe(no_mangle)]
pub extern "C" fn union_builder_new_dense(
    limit: usize,
    type_ids: &[i8],
    offsets: &[i32],
    values: &[u64],
    masks: &[u64],
    names: &[u8],
) -> CBuilt
    ensures { result ≡ c_made Dense 1024 limit (buffers_of type_ids.now offsets.now values.now masks.now names.now) }
{
    union_ffi::builder::union_builder_new_dense(
        limit,
        &Buffers {
            type_ids,
            offsets,
            values,
            masks,
            names,
        },
    )
}

// A sparse builder of 1024 slots.
#[unsafe(no_mangle)]
pub extern "C" fn union_builder_new_sparse(
    limit: usize,
    type_ids: &[i8],
    offsets: &[i32],
    values: &[u64],
    masks: &[u64],
    names: &[u8],
) -> CBuilt
    ensures { result ≡ c_made Sparse 1024 limit (buffers_of type_ids.now offsets.now values.now masks.now names.now) }
{
    union_ffi::builder::union_builder_new_sparse(
        limit,
        &Buffers {
            type_ids,
            offsets,
            values,
            masks,
            names,
        },
    )
}

// Appends a value to the column with the name.
#[unsafe(no_mangle)]
pub extern "C" fn union_builder_append(
    builder: CBuilder,
    name: &[u8],
    kind: u8,
    bits: u64,
    type_ids: &mut [i8],
    offsets: &mut [i32],
    values: &mut [u64],
    masks: &mut [u64],
    names: &mut [u8],
) -> CBuilt
    ensures { c_outcome result (buffers_of type_ids.new offsets.new values.new masks.new names.new)
        ≡ c_append_with builder (buffers_of type_ids.old offsets.old values.old masks.old names.old) name.now kind (some bits) }
{
    union_ffi::builder::union_builder_append(
        &builder,
        name,
        kind,
        bits,
        &mut BuffersMut {
            type_ids,
            offsets,
            values,
            masks,
            names,
        },
    )
}

// Appends a null to the column with the name.
#[unsafe(no_mangle)]
pub extern "C" fn union_builder_append_null(
    builder: CBuilder,
    name: &[u8],
    kind: u8,
    type_ids: &mut [i8],
    offsets: &mut [i32],
    values: &mut [u64],
    masks: &mut [u64],
    names: &mut [u8],
) -> CBuilt
    ensures { c_outcome result (buffers_of type_ids.new offsets.new values.new masks.new names.new)
        ≡ c_append_with builder (buffers_of type_ids.old offsets.old values.old masks.old names.old) name.now kind none }
{
    let mut lent = BuffersMut {
        type_ids,
        offsets,
        values,
        masks,
        names,
    };
    union_ffi::builder::union_builder_append_null(&builder, name, kind, &mut lent)
}

// How many slots there are. Nothing is asked.
#[unsafe(no_mangle)]
pub extern "C" fn union_builder_len(builder: CBuilder) -> CLength
    ensures { result ≡ c_len builder }
{
    union_ffi::builder::union_builder_len(&builder)
}

// Describes the array so far, and keeps the builder.
#[unsafe(no_mangle)]
pub extern "C" fn union_builder_finish_cloned(
    builder: CBuilder,
    type_ids: &[i8],
    offsets: &[i32],
    values: &[u64],
    masks: &[u64],
    names: &[u8],
) -> CFinished
    ensures { result ≡ c_finish_cloned builder (buffers_of type_ids.now offsets.now values.now masks.now names.now) }
{
    union_ffi::builder::union_builder_finish_cloned(
        &builder,
        &Buffers {
            type_ids,
            offsets,
            values,
            masks,
            names,
        },
    )
}

// Describes the array so far, and hands back an empty builder.
#[unsafe(no_mangle)]
pub extern "C" fn union_builder_finish(
    builder: CBuilder,
    type_ids: &[i8],
    offsets: &[i32],
    values: &[u64],
    masks: &[u64],
    names: &[u8],
) -> CFinished
    ensures { result ≡ c_finish builder (buffers_of type_ids.now offsets.now values.now masks.now names.now) }
{
    union_ffi::builder::union_builder_finish(
        &builder,
        &Buffers {
            type_ids,
            offsets,
            values,
            masks,
            names,
        },
    )
}
