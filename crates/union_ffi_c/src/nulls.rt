// The null mask, for C.
// The parameters are those of the C header: lent memory is five slices.
ghost use Rattle.std.specs.Prelude.{◌≡◌};
ghost use Rattle.array_columns.specs.Buffers.{buffers_of};
ghost use Rattle.union_ffi.specs.Nulls.{c_masked, c_logical_nulls, c_strategy};

use array_columns::Buffers;
use union_c::{CArray, CNulls};

// The null mask at a gather cost: its answer, and its words in `out`.
#[unsafe(no_mangle)]
pub extern "C" fn union_logical_nulls(
    array: CArray,
    cost: usize,
    type_ids: &[i8],
    offsets: &[i32],
    values: &[u64],
    masks: &[u64],
    names: &[u8],
    out: &mut [u64],
) -> CNulls
    ensures { c_masked result out.new ≡ c_logical_nulls array (buffers_of type_ids.now offsets.now values.now masks.now names.now) cost out.old }
{
    union_ffi::nulls::union_logical_nulls(
        &array,
        cost,
        &Buffers {
            type_ids,
            offsets,
            values,
            masks,
            names,
        },
        out,
    )
}

// The null mask by one named strategy, given by its route's number: its answer, and its words in `out`.
#[unsafe(no_mangle)]
pub extern "C" fn union_strategy(
    array: CArray,
    strategy: u8,
    type_ids: &[i8],
    offsets: &[i32],
    values: &[u64],
    masks: &[u64],
    names: &[u8],
    out: &mut [u64],
) -> CNulls
    ensures { c_masked result out.new ≡ c_strategy array (buffers_of type_ids.now offsets.now values.now masks.now names.now) strategy out.old }
{
    union_ffi::nulls::union_strategy(
        &array,
        strategy,
        &Buffers {
            type_ids,
            offsets,
            values,
            masks,
            names,
        },
        out,
    )
}
