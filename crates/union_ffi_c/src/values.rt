// Runs of lookups, for C: the description is read once for all slots of a run.
// The parameters are those of the C header: lent memory is five slices.
ghost use Rattle.std.specs.Prelude.{◌≡◌};
ghost use Rattle.array_columns.specs.Buffers.{buffers_of};
ghost use Rattle.union_array.specs.Values.{values_answer};
ghost use Rattle.union_ffi.specs.Values.{c_values};

use array_columns::Buffers;
use union_c::CArray;

// The ids, the presence (1 where missing) and the values of n slots from `first` on, as `union_array_value` tells them one by one.
#[unsafe(no_mangle)]
pub extern "C" fn union_array_values(
    array: CArray,
    first: usize,
    n: usize,
    type_ids: &[i8],
    offsets: &[i32],
    values: &[u64],
    masks: &[u64],
    names: &[u8],
    ids: &mut [i8],
    missing: &mut [u8],
    bits: &mut [u64],
) -> u8
    ensures { values_answer result ids.new missing.new bits.new
        ≡ c_values array (buffers_of type_ids.now offsets.now values.now masks.now names.now) first n ids.old missing.old bits.old }
{
    union_ffi::values::union_array_values(
        &array,
        first,
        n,
        &Buffers {
            type_ids,
            offsets,
            values,
            masks,
            names,
        },
        ids,
        missing,
        bits,
    )
}
