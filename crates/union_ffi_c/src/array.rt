// The calls on an array, for C.
// The parameters are those of the C header: lent memory is five slices, and like calls have like ones.
ghost use Rattle.std.specs.Prelude.{◌≡◌};
ghost use Rattle.array_columns.specs.Buffers.{buffers_of};
ghost use Rattle.union_ffi.specs.Arrays.{c_try_new, c_value, c_type_id, c_value_offset, c_child, c_type_names, c_is_dense, c_is_nullable, c_type_ids, c_slice};

use array_columns::Buffers;
use union_c::{CArray, CChild, CFlag, CPart, CSlice, CTypeId, CTypeNames, CValue, CValueOffset};

// Whether the description is one of a union array over the memory lent.
#[unsafe(no_mangle)]
pub extern "C" fn union_array_try_new(
    array: CArray,
    type_ids: &[i8],
    offsets: &[i32],
    values: &[u64],
    masks: &[u64],
    names: &[u8],
) -> u8
    ensures { result ≡ c_try_new array (buffers_of type_ids.now offsets.now values.now masks.now names.now) }
{
    union_ffi::array::union_array_try_new(
        &array,
        &Buffers {
            type_ids,
            offsets,
            values,
            masks,
            names,
        },
    )
}

// Slot i's id, name, kind and value.
#[unsafe(no_mangle)]
pub extern "C" fn union_array_value(
    array: CArray,
    i: usize,
    type_ids: &[i8],
    offsets: &[i32],
    values: &[u64],
    masks: &[u64],
    names: &[u8],
) -> CValue
    ensures { result ≡ c_value array (buffers_of type_ids.now offsets.now values.now masks.now names.now) i }
{
    union_ffi::array::union_array_value(
        &array,
        i,
        &Buffers {
            type_ids,
            offsets,
            values,
            masks,
            names,
        },
    )
}

// Slot i's type id.
#[unsafe(no_mangle)]
pub extern "C" fn union_array_type_id(
    array: CArray,
    i: usize,
    type_ids: &[i8],
    offsets: &[i32],
    values: &[u64],
    masks: &[u64],
    names: &[u8],
) -> CTypeId
    ensures { result ≡ c_type_id array (buffers_of type_ids.now offsets.now values.now masks.now names.now) i }
{
    union_ffi::array::union_array_type_id(
        &array,
        i,
        &Buffers {
            type_ids,
            offsets,
            values,
            masks,
            names,
        },
    )
}

// Slot i's slot in its child.
#[unsafe(no_mangle)]
pub extern "C" fn union_array_value_offset(
    array: CArray,
    i: usize,
    type_ids: &[i8],
    offsets: &[i32],
    values: &[u64],
    masks: &[u64],
    names: &[u8],
) -> CValueOffset
    ensures { result ≡ c_value_offset array (buffers_of type_ids.now offsets.now values.now masks.now names.now) i }
{
    union_ffi::array::union_array_value_offset(
        &array,
        i,
        &Buffers {
            type_ids,
            offsets,
            values,
            masks,
            names,
        },
    )
}

// The column with an id.
#[unsafe(no_mangle)]
pub extern "C" fn union_array_child(
    array: CArray,
    id: i8,
    type_ids: &[i8],
    offsets: &[i32],
    values: &[u64],
    masks: &[u64],
    names: &[u8],
) -> CChild
    ensures { result ≡ c_child array (buffers_of type_ids.now offsets.now values.now masks.now names.now) id }
{
    union_ffi::array::union_array_child(
        &array,
        id,
        &Buffers {
            type_ids,
            offsets,
            values,
            masks,
            names,
        },
    )
}

// The places of the names, in list order, and how many.
#[unsafe(no_mangle)]
pub extern "C" fn union_array_type_names(
    array: CArray,
    type_ids: &[i8],
    offsets: &[i32],
    values: &[u64],
    masks: &[u64],
    names: &[u8],
) -> CTypeNames
    ensures { result ≡ c_type_names array (buffers_of type_ids.now offsets.now values.now masks.now names.now) }
{
    union_ffi::array::union_array_type_names(
        &array,
        &Buffers {
            type_ids,
            offsets,
            values,
            masks,
            names,
        },
    )
}

// Whether the layout is dense.
#[unsafe(no_mangle)]
pub extern "C" fn union_array_is_dense(
    array: CArray,
    type_ids: &[i8],
    offsets: &[i32],
    values: &[u64],
    masks: &[u64],
    names: &[u8],
) -> CFlag
    ensures { result ≡ c_is_dense array (buffers_of type_ids.now offsets.now values.now masks.now names.now) }
{
    union_ffi::array::union_array_is_dense(
        &array,
        &Buffers {
            type_ids,
            offsets,
            values,
            masks,
            names,
        },
    )
}

// Whether some child has a null anywhere in it.
#[unsafe(no_mangle)]
pub extern "C" fn union_array_is_nullable(
    array: CArray,
    type_ids: &[i8],
    offsets: &[i32],
    values: &[u64],
    masks: &[u64],
    names: &[u8],
) -> CFlag
    ensures { result ≡ c_is_nullable array (buffers_of type_ids.now offsets.now values.now masks.now names.now) }
{
    union_ffi::array::union_array_is_nullable(
        &array,
        &Buffers {
            type_ids,
            offsets,
            values,
            masks,
            names,
        },
    )
}

// Where the array's type ids are among those lent: the start and the count of that part.
#[unsafe(no_mangle)]
pub extern "C" fn union_array_type_ids(
    array: CArray,
    type_ids: &[i8],
    offsets: &[i32],
    values: &[u64],
    masks: &[u64],
    names: &[u8],
) -> CPart
    ensures { result ≡ c_type_ids array (buffers_of type_ids.now offsets.now values.now masks.now names.now) }
{
    union_ffi::array::union_array_type_ids(
        &array,
        &Buffers {
            type_ids,
            offsets,
            values,
            masks,
            names,
        },
    )
}

// Slots o to o + n - 1.
#[unsafe(no_mangle)]
pub extern "C" fn union_array_slice(
    array: CArray,
    o: usize,
    n: usize,
    type_ids: &[i8],
    offsets: &[i32],
    values: &[u64],
    masks: &[u64],
    names: &[u8],
) -> CSlice
    ensures { result ≡ c_slice array (buffers_of type_ids.now offsets.now values.now masks.now names.now) o n }
{
    union_ffi::array::union_array_slice(
        &array,
        o,
        n,
        &Buffers {
            type_ids,
            offsets,
            values,
            masks,
            names,
        },
    )
}
