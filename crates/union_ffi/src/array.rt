// The calls on an array, for C. Each is a `match` of its own: handed to `and_then` or to one function as a closure, none is proved
// without a proof written out, and a function with `?` for each would be two for one. A slot's number goes with the array and the
// memory in one call alone, so no struct holds them.
ghost use Rattle.std.specs.Prelude.{◌≡◌};
ghost use Rattle.array_columns.specs.Refusal.{number_of};
ghost use Rattle.union_ffi.specs.Arrays.{c_try_new, c_value, c_type_id, c_value_offset, c_child, c_type_names, c_is_dense, c_is_nullable, c_type_ids, c_slice, c_asked};

use array_columns::refusals::number_of;
use array_columns::{Buffers, Refusal};
use union_c::{CArray, CChild, CFlag, CPart, CSlice, CTypeId, CTypeNames, CValue, CValueOffset};

// Whether the description is one of a union array over the memory lent.
#[tactic(auto, unfolding(crate::specs::Arrays::c_try_new))]
pub fn union_array_try_new(array: &CArray, lent: &Buffers) -> u8
    ensures { result ≡ c_try_new array.now lent.now }
{
    match array.read() {
        Ok(a) => number_of(a.try_new(lent)),
        Err(refusal) => refusal.number(),
    }
}

// Slot i's id, name, kind and value.
#[tactic(auto, unfolding(crate::specs::Arrays::c_value))]
pub fn union_array_value(array: &CArray, i: usize, lent: &Buffers) -> CValue
    ensures { result ≡ c_value array.now lent.now i }
{
    match array.read() {
        Ok(a) => CValue::from(a.value(i, lent)),
        Err(refusal) => CValue::from(Err(refusal)),
    }
}

// Slot i's type id.
#[tactic(auto, unfolding(crate::specs::Arrays::c_type_id))]
pub fn union_array_type_id(array: &CArray, i: usize, lent: &Buffers) -> CTypeId
    ensures { result ≡ c_type_id array.now lent.now i }
{
    match array.read() {
        Ok(a) => CTypeId::from(a.type_id(i, lent)),
        Err(refusal) => CTypeId::from(Err(refusal)),
    }
}

// Slot i's slot in its child.
#[tactic(auto, unfolding(crate::specs::Arrays::c_value_offset))]
pub fn union_array_value_offset(array: &CArray, i: usize, lent: &Buffers) -> CValueOffset
    ensures { result ≡ c_value_offset array.now lent.now i }
{
    match array.read() {
        Ok(a) => CValueOffset::from(a.value_offset(i, lent)),
        Err(refusal) => CValueOffset::from(Err(refusal)),
    }
}

// The column with an id.
#[tactic(auto, unfolding(crate::specs::Arrays::c_child))]
pub fn union_array_child(array: &CArray, id: i8, lent: &Buffers) -> CChild
    ensures { result ≡ c_child array.now lent.now id }
{
    match array.read() {
        Ok(a) => CChild::from(a.child(id, lent)),
        Err(refusal) => CChild::from(Err(refusal)),
    }
}

// The places of the names, in list order, and how many.
#[tactic(auto, unfolding(crate::specs::Arrays::c_type_names))]
pub fn union_array_type_names(array: &CArray, lent: &Buffers) -> CTypeNames
    ensures { result ≡ c_type_names array.now lent.now }
{
    match array.read() {
        Ok(a) => CTypeNames::from(a.type_names(lent)),
        Err(refusal) => CTypeNames::from(Err(refusal)),
    }
}

// Whether the layout is dense.
#[tactic(auto, unfolding(crate::specs::Arrays::c_is_dense))]
pub fn union_array_is_dense(array: &CArray, lent: &Buffers) -> CFlag
    ensures { result ≡ c_is_dense array.now lent.now }
{
    match array.read() {
        Ok(a) => CFlag::from(a.is_dense(lent)),
        Err(refusal) => CFlag::from(Err(refusal)),
    }
}

// Whether some child has a null anywhere in it.
#[tactic(auto, unfolding(crate::specs::Arrays::c_is_nullable))]
pub fn union_array_is_nullable(array: &CArray, lent: &Buffers) -> CFlag
    ensures { result ≡ c_is_nullable array.now lent.now }
{
    match array.read() {
        Ok(a) => CFlag::from(a.is_nullable(lent)),
        Err(refusal) => CFlag::from(Err(refusal)),
    }
}

// Questions 1 to 6 of the array that a caller describes.
fn asked(array: &CArray, lent: &Buffers) -> Result<(), Refusal>
    ensures { number_of result ≡ c_asked array.now lent.now }
{
    array.read()?.ask(lent)
}

// Where the array's type ids are among those lent: the start and the count of that part.
#[tactic(auto, unfolding(crate::specs::Arrays::c_type_ids, union_c::specs::Arrays::array_from))]
pub fn union_array_type_ids(array: &CArray, lent: &Buffers) -> CPart
    ensures { result ≡ c_type_ids array.now lent.now }
{
    match asked(array, lent) {
        Ok(()) => CPart {
            start: array.start,
            count: array.count,
            refusal: 0,
        },
        Err(refusal) => CPart {
            start: 0,
            count: 0,
            refusal: refusal.number(),
        },
    }
}

// Slots o to o + n - 1.
#[tactic(auto, unfolding(crate::specs::Arrays::c_slice))]
pub fn union_array_slice(array: &CArray, o: usize, n: usize, lent: &Buffers) -> CSlice
    ensures { result ≡ c_slice array.now lent.now o n }
{
    let answer = match array.read() {
        Ok(a) => a.slice(o, n, lent),
        Err(refusal) => Err(refusal),
    };
    CSlice::from(answer)
}
