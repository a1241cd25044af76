// Runs of lookups, for C: the description is read once for all slots of a run. Each a `match`, as in `array`.
ghost use Rattle.std.specs.Prelude.{◌≡◌};
ghost use Rattle.union_array.specs.Values.{values_answer};
ghost use Rattle.union_ffi.specs.Values.{c_values};

use array_columns::Buffers;
use array_columns::refusals::number_of;
use union_c::CArray;

// The ids, the presence (1 where missing) and the values of n slots from `first` on, as `union_array_value` tells them one by one.
// C hands over three outputs.
#[tactic(auto, unfolding(crate::specs::Values::c_values))]
pub fn union_array_values(
    array: &CArray,
    first: usize,
    n: usize,
    lent: &Buffers,
    ids: &mut [i8],
    missing: &mut [u8],
    bits: &mut [u64],
) -> u8
    ensures { values_answer result ids.new missing.new bits.new ≡ c_values array.now lent.now first n ids.old missing.old bits.old }
{
    match array.read() {
        Ok(a) => number_of(a.values(first, n, lent, ids, missing, bits)),
        Err(refusal) => refusal.number(),
    }
}
