// The null mask, for C. Each a `match`, as in `array`.
ghost use Rattle.std.specs.Prelude.{◌≡◌};
ghost use Rattle.union_ffi.specs.Nulls.{c_masked, c_logical_nulls, c_strategy, run_named};

use array_columns::{Buffers, Refusal};
use logical_nulls::{SparseStrategy, mask, named};
use union_array::UnionArray;
use union_c::{CArray, CNulls, convert};

// The null mask at a gather cost: its answer, and its words in `out`.
#[tactic(auto, unfolding(crate::specs::Nulls::c_logical_nulls))]
pub fn union_logical_nulls(array: &CArray, cost: usize, lent: &Buffers, out: &mut [u64]) -> CNulls
    ensures { c_masked result out.new ≡ c_logical_nulls array.now lent.now cost out.old }
{
    match array.read() {
        Ok(a) => CNulls::from(mask::logical_nulls(a, cost, lent, out)),
        Err(refusal) => CNulls::from(Err(refusal)),
    }
}

// The array and the strategy that a caller names.
fn named_run(array: &CArray, strategy: u8) -> Result<(UnionArray, SparseStrategy), Refusal>
    ensures { result ≡ run_named array.now strategy }
{
    Ok((array.read()?, convert::strategy_named(strategy)?))
}

// The null mask by one named strategy, given by its route's number: its answer, and its words in `out`.
#[tactic(auto, unfolding(crate::specs::Nulls::c_strategy))]
pub fn union_strategy(array: &CArray, strategy: u8, lent: &Buffers, out: &mut [u64]) -> CNulls
    ensures { c_masked result out.new ≡ c_strategy array.now lent.now strategy out.old }
{
    match named_run(array, strategy) {
        Ok((a, s)) => CNulls::from(named::run_strategy(a, s, lent, out)),
        Err(refusal) => CNulls::from(Err(refusal)),
    }
}
