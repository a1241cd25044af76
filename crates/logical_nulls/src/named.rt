// Running one named strategy.
ghost use Rattle.std.specs.Prelude.{◌≡◌};
ghost use Rattle.logical_nulls.specs.Mask.{with_words, strategy_route, may_run, strategy_of};

use crate::{LogicalNulls, SparseStrategy, words};
use array_columns::{Buffers, Layout, Refusal};
use null_strategy::{Fields, Route};
use union_array::UnionArray;

impl SparseStrategy {
    // Question 14: whether it may run for a union of a layout and n fields, of which `some` have a null.
    #[tactic(auto, unfolding(crate::specs::Mask::may_run))]
    fn may_run(self, layout: Layout, n: usize, some: usize) -> bool
        ensures { result ≡ may_run self layout n some }
    {
        let applies = match self {
            SparseStrategy::Gather => true,
            SparseStrategy::SkipOne => layout == Layout::Sparse && some == n,
            SparseStrategy::SkipWithoutNulls | SparseStrategy::SkipFullyNull => {
                layout == Layout::Sparse
            }
        };
        2 <= n && applies
    }
}

impl From<SparseStrategy> for Route {
    ghost from_gives = { λ strategy route. route ≡ strategy_route strategy };

    fn from(strategy: SparseStrategy) -> Route {
        match strategy {
            SparseStrategy::Gather => Route::Gather,
            SparseStrategy::SkipOne => Route::SkipOne,
            SparseStrategy::SkipWithoutNulls => Route::SkipWithoutNulls,
            SparseStrategy::SkipFullyNull => Route::SkipFullyNull,
        }
    }
}

// The null mask by one named strategy: its answer, and its words in `out`. Asks 1 to 8, 14 and 13.
pub fn run_strategy(
    array: UnionArray,
    strategy: SparseStrategy,
    lent: &Buffers,
    out: &mut [u64],
) -> Result<LogicalNulls, Refusal>
    ensures { with_words result out.new ≡ strategy_of array lent.now strategy out.old }
{
    array.check(lent)?;
    let fs = Fields::of(&array, lent);
    if !strategy.may_run(array.layout, fs.count, fs.some) {
        return Err(Refusal::StrategyNotAllowed);
    }
    if out.len() < bitmap::words_for(array.count) {
        return Err(Refusal::MaskRoom);
    }
    Ok(words::run_route(&array, &fs, Route::from(strategy), lent, out))
}
