// The null mask of a union array.
ghost use Rattle.std.specs.Prelude.{◌≡◌};
ghost use Rattle.logical_nulls.specs.Mask.{with_words, logical_nulls_of};

use crate::{LogicalNulls, words};
use array_columns::{Buffers, Refusal};
use null_strategy::{Fields, Processor, routes};
use union_array::UnionArray;

// The null mask at a gather cost: its answer, and its words in `out`. Asks 1 to 8, 12 and 13.
pub fn logical_nulls(
    array: UnionArray,
    cost: usize,
    lent: &Buffers,
    out: &mut [u64],
) -> Result<LogicalNulls, Refusal>
    ensures { with_words result out.new ≡ logical_nulls_of array lent.now cost out.old }
{
    array.check(lent)?;
    let processor = Processor::new(cost)?;
    if out.len() < bitmap::words_for(array.count) {
        return Err(Refusal::MaskRoom);
    }
    let fs = Fields::of(&array, lent);
    let route = routes::route_for(&array, &fs, processor.cost());
    if route.is_absent() {
        return Ok(LogicalNulls::on(route, 0));
    }
    Ok(words::run_route(&array, &fs, route, lent, out))
}
