// The words of the null mask, by route.
ghost use Rattle.std.specs.Prelude.{◌≡◌, ◌≤◌, false, Ok, length};
ghost use Rattle.bitmap.specs.Bits.{words_for, written};
ghost use Rattle.mask_words.specs.Steps.{columns_at, words_of, TakenNamed};
ghost use Rattle.gather_table.specs.Table.{table_of, child_slot, gathered_at, Gathers};
ghost use Rattle.union_array.specs.Slots.{slot_null};
ghost use Rattle.null_strategy.specs.Route.{is_absent};
ghost use Rattle.logical_nulls.specs.Mask.{with_words, masked_by};
ghost use Rattle.logical_nulls.specs.Ready.{Ready};

use crate::LogicalNulls;
use array_columns::{Buffers, Column, Layout};
use bitmap::Mask;
use gather_table::table;
use mask_words::{Taken, TakenFields, words};
use null_strategy::{Fields, Route};
use union_array::UnionArray;

// The words by gathering, over the columns at some places. A call of its own, since the room for the table is cleared first. Its
// arguments are those of `fill` and of `write_gathered`.
#[inline(never)]
fn gather(
    columns: &[Column],
    places: &[u8],
    lent: &Buffers,
    ids: &[i8],
    layout: Layout,
    at: usize,
    out: &mut [u64],
)
    requires room { words_for (length ids.now) ≤ length out.old }
    requires named { TakenNamed columns.now places.now }
    requires gathers { Gathers (table_of (columns_at columns.now places.now)) lent.now ids.now layout at }
    ensures { out.new ≡ words_of (length ids.now) (gathered_at (table_of (columns_at columns.now places.now)) lent.now ids.now (child_slot layout lent.now.offsets at)) out.old }
{
    let table = table::fill(columns, places);
    table::write_gathered(&table, lent, ids, layout, at, out);
}

// The null mask of an accepted array, by its route: all nulls, by a step, or gathered.
fn write_mask(array: &UnionArray, fs: &Fields, route: Route, lent: &Buffers, out: &mut [u64])
    requires { Ready array.now fs.now route lent.now out.old }
    ensures { out.new ≡ written array.now.count (slot_null array.now lent.now) out.old }
{
    let layout = array.layout;
    let columns = &array.columns[..array.fields];
    let rest = &lent.type_ids[array.start..];
    let ids = &rest[..array.count];
    if route.is_all_null() {
        words::write_nulls(array.count, out);
    } else if layout == Layout::Sparse && route.is_stepped() {
        words::write_stepped(route, columns, fs, lent, ids, out);
    } else {
        let taken = TakenFields::of(fs, Taken::WithNulls);
        let at = array.offsets_start;
        gather(columns, taken.places(), lent, ids, layout, at, out);
    }
}

// The null mask of an accepted array, written, and its answer.
pub(crate) fn run_route(
    array: &UnionArray,
    fs: &Fields,
    route: Route,
    lent: &Buffers,
    out: &mut [u64],
) -> LogicalNulls
    requires { Ready array.now fs.now route lent.now out.old × (is_absent route ≡ false) }
    ensures { with_words (Ok result) out.new ≡ masked_by array.now lent.now route out.old }
{
    write_mask(array, fs, route, lent, out);
    let mask = Mask {
        words: out,
        word: 0,
        bit: 0,
        len: array.count,
    };
    LogicalNulls::on(route, mask.null_count())
}
