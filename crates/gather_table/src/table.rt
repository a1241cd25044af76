// Gather: a table with one entry to each type id, read as an unsigned byte, and a bit looked up for each slot.
ghost use Rattle.std.specs.Prelude.{◌≡◌, ◌≤◌, length};
ghost use Rattle.bitmap.specs.Bits.{words_for};
ghost use Rattle.mask_words.specs.Steps.{columns_at, words_of, TakenNamed};
ghost use Rattle.gather_table.specs.Table.{table_of, child_slot, gathered_at, Gathers};

use array_columns::slots::child_slot;
use array_columns::{Buffers, Column, Layout};

// The columns at some places, those with a null, each at its id. Any other entry has no null, and no slot is past it.
pub fn fill(columns: &[Column], places: &[u8]) -> [Column; 256]
    requires { TakenNamed columns.now places.now }
    ensures { result ≡ table_of (columns_at columns.now places.now) }
{
    let without = Column {
        slots: u32::MAX,
        ..Column::zeros()
    };
    let mut table = [without; 256];
    for place in places {
        let c = columns[*place as usize];
        table[c.id as usize] = c;
    }
    table
}

// The mask by gathering: each slot's bit is looked up by itself. Later words keep what they have. `lent`, `ids` and `out` stand
// apart, as in `mask_words`.
#[tactic(auto, using(mask_words::proofs::Writing::word_starts))]
pub fn write_gathered(
    table: &[Column; 256],
    lent: &Buffers,
    ids: &[i8],
    layout: Layout,
    at: usize,
    out: &mut [u64],
)
    requires room { words_for (length ids.now) ≤ length out.old }
    requires gathers { Gathers table.now lent.now ids.now layout at }
    ensures { out.new ≡ words_of (length ids.now) (gathered_at table.now lent.now ids.now (child_slot layout lent.now.offsets at)) out.old }
{
    let words = bitmap::words_for(ids.len());
    for (k, word) in out[..words].iter_mut().enumerate() {
        let rest = &ids[64 * k..];
        let run = &rest[..bitmap::span(rest.len())];
        let mut x: u64 = 0;
        for (j, id) in run.iter().enumerate() {
            let i = 64 * k + j;
            let e = &table[*id as usize];
            let p = child_slot(layout, lent.offsets, at, i);
            if e.is_present(lent, p) {
                x |= 1u64 << j;
            }
        }
        *word = x;
    }
}
