// Questions 7 and 8 of every slot.
ghost use Rattle.std.specs.Prelude.{◌≡◌, true, slice_index};
ghost use Rattle.std.specs.List.{list_all, zip};
ghost use Rattle.array_columns.specs.Refusal.{number_of};
ghost use Rattle.array_columns.specs.Slots.{all, column_of, is_some};
ghost use Rattle.array_columns.specs.Questions.{valid_id, within};
ghost use Rattle.array_columns.specs.Pass.{entry_of};
ghost use Rattle.array_columns.specs.ById.{slot_table};
ghost use Rattle.array_slots.specs.Check.{Readable, slots_checked};

use array_columns::questions::entry_of;
use array_columns::slots::{is_within, slots_by_id};
use array_columns::{Buffers, Column, Head, Layout, Refusal};

// 7. Is each id that of a column? The first slot that matches no field ends the whole check, left by its label as document 01 has it. An id
// that was matched before is known.
fn ids_named(columns: &[Column], ids: &[i8]) -> bool
    requires { all (λ c. valid_id c.id) columns.now ≡ true }
    ensures { result ≡ list_all (λ id. is_some (column_of columns.now id)) ids.now }
{
    let mut known = [false; 256];
    let mut ok = true;
    'slots: for id in ids {
        let entry = entry_of(*id);
        if known[entry] {
            continue;
        }
        for c in columns {
            if c.id == *id {
                known[entry] = true;
                continue 'slots;
            }
        }
        ok = false;
        break 'slots;
    }
    ok
}

// 8. Of a dense array: each offset at least 0 and below its child's slots?
fn offsets_within(columns: &[Column], ids: &[i8], offsets: &[i32]) -> bool
    ensures { result ≡ list_all (λ p. within p.1 (slice_index (slot_table columns.now) (entry_of p.0))) (zip ids.now offsets.now) }
{
    let slots = slots_by_id(columns);
    ids.iter()
        .zip(offsets)
        .all(|(id, offset)| is_within(*offset, slots[entry_of(*id)]))
}

// 7 and 8 of every slot: the first no.
pub fn check_slots(h: Head, columns: &[Column; 128], lent: &Buffers) -> Result<(), Refusal>
    requires { Readable h columns.now lent.now.ids lent.now.offsets }
    ensures { number_of result ≡ slots_checked h columns.now lent.now.ids lent.now.offsets }
{
    let columns = &columns[..h.fields];
    let ids = &lent.type_ids[h.start..h.start + h.count];
    if !ids_named(columns, ids) {
        return Err(Refusal::UnknownTypeId);
    }
    match h.layout {
        Layout::Sparse => Ok(()),
        Layout::Dense => {
            let offsets = &lent.offsets[h.offsets_start..h.offsets_start + h.count];
            if !offsets_within(columns, ids, offsets) {
                return Err(Refusal::OffsetRange);
            }
            Ok(())
        }
    }
}
