// A slot's child and its slot in it, once its type id was read and looked up.
ghost use Rattle.std.specs.Prelude.{◌≡◌, ◌+◌, get_or};
ghost use Rattle.array_slots.specs.Slots.{offset_at};
ghost use Rattle.array_slots.specs.ChildSlot.{child_slot_told, looked_told, settled};

use crate::ChildSlot;
use array_columns::slots::is_within;
use array_columns::{Column, Head, Layout, Refusal};

// The item at place start + i; past the end, `rest`.
pub fn item_at<T: Copy>(items: &[T], start: usize, i: usize, rest: T) -> T
    ensures { result ≡ get_or items.now (start + i) rest }
{
    match start.checked_add(i) {
        Some(at) => items.get(at).copied().unwrap_or(rest),
        None => rest,
    }
}

// Slot i's child, its slot in it and its type id, once that was read and looked up. A refused look is the answer.
#[tactic(auto, unfolding(crate::specs::ChildSlot::settled))]
pub fn slot_in_child(
    looked: Result<Option<Column>, Refusal>,
    h: Head,
    i: usize,
    id: i8,
    offsets: &[i32],
) -> Result<ChildSlot, Refusal>
    ensures { child_slot_told result ≡ settled (looked_told looked) h.layout h.count i id (offset_at h offsets.now i) }
{
    let column = looked?;
    if h.count <= i {
        return Err(Refusal::IndexRange);
    }
    let Some(column) = column else {
        return Err(Refusal::UnknownTypeId);
    };
    let slot = match h.layout {
        Layout::Sparse => i,
        Layout::Dense => {
            let offset = item_at(offsets, h.offsets_start, i, 0);
            if !is_within(offset, column.slots) {
                return Err(Refusal::OffsetRange);
            }
            offset as usize
        }
    };
    Ok(ChildSlot { column, slot, id })
}
