// Slot lookups: value, type_id, value_offset.
ghost use Rattle.std.specs.Prelude.{◌≡◌};
ghost use Rattle.array_slots.specs.ChildSlot.{child_slot_told};
ghost use Rattle.union_array.specs.Look.{child_slot_of};
ghost use Rattle.union_array.specs.Lookup.{value_told, value_of, type_id_told, type_id_of, value_offset_told, value_offset_of};

use crate::UnionArray;
use array_columns::{Buffers, Refusal, Value};
use array_slots::ChildSlot;
use array_slots::lookup::{item_at, slot_in_child};

impl UnionArray {
    // Slot i's child, its slot in it and its type id: asks 1 to 6, 10, and 7 and 8 of the slot.
    #[tactic(auto, using(crate::proofs::ChildSlots::settled_is))]
    fn child_slot(&self, i: usize, lent: &Buffers) -> Result<ChildSlot, Refusal>
        ensures { child_slot_told result ≡ child_slot_of self.now lent.now i }
    {
        let id = item_at(lent.type_ids, self.start, i, 0);
        slot_in_child(self.look(id, lent), self.head(), i, id, lent.offsets)
    }

    // Slot i's id, name, kind and value.
    #[tactic(auto, using(crate::proofs::ChildSlots::value_refused, crate::proofs::ChildSlots::value_is, crate::proofs::ChildSlots::child_in, crate::proofs::ChildSlots::slot_within))]
    pub fn value(self, i: usize, lent: &Buffers) -> Result<Value, Refusal>
        ensures { value_told result ≡ value_of self lent.now i }
    {
        let s = self.child_slot(i, lent)?;
        Ok(s.column.value(lent, s.slot))
    }

    // Slot i's type id.
    #[tactic(auto, using(crate::proofs::ChildSlots::type_id_refused, crate::proofs::ChildSlots::type_id_is))]
    pub fn type_id(self, i: usize, lent: &Buffers) -> Result<i8, Refusal>
        ensures { type_id_told result ≡ type_id_of self lent.now i }
    {
        let s = self.child_slot(i, lent)?;
        Ok(s.id)
    }

    // Slot i's slot in its child.
    #[tactic(auto, using(crate::proofs::ChildSlots::offset_refused, crate::proofs::ChildSlots::value_offset_is))]
    pub fn value_offset(self, i: usize, lent: &Buffers) -> Result<usize, Refusal>
        ensures { value_offset_told result ≡ value_offset_of self lent.now i }
    {
        let s = self.child_slot(i, lent)?;
        Ok(s.slot)
    }
}
