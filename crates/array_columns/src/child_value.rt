// A child's slot by value: its value's low bits, and its name.
ghost use Rattle.std.specs.Prelude.{◌≡◌, true, ◌≤◌, ◌<◌, length};
ghost use Rattle.array_columns.specs.Buffers.{amounts_of};
ghost use Rattle.array_columns.specs.Questions.{column_in};
ghost use Rattle.array_columns.specs.Lookup.{padded, column_value, accepted_value, slot_told};
ghost use Rattle.array_columns.specs.Accepted.{InChild, slot_value_of};

use crate::{Buffers, Column, Value};

// A name's bytes, with zeros after it. That a name has at most 32 is said where it is copied: a struct for one would serve one call.
#[tactic(auto, using(crate::proofs::Values::padded_over))]
fn padded(name: &[u8]) -> [u8; 32]
    requires { length name.now ≤ 32 }
    ensures { result ≡ padded name.now }
{
    let mut out = [0u8; 32];
    out[..name.len()].copy_from_slice(name);
    out
}

impl Column {
    // Slot p of the child: its value, none if it is missing.
    #[tactic(auto, using(crate::proofs::Reading::slot_present, crate::proofs::Reading::slot_missing))]
    pub fn slot_value(&self, lent: &Buffers, p: usize) -> Option<u64>
        requires { InChild self.now lent.now p }
        ensures { slot_told result ≡ slot_value_of self.now lent.now p }
    {
        if !self.is_present(lent, p) {
            return None;
        }
        let values = lent.values;
        Some(self.kind.low_bits(values[self.values + p]))
    }

    // Slot p of the child, with the child's id, name and kind.
    #[tactic(auto, using(crate::proofs::Values::name_in), unfolding(crate::specs::Accepted::slot_value_of, crate::specs::Lookup::column_value))]
    pub fn value(&self, lent: &Buffers, p: usize) -> Value
        requires { (p < self.now.slots) × (column_in (amounts_of lent.now) self.now ≡ true) }
        ensures { accepted_value result ≡ column_value self.now lent.now p }
    {
        Value {
            value: self.slot_value(lent, p),
            name: padded(&lent.names[self.name..][..self.size as usize]),
            size: self.size,
            id: self.id,
            kind: self.kind,
        }
    }
}
