// One append with the builder lent, as the Rust has it.
ghost use Rattle.std.specs.Prelude.{◌≡◌};
ghost use Rattle.array_columns.specs.Buffers.{held, Same};
ghost use Rattle.array_columns.specs.Refusal.{number_of};
ghost use Rattle.union_builder.specs.Append.{outcome, appended, append_of};

use crate::UnionBuilder;
use array_columns::{BuffersMut, Kind, Refusal};

impl UnionBuilder {
    // The arguments are the Rust's. Appends a value as `append` does, and leaves the builder of its answer behind the borrow.
    pub fn append_mut(
        &mut self,
        name: &[u8],
        kind: Kind,
        bits: u64,
        lent: &mut BuffersMut,
    ) -> Result<(), Refusal>
        ensures same { Same lent.new lent.old }
        ensures after { outcome (appended self.new (number_of result)) (held lent.new) ≡ append_of self.old (held lent.old) name.now kind bits }
    {
        let appended = (*self).append(name, kind, bits, lent);
        *self = appended.builder;
        appended.answer
    }
}
