// One append, of a value or of a null.
ghost use Rattle.std.specs.Prelude.{◌≡◌};
ghost use Rattle.array_columns.specs.Buffers.{held, Same};
ghost use Rattle.builder_columns.specs.Columns.{given};
ghost use Rattle.union_builder.specs.Append.{appended_told, outcome, append_with};

use crate::{Appended, UnionBuilder};
use array_columns::{BuffersMut, Kind};
use builder_appends::steps::append_step;

impl UnionBuilder {
    // Appends a value, or a null: the arguments of the two appends.
    pub(crate) fn append_one(
        self,
        name: &[u8],
        kind: Kind,
        value: Option<u64>,
        lent: &mut BuffersMut,
    ) -> Appended
        ensures same { Same lent.new lent.old }
        ensures after { outcome (appended_told result) (held lent.new) ≡ append_with self (held lent.old) name.now kind (given value) }
    {
        let checked = self.check_open(&lent.amounts());
        let cut = value.map(|bits| kind.low_bits(bits));
        let step = append_step(self.head(), &self.columns, checked, name, kind, cut, lent);
        let mut builder = self;
        let answer = builder.take(step);
        Appended { builder, answer }
    }
}
