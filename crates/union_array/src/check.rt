// Questions 1 to 8, and try_new.
ghost use Rattle.std.specs.Prelude.{◌≡◌};
ghost use Rattle.array_columns.specs.Refusal.{number_of};
ghost use Rattle.union_array.specs.Questions.{checked};
ghost use Rattle.union_array.specs.Lookup.{try_new_of};

use crate::UnionArray;
use array_columns::{Buffers, Refusal};
use array_slots::check::check_slots;

impl UnionArray {
    // Questions 1 to 8.
    #[tactic(auto, using(crate::proofs::Checked::checked_refused, crate::proofs::Checked::checked_slots, crate::proofs::Checked::readable))]
    pub fn check(&self, lent: &Buffers) -> Result<(), Refusal>
        ensures { number_of result ≡ checked self.now lent.now }
    {
        self.ask(lent)?;
        check_slots(self.head(), &self.columns, lent)
    }

    // Whether the description is one of a union array over the memory lent: asks 1 to 8.
    pub fn try_new(self, lent: &Buffers) -> Result<(), Refusal>
        ensures { number_of result ≡ try_new_of self lent.now }
    {
        self.check(lent)
    }
}
