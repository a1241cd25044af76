// Runs of lookups: the description is asked once.
ghost use Rattle.std.specs.Prelude.{◌≡◌};
ghost use Rattle.array_columns.specs.Refusal.{number_of};
ghost use Rattle.union_array.specs.Values.{values_answer, values_of};

use crate::UnionArray;
use array_columns::{Buffers, Refusal};
use array_slots::run::run;

impl UnionArray {
    // The ids, the presence (1 where missing) and the values of n slots from `first` on, as `value` tells them one by one. The outputs
    // are three slices, since C hands over three.
    #[tactic(auto, using(crate::proofs::Runs::run_refused, crate::proofs::Runs::run_is, crate::proofs::Checked::valued))]
    pub fn values(
        self,
        first: usize,
        n: usize,
        lent: &Buffers,
        ids: &mut [i8],
        missing: &mut [u8],
        bits: &mut [u64],
    ) -> Result<(), Refusal>
        ensures { values_answer (number_of result) ids.new missing.new bits.new ≡ values_of self lent.now first n ids.old missing.old bits.old }
    {
        self.ask(lent)?;
        run(
            self.head(),
            &self.columns,
            first,
            n,
            lent,
            ids,
            missing,
            bits,
        )
    }
}
