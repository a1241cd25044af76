// `finish_cloned` and `finish`: the array so far, its columns in order by name.
ghost use Rattle.std.specs.Prelude.{◌≡◌, length};
ghost use Rattle.array_columns.specs.Refusal.{number_of};
ghost use Rattle.batch_description.specs.Filling.{Describable};
ghost use Rattle.union_builder.specs.Builder.{builder_head};
ghost use Rattle.union_builder.specs.Finish.{finished_told, with_array, finished_by, finish_cloned_of, finish_of};

use crate::{Finished, UnionBuilder};
use array_columns::{Buffers, Layout, Refusal};
use batch_description::describe::describe;
use union_array::UnionArray;

impl UnionBuilder {
    // The array so far, if what was asked was accepted.
    fn described(&self, checked: Result<(), Refusal>, lent: &Buffers) -> Result<UnionArray, Refusal>
        requires { number_of checked ≡ 0 → Describable (builder_head self.now) self.now.columns (length lent.now.names) }
        ensures { with_array self.now result ≡ finished_by (number_of checked) self.now self.now lent.now }
    {
        checked?;
        Ok(describe(self.head(), &self.columns, lent.names))
    }

    // Describes the array so far, and keeps the builder.
    pub fn finish_cloned(self, lent: &Buffers) -> Finished
        ensures { finished_told result ≡ finish_cloned_of self lent.now }
    {
        let checked = self.check(&lent.amounts());
        Finished {
            builder: self,
            answer: self.described(checked, lent),
        }
    }

    // Describes the array so far, and hands back an empty builder.
    pub fn finish(self, lent: &Buffers) -> Finished
        ensures { finished_told result ≡ finish_of self lent.now }
    {
        let checked = self.check_open(&lent.amounts());
        match self.described(checked, lent) {
            Ok(array) => Finished {
                builder: UnionBuilder::empty(Layout::Sparse, self.capacity, self.limit),
                answer: Ok(array),
            },
            Err(refusal) => Finished {
                builder: self,
                answer: Err(refusal),
            },
        }
    }
}
