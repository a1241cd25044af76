// Questions 15 and 16.
ghost use Rattle.std.specs.Prelude.{◌≡◌};
ghost use Rattle.array_columns.specs.Refusal.{number_of};
ghost use Rattle.union_builder.specs.Builder.{builder_head, builder_checked, open_checked};

use crate::UnionBuilder;
use array_columns::{Amounts, Refusal};
use builder_appends::questions::{lent_fits, numbers_fit};
use builder_columns::BuilderHead;
use builder_columns::fitting::columns_fit;

impl UnionBuilder {
    // The builder but for its columns.
    pub(crate) fn head(&self) -> BuilderHead
        ensures { result ≡ builder_head self.now }
    {
        BuilderHead {
            capacity: self.capacity,
            limit: self.limit,
            len: self.len,
            count: self.count,
            layout: self.layout,
        }
    }

    // Questions 15 and 16.
    pub(crate) fn check(&self, lent: &Amounts) -> Result<(), Refusal>
        ensures { number_of result ≡ builder_checked self.now lent.now }
    {
        if !numbers_fit(self.capacity, self.limit, self.len, self.count) {
            return Err(Refusal::BuilderNumbers);
        }
        if !columns_fit(&self.columns[..self.count], self.layout, self.len) {
            return Err(Refusal::BuilderNumbers);
        }
        if !lent_fits(self.capacity, self.limit, lent) {
            return Err(Refusal::BuilderRoom);
        }
        Ok(())
    }

    // What an append or a closing asks of the builder before its own questions.
    #[tactic(auto, using(crate::proofs::Asking::open_is))]
    pub(crate) fn check_open(&self, lent: &Amounts) -> Result<(), Refusal>
        ensures { number_of result ≡ open_checked self.now lent.now }
    {
        self.check(lent)
    }
}
