// The calls on a builder: the makings, `append`, `append_null` and `len`.
ghost use Rattle.std.specs.Prelude.{◌≡◌};
ghost use Rattle.array_columns.specs.Buffers.{held, Same};
ghost use Rattle.array_columns.specs.declared.Layout.TheVariants.{Sparse, Dense};
ghost use Rattle.union_builder.specs.Builder.{empty, made_told, made_of};
ghost use Rattle.union_builder.specs.Append.{appended_told, outcome, append_of, append_null_of};
ghost use Rattle.union_builder.specs.Finish.{len_of};

use crate::{Appended, Length, UnionBuilder};
use array_columns::{Buffers, BuffersMut, Kind, Layout, Refusal};
use builder_columns::BuilderColumn;

impl UnionBuilder {
    // An empty builder.
    pub fn empty(layout: Layout, capacity: usize, limit: usize) -> UnionBuilder
        ensures { result ≡ empty layout capacity limit }
    {
        UnionBuilder {
            columns: [BuilderColumn::zeros(); 128],
            capacity,
            limit,
            len: 0,
            count: 0,
            layout,
        }
    }

    // A builder of a layout, of `capacity` slots and at most `limit` columns: asks 15 and 16. The arguments are the Rust's and C's.
    #[tactic(auto, using(crate::proofs::Making::made_yes, crate::proofs::Making::made_no))]
    pub fn with_capacity(
        layout: Layout,
        capacity: usize,
        limit: usize,
        lent: &Buffers,
    ) -> Result<UnionBuilder, Refusal>
        ensures { made_told result ≡ made_of layout capacity limit lent.now }
    {
        let b = UnionBuilder::empty(layout, capacity, limit);
        b.check(&lent.amounts())?;
        Ok(b)
    }

    // A dense builder of `capacity` slots and at most `limit` columns. The four makings have the Rust's names.
    pub fn with_capacity_dense(
        capacity: usize,
        limit: usize,
        lent: &Buffers,
    ) -> Result<UnionBuilder, Refusal>
        ensures { made_told result ≡ made_of Dense capacity limit lent.now }
    {
        UnionBuilder::with_capacity(Layout::Dense, capacity, limit, lent)
    }

    // A sparse builder of `capacity` slots and at most `limit` columns.
    pub fn with_capacity_sparse(
        capacity: usize,
        limit: usize,
        lent: &Buffers,
    ) -> Result<UnionBuilder, Refusal>
        ensures { made_told result ≡ made_of Sparse capacity limit lent.now }
    {
        UnionBuilder::with_capacity(Layout::Sparse, capacity, limit, lent)
    }

    // A dense builder of 1024 slots.
    pub fn new_dense(limit: usize, lent: &Buffers) -> Result<UnionBuilder, Refusal>
        ensures { made_told result ≡ made_of Dense 1024 limit lent.now }
    {
        UnionBuilder::with_capacity_dense(1024, limit, lent)
    }

    // A sparse builder of 1024 slots.
    pub fn new_sparse(limit: usize, lent: &Buffers) -> Result<UnionBuilder, Refusal>
        ensures { made_told result ≡ made_of Sparse 1024 limit lent.now }
    {
        UnionBuilder::with_capacity_sparse(1024, limit, lent)
    }

    // Appends a value to the column with the name. The arguments are the Rust's and C's.
    pub fn append(self, name: &[u8], kind: Kind, bits: u64, lent: &mut BuffersMut) -> Appended
        ensures same { Same lent.new lent.old }
        ensures after { outcome (appended_told result) (held lent.new) ≡ append_of self (held lent.old) name.now kind bits }
    {
        self.append_one(name, kind, Some(bits), lent)
    }

    // Appends a null to the column with the name.
    pub fn append_null(self, name: &[u8], kind: Kind, lent: &mut BuffersMut) -> Appended
        ensures same { Same lent.new lent.old }
        ensures after { outcome (appended_told result) (held lent.new) ≡ append_null_of self (held lent.old) name.now kind }
    {
        self.append_one(name, kind, None, lent)
    }

    // How many slots there are.
    pub fn len(self) -> Length
        ensures { result ≡ len_of self }
    {
        Length {
            builder: self,
            len: self.len,
        }
    }
}
