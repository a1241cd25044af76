// The calls on an array, over the memory lent to them.
use array_columns::{Buffers, Column, Refusal, Value};
use logical_nulls::{LogicalNulls, SparseStrategy, mask, named};
use union_array::{TypeNames, UnionArray};

// An array, and what is lent to a call on it.
#[derive(Clone, Copy)]
pub struct View<'a> {
    pub array: UnionArray,
    pub lent: &'a Buffers<'a, 'a>,
}

impl<'a> View<'a> {
    pub fn try_new(&self) -> Result<(), Refusal> {
        self.array.try_new(self.lent)
    }

    pub fn value(&self, i: usize) -> Result<Value, Refusal> {
        self.array.value(i, self.lent)
    }

    pub fn type_id(&self, i: usize) -> Result<i8, Refusal> {
        self.array.type_id(i, self.lent)
    }

    pub fn value_offset(&self, i: usize) -> Result<usize, Refusal> {
        self.array.value_offset(i, self.lent)
    }

    pub fn child(&self, id: i8) -> Result<Column, Refusal> {
        self.array.child(id, self.lent)
    }

    pub fn type_names(&self) -> Result<TypeNames, Refusal> {
        self.array.type_names(self.lent)
    }

    pub fn type_ids(&self) -> Result<&'a [i8], Refusal> {
        self.array.type_ids(self.lent)
    }

    pub fn is_dense(&self) -> Result<bool, Refusal> {
        self.array.is_dense(self.lent)
    }

    pub fn is_nullable(&self) -> Result<bool, Refusal> {
        self.array.is_nullable(self.lent)
    }

    pub fn slice(&self, start: usize, count: usize) -> Result<UnionArray, Refusal> {
        self.array.slice(start, count, self.lent)
    }

    // The null mask at a setting, its words in `out`.
    pub fn nulls_at(&self, setting: usize, out: &mut [u64]) -> Result<LogicalNulls, Refusal> {
        mask::logical_nulls(self.array, setting, self.lent, out)
    }

    // The null mask by a named strategy, its words in `out`.
    pub fn nulls_by(
        &self,
        strategy: SparseStrategy,
        out: &mut [u64],
    ) -> Result<LogicalNulls, Refusal> {
        named::run_strategy(self.array, strategy, self.lent, out)
    }
}
