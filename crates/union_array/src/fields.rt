// What is told of the whole array: a child, the names, the type ids, the layout, whether there are nulls.
ghost use Rattle.std.specs.Prelude.{◌≡◌, true, not, ◌++◌, map, ◌-◌, ◌≤◌, eqb, replicate, length};
ghost use Rattle.union_array.specs.Slots.{all, nulls_in};
ghost use Rattle.union_array.specs.Questions.{presence_in};
ghost use Rattle.union_array.specs.Lookup.{child_told, child_of, type_names_told, type_names_of, flag_told, is_dense_of, is_nullable_of, type_ids_told, type_ids_of, name_of, no_name};

use crate::{NamePlace, TypeNames, UnionArray};
use array_columns::{Buffers, Column, Layout, Refusal};

// Whether one of the columns has a null.
fn any_null(columns: &[Column], lent: &Buffers) -> bool
    requires { all (presence_in lent.now) columns.now ≡ true }
    ensures { result ≡ not (all (λ c. eqb (nulls_in c lent.now) 0) columns.now) }
{
    // `any` was tried: that its closure may be called at each column did not close.
    for c in columns {
        if c.null_count(lent) != 0 {
            return true;
        }
    }
    false
}

// The name places of the columns, and zeros after them. As in `sizes_of`, `fill` and `turned` of other crates, three lines fill an
// array: one function for all would be handed a closure, and its definition, each time.
#[tactic(auto, using(crate::proofs::Lookups::names_none, crate::proofs::Lookups::names_turn, crate::proofs::Lookups::names_whole))]
fn names_of(columns: &[Column]) -> [NamePlace; 128]
    requires { length columns.now ≤ 128 }
    ensures { result ≡ map name_of columns.now ++ replicate (128 - length columns.now) no_name }
{
    let mut names = [NamePlace { start: 0, size: 0 }; 128];
    for (j, c) in columns.iter().enumerate() {
        names[j] = NamePlace {
            start: c.name,
            size: c.size,
        };
    }
    names
}

impl UnionArray {
    // The column with an id.
    #[tactic(auto, using(crate::proofs::Lookups::child_refused, crate::proofs::Lookups::child_found))]
    pub fn child(self, id: i8, lent: &Buffers) -> Result<Column, Refusal>
        ensures { child_told result ≡ child_of self lent.now id }
    {
        self.look(id, lent)?.ok_or(Refusal::UnknownId)
    }

    // The places of the names, in list order, and how many.
    #[tactic(auto, using(crate::proofs::Lookups::names_refused, crate::proofs::Lookups::names_are, crate::proofs::Lookups::few))]
    pub fn type_names(self, lent: &Buffers) -> Result<TypeNames, Refusal>
        ensures { type_names_told result ≡ type_names_of self lent.now }
    {
        self.ask(lent)?;
        Ok(TypeNames {
            names: names_of(&self.columns[..self.fields]),
            count: self.fields,
        })
    }

    // The type ids, as that part of the caller's own memory.
    #[tactic(auto, using(crate::proofs::Lookups::ids_refused, crate::proofs::Lookups::ids_are, crate::proofs::Lookups::ids_in))]
    pub fn type_ids<'i>(self, lent: &Buffers<'i, '_>) -> Result<&'i [i8], Refusal>
        ensures { type_ids_told result ≡ type_ids_of self lent.now }
    {
        self.ask(lent)?;
        let ids = lent.type_ids;
        let end = self.start + self.count;
        Ok(&ids[self.start..end])
    }

    // Whether the layout is dense.
    #[tactic(auto, using(crate::proofs::Lookups::dense_refused, crate::proofs::Lookups::dense_is))]
    pub fn is_dense(self, lent: &Buffers) -> Result<bool, Refusal>
        ensures { flag_told result ≡ is_dense_of self lent.now }
    {
        self.ask(lent)?;
        Ok(self.layout == Layout::Dense)
    }

    // Whether some child has a null anywhere in it.
    #[tactic(auto, using(crate::proofs::Lookups::nullable_refused, crate::proofs::Lookups::nullable_is, crate::proofs::Lookups::presences_in, crate::proofs::Lookups::few))]
    pub fn is_nullable(self, lent: &Buffers) -> Result<bool, Refusal>
        ensures { flag_told result ≡ is_nullable_of self lent.now }
    {
        self.ask(lent)?;
        Ok(any_null(&self.columns[..self.fields], lent))
    }
}
