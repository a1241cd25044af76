// Questions 1 to 6, which every call on an array asks.
ghost use Rattle.std.specs.Prelude.{◌≡◌};
ghost use Rattle.array_columns.specs.Refusal.{no, ◌then◌, number_of};
ghost use Rattle.array_columns.specs.Pass.{column_told};
ghost use Rattle.union_array.specs.Types.{head_of};
ghost use Rattle.union_array.specs.Questions.{asked};
ghost use Rattle.union_array.specs.Look.{looked_told, looked_by, look_of};

use crate::UnionArray;
use array_columns::questions::{part_in, pass};
use array_columns::{Buffers, Column, Head, Passed, Refusal};

// The first no of 1 to 6, by their answers, or the column that was found.
fn first_no(
    p: &Passed,
    children: bool,
    parts: bool,
    counts: bool,
    offsets: bool,
) -> Result<Option<Column>, Refusal>
    ensures { looked_told result ≡ looked_by (column_told p.now.column) (no 1 p.now.ids then no 2 children then no 3 parts then no 4 counts then no 5 offsets then no 6 p.now.slots) }
{
    if !p.ids {
        return Err(Refusal::FieldIds);
    }
    if !children {
        return Err(Refusal::ChildCount);
    }
    if !parts {
        return Err(Refusal::PartNotLent);
    }
    if !counts {
        return Err(Refusal::TooManySlots);
    }
    if !offsets {
        return Err(Refusal::OffsetCount);
    }
    if !p.slots {
        return Err(Refusal::ChildSlots);
    }
    Ok(p.column)
}

impl UnionArray {
    // The array but for its columns.
    pub(crate) fn head(&self) -> Head
        ensures { result ≡ head_of self.now }
    {
        Head {
            fields: self.fields,
            children: self.children,
            start: self.start,
            count: self.count,
            offsets_start: self.offsets_start,
            offsets_count: self.offsets_count,
            layout: self.layout,
        }
    }

    // 1 to 6, and the column with an id, if there is one.
    #[tactic(auto, using(crate::proofs::OnePass::many))]
    pub(crate) fn look(&self, id: i8, lent: &Buffers) -> Result<Option<Column>, Refusal>
        ensures { looked_told result ≡ look_of self.now lent.now id }
    {
        if 128 < self.fields {
            return Err(Refusal::FieldIds);
        }
        let amounts = lent.amounts();
        let layout = self.layout;
        let p = pass(
            &self.columns[..self.fields],
            &amounts,
            layout,
            self.count,
            id,
        );
        let ids = part_in(self.start, self.count, amounts.ids);
        let offsets = layout.offsets_in(self.offsets_start, self.offsets_count, amounts.offsets);
        first_no(
            &p,
            self.children == self.fields,
            ids && offsets && p.parts,
            self.count <= 65536 && p.counts,
            layout.offsets_match(self.offsets_count, self.count),
        )
    }

    // Questions 1 to 6.
    #[tactic(auto, using(crate::proofs::OnePass::asked_err, crate::proofs::OnePass::asked_ok))]
    pub fn ask(&self, lent: &Buffers) -> Result<(), Refusal>
        ensures { number_of result ≡ asked self.now lent.now }
    {
        self.look(0, lent)?;
        Ok(())
    }
}
