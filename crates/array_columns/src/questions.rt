// What questions 1 to 6 ask of the columns, and of an array but for its columns.
ghost use Rattle.std.specs.Prelude.{◌≡◌, true, not, ◌&&◌, ◌+◌, ◌*◌, ◌<◌, eqb};
ghost use Rattle.array_columns.specs.Types.{by_layout, no_column};
ghost use Rattle.array_columns.specs.Questions.{valid_id, part_in, column_in};
ghost use Rattle.array_columns.specs.Slots.{column_of};
ghost use Rattle.array_columns.specs.Pass.{entry_of, column_told, passed_told, pass_of};

use crate::{Amounts, Column, Kind, Layout, Passed};

// A part lies in what is lent.
pub fn part_in(start: usize, len: usize, lent: usize) -> bool
    ensures { result ≡ part_in start len lent }
{
    start.checked_add(len).is_some_and(|end| end <= lent)
}

// A mask of n bits that starts at bit b of word w lies in the words lent.
fn bits_in(w: usize, b: u8, n: u32, lent: usize) -> bool
    ensures { result ≡ part_in (64 * w + b) n (64 * lent) }
{
    part_in(w, (b as usize + n as usize).div_ceil(64), lent)
}

// An id's entry in a table of 256: its own number, or for one below 0 the last.
pub fn entry_of(id: i8) -> usize
    ensures { (result ≡ entry_of id) × (result < 256) }
{
    if id < 0 { 255 } else { id as usize }
}

// A valid id that no column before has.
fn is_new(id: i8, seen: bool) -> bool
    ensures { result ≡ valid_id id && not seen }
{
    0 <= id && !seen
}

impl Column {
    // The column of zeros.
    pub fn zeros() -> Column
        ensures { result ≡ no_column }
    {
        Column {
            values: 0,
            mask: 0,
            name: 0,
            slots: 0,
            bit: 0,
            size: 0,
            id: 0,
            kind: Kind::Int8,
            masked: false,
        }
    }

    // Its name, values and mask lie in what is lent.
    #[tactic(auto, unfolding(crate::specs::Questions::column_in))]
    fn is_in(&self, lent: &Amounts) -> bool
        ensures { result ≡ column_in lent.now self.now }
    {
        self.size <= 32
            && part_in(self.name, self.size as usize, lent.names)
            && part_in(self.values, self.slots as usize, lent.values)
            && (!self.masked || bits_in(self.mask, self.bit, self.slots, lent.masks))
    }
}

impl Layout {
    // A dense array's offsets lie in what is lent; a sparse one names none.
    pub fn offsets_in(self, start: usize, len: usize, lent: usize) -> bool
        ensures { result ≡ by_layout self true (part_in start len lent) }
    {
        self == Layout::Sparse || part_in(start, len, lent)
    }

    // A dense array has as many offsets as type ids.
    pub fn offsets_match(self, len: usize, n: usize) -> bool
        ensures { result ≡ by_layout self true (eqb len n) }
    {
        self == Layout::Sparse || len == n
    }

    // A sparse array's child has as many slots as the array.
    fn slots_match(self, slots: u32, n: usize) -> bool
        ensures { result ≡ by_layout self (eqb slots n) true }
    {
        self == Layout::Dense || slots as usize == n
    }
}

// The first column with an id.
fn with_id(columns: &[Column], id: i8) -> Option<Column>
    ensures { column_told result ≡ column_of columns.now id }
{
    columns.iter().find(|c| c.id == id).copied()
}

// 1, 3, 4 and 6 of the columns in use, of an array of a layout with n slots, and the column with an id. One loop asks all four: four
// `all`s would go over the columns four times.
pub fn pass(columns: &[Column], lent: &Amounts, layout: Layout, n: usize, id: i8) -> Passed
    ensures { passed_told result ≡ pass_of lent.now layout n id columns.now }
{
    let mut seen = [false; 256];
    let (mut ids, mut parts, mut counts, mut slots) = (true, true, true, true);
    for c in columns {
        let entry = entry_of(c.id);
        ids &= is_new(c.id, seen[entry]);
        parts &= c.is_in(lent);
        counts &= c.slots <= 65536;
        slots &= layout.slots_match(c.slots, n);
        seen[entry] = true;
    }
    Passed {
        ids,
        parts,
        counts,
        slots,
        column: with_id(columns, id),
    }
}
