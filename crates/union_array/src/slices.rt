// Slices: the same memory under a moved description.
ghost use Rattle.std.specs.Prelude.{◌≡◌, ℕ, ◌<◌, map, length, get_or};
ghost use Rattle.union_array.specs.Types.{Sparse, no_column, no_array};
ghost use Rattle.union_array.specs.Slices.{moved_column, sliced, slice_told, slice_of};
ghost use Rattle.union_array.specs.Movable.{Movable, ColumnMovable};

use crate::UnionArray;
use array_columns::questions::part_in;
use array_columns::{Buffers, Column, Layout, Refusal};

// A sparse array's child, its words and mask bits moved by o, with n slots. That n fits 32 bits is said at each of the three functions:
// it is no more than a bound that one hands to the next.
fn move_column(c: &mut Column, o: usize, n: usize)
    requires { (ColumnMovable c.old o) × (n < 65537) }
    ensures { c.new ≡ moved_column Sparse o n c.old }
{
    c.values += o;
    c.slots = n as u32;
    if c.masked {
        let bit = c.bit as usize + o;
        c.mask += bit / 64;
        c.bit = (bit % 64) as u8;
    }
}

// A sparse array's children, each moved by o, with n slots.
fn move_columns(columns: &mut [Column], o: usize, n: usize)
    requires movable { (j : ℕ) → j < length columns.old → ColumnMovable (get_or columns.old j no_column) o }
    requires n_in { n < 65537 }
    ensures { columns.new ≡ map (moved_column Sparse o n) columns.old }
{
    for c in columns.iter_mut() {
        move_column(c, o, n);
    }
}

impl UnionArray {
    // The empty description.
    pub fn empty() -> UnionArray
        ensures { result ≡ no_array }
    {
        UnionArray {
            columns: [Column::zeros(); 128],
            fields: 0,
            children: 0,
            start: 0,
            count: 0,
            offsets_start: 0,
            offsets_count: 0,
            layout: Layout::Sparse,
        }
    }

    // Slots o to o + n - 1 of the array.
    #[tactic(auto, using(crate::proofs::Sliced::dense_is, crate::proofs::Sliced::sparse_is))]
    fn cut(self, o: usize, n: usize) -> UnionArray
        requires { (Movable self o) × (n < 65537) }
        ensures { result ≡ sliced self o n }
    {
        let start = self.start + o;
        match self.layout {
            Layout::Dense => UnionArray {
                start,
                count: n,
                offsets_start: self.offsets_start + o,
                offsets_count: n,
                ..self
            },
            Layout::Sparse => {
                let mut columns = self.columns;
                move_columns(&mut columns[..self.fields], o, n);
                UnionArray {
                    columns,
                    start,
                    count: n,
                    ..self
                }
            }
        }
    }

    // Slots o to o + n - 1.
    #[tactic(auto, using(crate::proofs::Sliced::slice_refused, crate::proofs::Sliced::slice_outside, crate::proofs::Sliced::slice_is))]
    pub fn slice(self, o: usize, n: usize, lent: &Buffers) -> Result<UnionArray, Refusal>
        ensures { slice_told result ≡ slice_of self lent.now o n }
    {
        // Named for the proof: what is lent fits the address space, so the moved starts do.
        let _ = &lent.masks;
        self.ask(lent)?;
        if !part_in(o, n, self.count) {
            return Err(Refusal::SliceRange);
        }
        Ok(self.cut(o, n))
    }
}
