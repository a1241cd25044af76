// What code that reads the slots of an accepted array calls: tables of its columns by id, and a slot's slot in its child.
ghost use Rattle.std.specs.Prelude.{◌≡◌, ℕ, ◌+◌, ◌<◌, ◌≤◌, T, pos, nat_abs, length, get_or};
ghost use Rattle.std.specs.Int.Signed.{non_neg};
ghost use Rattle.array_columns.specs.Types.{Dense, by_layout};
ghost use Rattle.array_columns.specs.ById.{IsById, place_table, slot_table};
ghost use Rattle.array_columns.specs.Questions.{within};

use crate::questions::entry_of;
use crate::{Column, Layout};

// What `value` gives of each column's place, by the column's id; `rest` where no column has the id. Of equal ids the first counts.
fn by_id<T: Copy, F: Fn(usize) -> T>(columns: &[Column], rest: T, value: F) -> [T; 256]
    requires { (j : ℕ) → j < length columns.now → F.pre value j }
    ensures { IsById (F.post value) rest 0 columns.now result }
{
    let mut table = [rest; 256];
    // By place, which is what `value` takes: of a reversed iterator the invariant has no number to go by.
    for j in (0..columns.len()).rev() {
        table[entry_of(columns[j].id)] = value(j);
    }
    table
}

// The places of the columns, by their ids; 128 where no column has the id. Columns in use are a slice, so that they are at most 128 is
// said where it matters.
pub fn places_by_id(columns: &[Column]) -> [u8; 256]
    requires { length columns.now ≤ 128 }
    ensures { result ≡ place_table columns.now }
{
    by_id(columns, 128, |j| j as u8)
}

// The slot counts of the columns, by their ids.
pub fn slots_by_id(columns: &[Column]) -> [u32; 256]
    ensures { result ≡ slot_table columns.now }
{
    by_id(columns, 0, |j| columns[j].slots)
}

// The slot of its child that slot i is, where the array's offsets start at place `start`.
pub fn child_slot(layout: Layout, offsets: &[i32], start: usize, i: usize) -> usize
    requires { layout ≡ Dense → (start + i < length offsets.now) × T (non_neg (get_or offsets.now (start + i) (pos 0))) }
    ensures { result ≡ by_layout layout i (nat_abs (get_or offsets.now (start + i) (pos 0))) }
{
    match layout {
        Layout::Sparse => i,
        Layout::Dense => offsets[start + i] as usize,
    }
}

// An offset is at least 0 and below n.
pub fn is_within(x: i32, n: u32) -> bool
    ensures { result ≡ within x n }
{
    0 <= x && (x as u32) < n
}
