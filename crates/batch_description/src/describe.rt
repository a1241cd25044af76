// The description of a batch.
ghost use Rattle.std.specs.Prelude.{◌≡◌, ◌≤◌, ◌<◌, length};
ghost use Rattle.batch_description.specs.Description.{described_column, blank_of, described_by};
ghost use Rattle.batch_description.specs.Filling.{sizes_of, filled_of, Fillable, Describable};

use array_columns::{Column, Layout};
use builder_columns::{BuilderColumn, BuilderHead};
use union_array::UnionArray;
use union_names::order::order_of;

// The name lengths of the columns: 128 at most, and there is no heap. Here, in `fill` and in other crates, three lines fill an array: one
// function for all would be handed a closure, and its definition, each time.
fn sizes_of(columns: &[BuilderColumn]) -> [u8; 128]
    requires { length columns.now ≤ 128 }
    ensures { result ≡ sizes_of columns.now (length columns.now) }
{
    let mut sizes = [0u8; 128];
    for (k, c) in columns.iter().enumerate() {
        sizes[k] = c.size;
    }
    sizes
}

// The array of n slots over k columns that are yet to be filled in.
pub fn blank(layout: Layout, n: usize, k: usize) -> UnionArray
    ensures { result ≡ blank_of layout n k }
{
    UnionArray {
        fields: k,
        children: k,
        count: n,
        offsets_count: match layout {
            Layout::Sparse => 0,
            Layout::Dense => n,
        },
        layout,
        ..UnionArray::empty()
    }
}

// Column k of a builder of `capacity` slots, as the array lists it.
fn described_column(c: BuilderColumn, k: usize, capacity: usize) -> Column
    requires { (k < 128) × (capacity ≤ 65536) }
    ensures { result ≡ described_column c k capacity }
{
    Column {
        values: k * capacity,
        mask: k * bitmap::words_for(capacity),
        name: 32 * k,
        slots: c.slots,
        bit: 0,
        size: c.size,
        id: k as i8,
        kind: c.kind,
        masked: c.masked,
    }
}

// The array with its columns in the order of the ids.
fn fill(h: BuilderHead, columns: &[BuilderColumn; 128], order: &[u8]) -> UnionArray
    requires { Fillable h order.now × (length order.now ≡ h.count) }
    ensures { result ≡ filled_of h columns.now order.now h.count }
{
    let mut out = blank(h.layout, h.len, h.count);
    for (i, id) in order.iter().enumerate() {
        let k = *id as usize;
        out.columns[i] = described_column(columns[k], k, h.capacity);
    }
    out
}

// The array so far, its columns in order by name.
pub fn describe(h: BuilderHead, columns: &[BuilderColumn; 128], names: &[u8]) -> UnionArray
    requires { Describable h columns.now (length names.now) }
    ensures { result ≡ described_by h columns.now names.now }
{
    let sizes = sizes_of(&columns[..h.count]);
    let order = order_of(names, &sizes[..h.count]);
    fill(h, columns, &order[..h.count])
}
