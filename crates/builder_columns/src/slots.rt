// Slots of columns: one, the nulls of a new column, and a row of all columns. Each says what room it needs: memory that is written can't
// be told once for all in a struct that is kept.
ghost use Rattle.std.specs.Prelude.{◌≡◌, [], ◌∷◌, ◌+◌, ◌<◌, ◌≤◌, length};
ghost use Rattle.std.proofs.Math.Option.{none};
ghost use Rattle.array_columns.specs.Buffers.{held, Same};
ghost use Rattle.builder_columns.specs.Columns.{given};
ghost use Rattle.builder_columns.specs.Puts.{put, filled, row};
ghost use Rattle.builder_columns.specs.Writing.{Room, put_words};

use array_columns::BuffersMut;

// Puts a value or a null in a slot of column k: its word, a null's is 0, and its mask bit.
#[tactic(auto, unfolding(crate::specs::Writing::put_words))]
pub(crate) fn put_slot(
    lent: &mut BuffersMut,
    capacity: usize,
    k: usize,
    slot: usize,
    value: Option<u64>,
)
    requires { Room capacity (k + 1) (length lent.old.values.now) (length lent.old.masks.now) × (slot < capacity) }
    ensures same { Same lent.new lent.old }
    ensures after { held lent.new ≡ put_words capacity (held lent.old) (put k slot (given value) ∷ []) }
{
    lent.values[k * capacity + slot] = value.unwrap_or(0);
    bitmap::set_bit(
        lent.masks,
        k * bitmap::words_for(capacity),
        slot,
        value.is_some(),
    );
}

// Puts nulls in the first n slots of column k.
#[tactic(auto, using(crate::proofs::Putting::words_none, crate::proofs::Putting::filled_more))]
pub(crate) fn put_nulls(lent: &mut BuffersMut, capacity: usize, k: usize, n: usize)
    requires { Room capacity (k + 1) (length lent.old.values.now) (length lent.old.masks.now) × (n ≤ capacity) }
    ensures same { Same lent.new lent.old }
    ensures after { held lent.new ≡ put_words capacity (held lent.old) (filled none k n) }
{
    // By number, since a slot is a word in one memory and a bit in another.
    for slot in 0..n {
        put_slot(lent, capacity, k, slot, None);
    }
}

// Puts a slot in each of n columns: the value in column `id`, a null in each other.
#[tactic(auto, using(crate::proofs::Putting::words_none, crate::proofs::Putting::row_more))]
pub(crate) fn put_row(
    lent: &mut BuffersMut,
    capacity: usize,
    n: usize,
    slot: usize,
    id: usize,
    value: Option<u64>,
)
    requires { Room capacity n (length lent.old.values.now) (length lent.old.masks.now) × (slot < capacity) }
    ensures same { Same lent.new lent.old }
    ensures after { held lent.new ≡ put_words capacity (held lent.old) (row n slot id (given value)) }
{
    // By number, since a column is a row of one memory and a row of another, of two lengths.
    for k in 0..n {
        let own = if k == id { value } else { None };
        put_slot(lent, capacity, k, slot, own);
    }
}
