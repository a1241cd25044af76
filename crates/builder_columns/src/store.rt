// What an append writes.
ghost use Rattle.std.specs.Prelude.{◌≡◌, cond, ◌+◌, ◌*◌, ◌<◌, ◌≤◌, pos, length, set};
ghost use Rattle.std.proofs.Math.Seq.{paste};
ghost use Rattle.array_columns.specs.Types.{by_layout};
ghost use Rattle.array_columns.specs.Buffers.{amounts_of, held, Same};
ghost use Rattle.builder_columns.specs.Columns.{given};
ghost use Rattle.builder_columns.specs.Writing.{Room, put_words, puts_for, written_by, Writable};

use crate::slots::{put_nulls, put_row, put_slot};
use crate::{BuilderHead, Plan};
use array_columns::{BuffersMut, Layout};
use union_names::names::put_name;

// Writes a dense append's offset: how many slots its column has.
fn put_offset(offsets: &mut [i32], h: BuilderHead, slots: u32)
    requires { (h.len < length offsets.old) × (slots ≤ 65536) }
    ensures { offsets.new ≡ by_layout h.layout offsets.old (set offsets.old h.len (pos slots)) }
{
    if h.layout == Layout::Dense {
        offsets[h.len] = slots as i32;
    }
}

// Writes a new name's bytes.
fn put_new_name(names: &mut [u8], p: Plan, name: &[u8])
    requires { (p.id < 128) × (32 * p.id + length name.now ≤ length names.old) }
    ensures { names.new ≡ cond p.fresh (paste names.old (32 * p.id) name.now (length name.now)) names.old }
{
    if p.fresh {
        put_name(names, 32 * p.id, name);
    }
}

// Puts the slots that an append adds: in sparse the nulls of a new column and a row, in dense one.
#[tactic(auto, using(crate::proofs::Putting::room_kept, crate::proofs::Putting::room_upto, crate::proofs::Putting::words_append))]
fn put_slots(lent: &mut BuffersMut, h: BuilderHead, p: Plan, value: Option<u64>)
    requires { Room h.capacity p.count (length lent.old.values.now) (length lent.old.masks.now)
        × (p.id < p.count) × (h.len < h.capacity) × (p.column.slots ≤ h.len) }
    ensures same { Same lent.new lent.old }
    ensures after { held lent.new ≡ put_words h.capacity (held lent.old) (puts_for h.layout p h.len (given value)) }
{
    match h.layout {
        Layout::Sparse => {
            if p.fresh {
                put_nulls(lent, h.capacity, p.id, h.len);
            }
            put_row(lent, h.capacity, p.count, h.len, p.id, value);
        }
        Layout::Dense => {
            put_slot(lent, h.capacity, p.id, p.column.slots as usize, value);
        }
    }
}

// Writes what an append of a value or a null adds.
#[tactic(auto, using(crate::proofs::Putting::written_is))]
pub fn store(h: BuilderHead, p: Plan, name: &[u8], value: Option<u64>, lent: &mut BuffersMut)
    requires { Writable h p (length name.now) (amounts_of (held lent.old)) }
    ensures same { Same lent.new lent.old }
    ensures after { held lent.new ≡ written_by h p (held lent.old) name.now (given value) }
{
    lent.type_ids[h.len] = p.id as i8;
    put_offset(lent.offsets, h, p.column.slots);
    put_new_name(lent.names, p, name);
    put_slots(lent, h, p, value);
}
