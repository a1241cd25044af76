// A run of slots: a table by id finds each slot's column.
ghost use Rattle.std.specs.Prelude.{◌≡◌, true, ◌&&◌, ◌+◌, ◌<◌, ◌≤◌, leb, length, pos, get_or};
ghost use Rattle.bitmap.specs.Lists.{retable};
ghost use Rattle.bitmap.specs.Bits.{digit};
ghost use Rattle.array_columns.specs.ById.{place_table};
ghost use Rattle.array_columns.specs.Refusal.{number_of};
ghost use Rattle.array_columns.specs.Pass.{column_told};
ghost use Rattle.array_columns.specs.Slots.{column_of};
ghost use Rattle.array_columns.specs.Questions.{within};
ghost use Rattle.array_slots.specs.Types.{Dense, by_layout};
ghost use Rattle.array_slots.specs.Slots.{used, id_at, slot_no};
ghost use Rattle.array_slots.specs.Values.{first_refusal, slot_value_at, values_answer, run_of};
ghost use Rattle.array_slots.specs.Accepted.{Valued, SlotsAccepted};

use array_columns::questions::{entry_of, part_in};
use array_columns::slots::{child_slot, is_within, places_by_id};
use array_columns::{Buffers, Column, Head, Layout, Refusal};

// Whether slot i's offset, if the layout is dense, is one of its child's slots.
fn offset_fits(layout: Layout, offsets: &[i32], start: usize, i: usize, slots: u32) -> bool
    requires { layout ≡ Dense → start + i < length offsets.now }
    ensures { result ≡ by_layout layout true (within (get_or offsets.now (start + i) (pos 0)) slots) }
{
    layout == Layout::Sparse || is_within(offsets[start + i], slots)
}

// Slots `first` to `first` + n - 1 of an array that 1 to 6 accept.
#[derive(Drop)]
struct Slots<'a> {
    head: Head,
    columns: &'a [Column; 128],
    // The places of the columns in use, by their ids.
    places: [u8; 256],
    lent: &'a Buffers<'a, 'a>,
    first: usize,
    n: usize,
    ghost valued: { Valued head columns.now lent.now },
    ghost placed: { places ≡ place_table (used head columns.now) },
    ghost low: { first + n ≤ head.count },
}

impl<'a> Slots<'a> {
    // The column with an id, if there is one.
    fn child(&self, id: i8) -> Option<Column>
        ensures { column_told result ≡ column_of (used self.now.head self.now.columns.now) id }
    {
        let columns = self.columns;
        columns.get(self.places[entry_of(id)] as usize).copied()
    }

    // 7 and 8 of its slots, in their order: the first no.
    fn check(&self) -> Result<(), Refusal>
        ensures { number_of result ≡ first_refusal self.now.n (λ k. slot_no self.now.head self.now.columns.now self.now.lent.now.ids self.now.lent.now.offsets (self.now.first + k)) }
    {
        let (h, lent) = (&self.head, self.lent);
        let (type_ids, offsets) = (lent.type_ids, lent.offsets);
        let start = h.start + self.first;
        for (k, id) in type_ids[start..start + self.n].iter().enumerate() {
            let Some(c) = self.child(*id) else {
                return Err(Refusal::UnknownTypeId);
            };
            if !offset_fits(h.layout, offsets, h.offsets_start, self.first + k, c.slots) {
                return Err(Refusal::OffsetRange);
            }
        }
        Ok(())
    }

    // Writes the ids, the presence (1 where missing) and the values of its slots, which 7 and 8 accept.
    #[tactic(auto, using(bitmap::proofs::Tables::retable_none))]
    fn write(&self, ids: &mut [i8], missing: &mut [u8], bits: &mut [u64])
        requires accepted { SlotsAccepted self.now.head self.now.columns.now self.now.lent.now self.now.first (self.now.first + self.now.n) }
        requires room { (self.now.n ≤ length ids.old) × (self.now.n ≤ length missing.old) × (self.now.n ≤ length bits.old) }
        ensures ids_after { ids.new ≡ retable self.now.n (λ k. id_at self.now.head self.now.lent.now.ids (self.now.first + k)) ids.old }
        ensures missing_after { missing.new ≡ retable self.now.n (λ k. digit (slot_value_at self.now.head self.now.columns.now self.now.lent.now (self.now.first + k)).missing) missing.old }
        ensures bits_after { bits.new ≡ retable self.now.n (λ k. (slot_value_at self.now.head self.now.columns.now self.now.lent.now (self.now.first + k)).bits) bits.old }
    {
        let (h, lent) = (&self.head, self.lent);
        let (type_ids, offsets) = (lent.type_ids, lent.offsets);
        let start = h.start + self.first;
        let own = &type_ids[start..start + self.n];
        ids[..self.n].copy_from_slice(own);
        // By place, since two outputs of three are written.
        for (k, id) in own.iter().enumerate() {
            let c = self.child(*id).unwrap();
            let p = child_slot(h.layout, offsets, h.offsets_start, self.first + k);
            let value = c.slot_value(lent, p);
            missing[k] = u8::from(value.is_none());
            bits[k] = value.unwrap_or(0);
        }
    }
}

// Whether n elements fit in each of three lengths.
fn has_room(n: usize, a: usize, b: usize, c: usize) -> bool
    ensures { result ≡ (leb n a && (leb n b && leb n c)) }
{
    n <= a && n <= b && n <= c
}

// The ids, the presence (1 where missing) and the values of n slots from `first` on, of an array that 1 to 6 accept. The outputs are
// three slices, since C hands over three.
#[tactic(auto, using(crate::proofs::Runs::run_ten, crate::proofs::Runs::run_room))]
pub fn run(
    h: Head,
    columns: &[Column; 128],
    first: usize,
    n: usize,
    lent: &Buffers,
    ids: &mut [i8],
    missing: &mut [u8],
    bits: &mut [u64],
) -> Result<(), Refusal>
    requires { Valued h columns.now lent.now }
    ensures { values_answer (number_of result) ids.new missing.new bits.new ≡ run_of h columns.now lent.now first n ids.old missing.old bits.old }
{
    if !part_in(first, n, h.count) {
        return Err(Refusal::IndexRange);
    }
    let slots = Slots {
        head: h,
        columns,
        places: places_by_id(&columns[..h.fields]),
        lent,
        first,
        n,
    };
    slots.check()?;
    if !has_room(n, ids.len(), missing.len(), bits.len()) {
        return Err(Refusal::LengthMismatch);
    }
    slots.write(ids, missing, bits);
    Ok(())
}
