// Presence of a child's slots: nothing else reads a child's mask. Each makes its mask: in a function that makes it for all three, the
// bound on its bits was not proved. That what is read lies in the memory lent is of a column and a memory, which no struct holds together.
ghost use Rattle.std.specs.Prelude.{◌≡◌, true, ◌*◌, ◌≤◌, ◌<◌};
ghost use Rattle.array_columns.specs.Slots.{present, presence_chunk, nulls_in};
ghost use Rattle.array_columns.specs.Questions.{presence_in};

use crate::{Buffers, Column};
use bitmap::Mask;

impl Column {
    // Whether slot p of the child is present.
    #[tactic(auto, using(crate::proofs::Present::mask_bits, crate::proofs::Present::by_mask, crate::proofs::Present::no_mask_lem))]
    pub fn is_present(&self, lent: &Buffers, p: usize) -> bool
        requires { (p < self.now.slots) × (presence_in lent.now self.now ≡ true) }
        ensures { result ≡ present self.now lent.now p }
    {
        if !self.masked {
            return true;
        }
        let mask = Mask {
            words: lent.masks,
            word: self.mask,
            bit: self.bit as usize,
            len: self.slots as usize,
        };
        mask.get(p)
    }

    // Chunk k of the first `len` slots of the child.
    #[tactic(auto, using(crate::proofs::Present::mask_bits, crate::proofs::Present::chunk_masked, crate::proofs::Present::chunk_free))]
    pub fn presence_chunk(&self, lent: &Buffers, len: usize, k: usize) -> u64
        requires { (64 * k < len) × (len ≤ self.now.slots) × (presence_in lent.now self.now ≡ true) }
        ensures { result ≡ presence_chunk self.now lent.now len k }
    {
        if !self.masked {
            return bitmap::low(u64::MAX, bitmap::span(len - 64 * k));
        }
        let mask = Mask {
            words: lent.masks,
            word: self.mask,
            bit: self.bit as usize,
            len,
        };
        mask.chunk(k)
    }

    // How many slots of the child are null.
    #[tactic(auto, using(crate::proofs::Present::mask_bits, crate::proofs::Present::nulls_masked, crate::proofs::Present::nulls_free))]
    pub fn null_count(&self, lent: &Buffers) -> usize
        requires { presence_in lent.now self.now ≡ true }
        ensures { result ≡ nulls_in self.now lent.now }
    {
        if !self.masked {
            return 0;
        }
        let mask = Mask {
            words: lent.masks,
            word: self.mask,
            bit: self.bit as usize,
            len: self.slots as usize,
        };
        mask.null_count()
    }
}
