// Bits in 64-bit words: validity masks and selection masks.
#![tactic(auto)]

ghost use Rattle.std.specs.Prelude.{◌≡◌, ℕ, ◌+◌, ◌*◌, ◌%◌, ◌^◌, ◌<◌, ◌≤◌, min, T, pos, length, get_or};
ghost use Rattle.std.specs.Int.Signed.{non_neg};
ghost use Rattle.bitmap.specs.Bits.{pack, bit_at, set_bit, words_for, chunk_of, nulls_of, is_fully_null, selections_of};

mod bit_range;
#[cfg(test)]
mod tests;

pub use bit_range::BitRange;

// A validity mask: the `len` bits of the words from bit `bit` of word `word` on. `bit` may be 64 or more, and then lies in a later
// word. `bit` and `len` add up to a number of the machine, which those of a BitRange need not.
#[derive(Clone, Copy)]
pub struct Mask<'a> {
    pub words: &'a [u64],
    pub word: usize,
    pub bit: usize,
    pub len: usize,
    pub ghost inside: { 64 * word + bit + len ≤ 64 * length words.now },
    pub ghost short: { bit + len < 2 ^ 64 },
}

impl<'a> Mask<'a> {
    // The same bits.
    fn bits(self) -> BitRange<'a>
        ensures words { result.words.now ≡ self.entry.words.now }
        ensures place { (result.word ≡ self.entry.word) × (result.bit ≡ self.entry.bit) × (result.len ≡ self.entry.len) }
    {
        BitRange {
            words: self.words,
            word: self.word,
            bit: self.bit,
            len: self.len,
        }
    }

    // Whether bit i is set.
    pub fn get(self, i: usize) -> bool
        requires { i < self.len }
        ensures { result ≡ bit_at self.entry.words.now (64 * self.entry.word + self.entry.bit + i) }
    {
        self.bits().get(i)
    }

    // Chunk k: the 64 bits from bit 64k on; past the mask they are 0.
    pub fn chunk(self, k: usize) -> u64
        requires { 64 * k < self.len }
        ensures { result ≡ chunk_of self.entry.words.now (64 * self.entry.word + self.entry.bit) self.entry.len k }
    {
        self.bits().chunk(k)
    }

    // How many bits are clear: its length less its set bits.
    pub fn null_count(self) -> usize
        ensures { result ≡ nulls_of self.entry.words.now (64 * self.entry.word + self.entry.bit) self.entry.len }
    {
        self.bits().null_count()
    }
}

// How many of the slots left the next word holds.
pub fn span(left: usize) -> usize
    ensures { result ≡ min 64 left }
{
    left.min(64)
}

// The words that n bits take.
#[tactic(auto, unfolding(crate::specs::Bits::words_for))]
pub fn words_for(n: usize) -> usize
    ensures { result ≡ words_for n }
{
    n.div_ceil(64)
}

// x cut to its n low bits.
#[tactic(auto, using(crate::proofs::Chunks::cut_word, crate::proofs::Chunks::uncut_word))]
pub fn low(x: u64, n: usize) -> u64
    requires { n ≤ 64 }
    ensures { result ≡ x % 2 ^ n }
{
    if n < 64 { x & ((1u64 << n) - 1) } else { x }
}

// Sets or clears bit `bit` of word `word` of the mask words, and keeps every other bit. `bit` may be 64 or more, as in a mask.
#[tactic(auto, using(crate::proofs::OneBit::stored_set, crate::proofs::OneBit::stored_clear))]
pub fn set_bit(words: &mut [u64], word: usize, bit: usize, v: bool)
    requires { 64 * word + bit < 64 * length words.old }
    ensures { words.new ≡ set_bit words.old (64 * word + bit) v }
{
    let at = word + bit / 64;
    let one = 1u64 << (bit % 64);
    if v {
        words[at] |= one;
    } else {
        words[at] &= !one;
    }
}

// The 64 bits that start at bit `off` of a word; past the words they are 0.
#[tactic(auto, using(crate::proofs::Words::join_bits, crate::proofs::Chunks::join_even, crate::proofs::Chunks::join_last))]
fn joined(words: &[u64], word: usize, off: usize) -> u64
    requires { (off < 64) × (word < length words.now) }
    ensures { result ≡ pack 64 (λ j. bit_at words.now (64 * word + off + j)) }
{
    let x = words[word] >> off;
    if off == 0 {
        return x;
    }
    match words.get(word + 1) {
        Some(next) => x | *next << (64 - off),
        None => x,
    }
}

// Whether a mask of `len` bits has no bit set, and is not empty.
#[tactic(auto, unfolding(crate::specs::Bits::is_fully_null))]
pub fn is_fully_null(nulls: usize, len: usize) -> bool
    ensures { result ≡ is_fully_null nulls len }
{
    len != 0 && nulls == len
}

// The selection masks of a run of ids, of which none is below 0: a word to each id, whose bit j is set where id j of the run is
// that one.
#[tactic(auto, using(crate::proofs::Selections::none_selected, crate::proofs::Selections::select_more))]
pub fn selection_masks(ids: &[i8]) -> [u64; 128]
    requires n_bound { length ids.now ≤ 64 }
    requires by_index { (j : ℕ) → j < length ids.now → T (non_neg (get_or ids.now j (pos 0))) }
    ensures { result ≡ selections_of ids.now 0 (length ids.now) }
{
    let mut masks = [0u64; 128];
    for (j, id) in ids.iter().enumerate() {
        masks[*id as usize] |= 1u64 << j;
    }
    masks
}
