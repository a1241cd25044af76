// Bits of words, from any bit on.
ghost use Rattle.std.specs.Prelude.{◌≡◌, ◌+◌, ◌*◌, ◌^◌, ◌<◌, ◌≤◌, length};
ghost use Rattle.bitmap.specs.Bits.{bit_at, chunk_of, nulls_of};

use crate::{joined, low, span, words_for};

// The `len` bits of the words from bit `bit` of word `word` on. `bit` may be 64 or more, and then lies in a later word. The last of them
// may be bit 2^64 - 1 from word `word` on, so that `bit` and `len` need not add up to a number of the machine.
#[derive(Clone, Copy)]
pub struct BitRange<'a> {
    pub words: &'a [u64],
    pub word: usize,
    pub bit: usize,
    pub len: usize,
    pub ghost inside: { 64 * word + bit + len ≤ 64 * length words.now },
    pub ghost short: { bit + len ≤ 2 ^ 64 },
}

impl BitRange<'_> {
    // Whether bit i is set.
    #[tactic(auto, using(crate::proofs::Words::read_bit))]
    pub fn get(self, i: usize) -> bool
        requires { i < self.len }
        ensures { result ≡ bit_at self.entry.words.now (64 * self.entry.word + self.entry.bit + i) }
    {
        let at = self.bit + i;
        (self.words[self.word + at / 64] >> (at % 64)) & 1 == 1
    }

    // Chunk k: the 64 bits from bit 64k on; past the range they are 0.
    #[tactic(auto, using(crate::proofs::Chunks::chunk_cut))]
    pub fn chunk(self, k: usize) -> u64
        requires { 64 * k < self.len }
        ensures { result ≡ chunk_of self.entry.words.now (64 * self.entry.word + self.entry.bit) self.entry.len k }
    {
        let done = 64 * k;
        let at = self.bit + done;
        let x = joined(self.words, self.word + at / 64, at % 64);
        low(x, span(self.len - done))
    }

    // How many bits are clear: its length less its set bits.
    #[tactic(auto, using(crate::proofs::Counts::nulls_le, crate::proofs::Counts::chunk_ones), unfolding(crate::specs::Bits::words_for))]
    pub fn null_count(self) -> usize
        ensures { result ≡ nulls_of self.entry.words.now (64 * self.entry.word + self.entry.bit) self.entry.len }
    {
        let mut set = 0;
        // A chunk can lie in two words, so the loop counts chunks: no slice holds them.
        for k in 0..words_for(self.len) {
            set += self.chunk(k).count_ones() as usize;
        }
        self.len - set
    }
}
