// Bits of four words, told by hand: bit j of word k is bit 64k + j, the lowest bit first.
ghost use Rattle.std.specs.Prelude.{◌≡◌, ◌+◌, ◌*◌, ◌<◌, length};
ghost use Rattle.bitmap.specs.Bits.{bit_at};

use crate::{BitRange, Mask};

const WORDS: [u64; 4] = [0, 0x8000_0000_0000_0001, 0b101, u64::MAX];

// A mask's first bit and its length together; each mask promises that they add up to a number of the machine.
fn end(mask: Mask<'_>) -> usize {
    mask.bit + mask.len
}

// Bit `bit` from word `word` on: any that a number names, bit 2^64 - 1 too, which no mask has.
fn get_bit(words: &[u64], word: usize, bit: usize) -> bool
    requires { 64 * word + bit < 64 * length words.now }
    ensures { result ≡ bit_at words.now (64 * word + bit) }
{
    let one = BitRange {
        words,
        word,
        bit,
        len: 1,
    };
    one.get(0)
}

// The last bit of word 1, and three bits of word 2: set, set, clear, set.
#[test]
fn mask_tells_bits(rt: HostRuntime) {
    let mask = Mask {
        words: &WORDS,
        word: 1,
        bit: 63,
        len: 4,
    };
    for (i, set) in [true, true, false, true].iter().enumerate() {
        assert_eq!(rt; mask.get(i), *set, "at {i}");
    }
    assert_eq!(rt; mask.chunk(0), 0b1011);
    assert_eq!(rt; end(mask), 67);
    assert_eq!(rt; mask.null_count(), 1);
}

// Word 2, as bit 64 of word 1 on, and six bits of word 3: 62 are clear, and the second chunk has six bits.
#[test]
fn bit_range_tells_bits(rt: HostRuntime) {
    let range = BitRange {
        words: &WORDS,
        word: 1,
        bit: 64,
        len: 70,
    };
    for (i, set) in [(0, true), (1, false), (2, true), (63, false), (64, true)] {
        assert_eq!(rt; range.get(i), set, "at {i}");
    }
    assert_eq!(rt; range.chunk(0), 0b101);
    assert_eq!(rt; range.chunk(1), 0b111111);
    assert_eq!(rt; range.null_count(), 62);
    assert_eq!(rt; get_bit(&WORDS, 1, 66), true);
    assert_eq!(rt; get_bit(&WORDS, 1, 67), false);
}

#[test]
fn empty_mask_has_no_null(rt: HostRuntime) {
    let mask = Mask {
        words: &[],
        word: 0,
        bit: 0,
        len: 0,
    };
    assert_eq!(rt; mask.null_count(), 0);
}
