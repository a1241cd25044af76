// Integers in decimal, with an optional sign.
ghost use Rattle.std.specs.Prelude.{◌≡◌};
ghost use Rattle.decimal.specs.Integers.{natural_of, integer_of};

use crate::digits;

// A row of one decimal digit or more, at most `most`.
#[tactic(auto, unfolding(crate::specs::Integers::natural_of))]
pub fn read_natural(text: &[u8], most: u64) -> Option<u64>
    ensures { result ≡ natural_of text.now most }
{
    if text.is_empty() {
        return None;
    }
    digits::number(0, text, 10, most)
}

// The integer that the text has, if it is from -`lowest` to `highest`, in 64-bit two's complement.
#[tactic(auto, unfolding(crate::specs::Integers::integer_of, crate::specs::Integers::natural_of))]
pub fn read_integer(text: &[u8], lowest: u64, highest: u64) -> Option<u64>
    ensures { result ≡ integer_of text.now lowest highest }
{
    match text {
        [b'-', row @ ..] => Some(read_natural(row, lowest)?.wrapping_neg()),
        [b'+', row @ ..] => read_natural(row, highest),
        _ => read_natural(text, highest),
    }
}
