// Bits in hexadecimal: 0x and a fixed number of digits.
ghost use Rattle.std.specs.Prelude.{◌≡◌};
ghost use Rattle.decimal.specs.Integers.{is_hex, hex_of};

use crate::digits;

// Whether the text begins with 0x.
#[tactic(auto, unfolding(crate::specs::Integers::is_hex))]
pub fn is_hex(text: &[u8]) -> bool
    ensures { result ≡ is_hex text.now }
{
    matches!(text, [b'0', b'x', ..])
}

// The bits that 0x and `count` digits tell.
#[tactic(auto, unfolding(crate::specs::Integers::hex_of, crate::specs::Integers::is_hex))]
pub fn read_hex(text: &[u8], count: usize) -> Option<u64>
    ensures { result ≡ hex_of text.now count }
{
    match text {
        [b'0', b'x', row @ ..] if row.len() == count => digits::number(0, row, 16, u64::MAX),
        _ => None,
    }
}
