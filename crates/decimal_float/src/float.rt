// Floats as text: decimals of at most 15 digits, or the format's bits in hexadecimal.
ghost use Rattle.std.specs.Prelude.{◌≡◌, ◌==◌, position};
ghost use Rattle.decimal_float.specs.Floats.{fraction_of, size_of, float_of};

use crate::{Format, rounding};
use decimal::{digits, hex};

// The largest number of 15 digits.
pub(crate) const MOST: u64 = 999_999_999_999_999;

// The nearest float to whole.part, by the digits before the point and after it.
#[tactic(auto, using(decimal::proofs::DigitLaws::number_most, decimal::proofs::DigitLaws::number_then, decimal::proofs::DigitLaws::number_never, crate::proofs::FloatLaws::ten_small, crate::proofs::FloatLaws::ten_pos), unfolding(crate::specs::Floats::fraction_of))]
fn read_fraction(whole: &[u8], part: &[u8], f: Format, negative: bool) -> Option<u64>
    ensures { result ≡ fraction_of f negative whole.now part.now }
{
    if whole.len() + part.len() == 0 || 15 < part.len() {
        return None;
    }
    let n = digits::number(0, whole, 10, MOST)?;
    let m = digits::number(n, part, 10, MOST)?;
    let d = 10u64.pow(part.len() as u32);
    Some(rounding::nearest(m, d, f, negative))
}

// The place of the first point.
fn point_place(text: &[u8]) -> Option<usize>
    ensures { result ≡ position (λ b. b == 46) text.now }
{
    text.iter().position(|b| *b == b'.')
}

// The nearest float to a decimal, given its sign and what follows that.
#[tactic(auto, using(crate::proofs::FloatLaws::size_whole, crate::proofs::FloatLaws::size_parts))]
fn read_size(text: &[u8], f: Format, negative: bool) -> Option<u64>
    ensures { result ≡ size_of f negative text.now }
{
    match point_place(text) {
        Some(p) => read_fraction(&text[..p], &text[p + 1..], f, negative),
        None => read_fraction(text, &[], f, negative),
    }
}

// The bits of the float that the text has: those that it tells, or those of the nearest float to its decimal, ties to even.
#[tactic(auto, unfolding(crate::specs::Floats::float_of))]
pub fn read_float(text: &[u8], f: Format) -> Option<u64>
    ensures { result ≡ float_of f text.now }
{
    match text {
        [] => None,
        _ if hex::is_hex(text) => hex::read_hex(text, f.sizes().hex_digits),
        [b'-', size @ ..] => read_size(size, f, true),
        [b'+', size @ ..] => read_size(size, f, false),
        _ => read_size(text, f, false),
    }
}
