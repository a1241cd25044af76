// Integers and bits as text.
ghost use Rattle.std.specs.Prelude.{◌≡◌, ◌+◌, ◌*◌, ◌<◌, ◌≤◌, length};
ghost use Rattle.decimal.specs.Text.{glyph_of, last_digits, natural_text, integer_text, output};
ghost use Rattle.decimal.specs.Written.{hex_text};

// How many decimal digits a number has.
#[tactic(auto, using(crate::proofs::NumeralLaws::numeral_zero, crate::proofs::NumeralLaws::numeral_log, crate::proofs::NumeralLaws::numeral_few))]
fn places(n: u64) -> usize
    ensures value { result ≡ length (natural_text n) }
    ensures few { result ≤ 20 }
{
    n.checked_ilog10().map_or(1, |k| k as usize + 1)
}

// A digit's byte.
fn glyph(d: u64) -> u8
    requires { d < 16 }
    ensures { result ≡ glyph_of d }
{
    if d < 10 {
        b'0' + d as u8
    } else {
        b'a' - 10 + d as u8
    }
}

// Fills the bytes with the last digits of n, as many as there are bytes.
#[tactic(auto, unfolding(crate::specs::Text::last_digits))]
pub fn spell(n: u64, base: u64, out: &mut [u8])
    requires { (0 < base) × (base ≤ 16) }
    ensures { out.new ≡ last_digits base (length out.old) n }
{
    if let Some((last, front)) = out.split_last_mut() {
        *last = glyph(n % base);
        spell(n / base, base, front);
    }
}

// Puts a number's decimal digits at the start of `out` and keeps the bytes after them; answers how many there are.
#[tactic(auto, using(crate::proofs::TextLaws::natural_out))]
pub fn write_natural(n: u64, out: &mut [u8]) -> usize
    requires { 20 ≤ length out.old }
    ensures text { record { size = result; bytes = out.new } ≡ output (natural_text n) out.old }
    ensures few { result ≤ 20 }
{
    let count = places(n);
    spell(n, 10, &mut out[..count]);
    count
}

// Puts the integer that the bits are in two's complement, at most `highest`, at the start of `out` and keeps the bytes after it; answers its length.
#[tactic(auto, using(crate::proofs::TextLaws::integer_minus_out), unfolding(crate::specs::Text::integer_text))]
pub fn write_integer(bits: u64, highest: u64, out: &mut [u8]) -> usize
    requires { (bits < 2 * highest + 2) × (21 ≤ length out.old) }
    ensures { record { size = result; bytes = out.new } ≡ output (integer_text bits highest) out.old }
{
    if bits <= highest {
        return write_natural(bits, out);
    }
    out[0] = b'-';
    1 + write_natural((highest - (bits - highest - 1)) + 1, &mut out[1..])
}

// Puts 0x and the last `count` hexadecimal digits at the start of `out` and keeps the bytes after them; answers their length.
#[tactic(auto, using(crate::proofs::TextLaws::hex_out))]
pub fn write_hex(bits: u64, count: usize, out: &mut [u8]) -> usize
    requires { 2 + count ≤ length out.old }
    ensures { record { size = result; bytes = out.new } ≡ output (hex_text bits count) out.old }
{
    out[..2].copy_from_slice(b"0x");
    spell(bits, 16, &mut out[2..2 + count]);
    2 + count
}
