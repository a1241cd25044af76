// Floats as text: a decimal of at most 15 digits that reads back, or else the bits. That it reads back is what the contracts promise; which
// decimals are tried, and in which order, they leave open.
ghost use Rattle.std.specs.Prelude.{◌≡◌, ◌*◌, ◌<◌, ◌≤◌, length, take, Some, IsTrue};
ghost use Rattle.decimal_float.specs.Floats.{sign_weight, float_of};
ghost use Rattle.decimal_float.specs.Written.{ReadsBack};

use crate::float::MOST;
use crate::{Format, float};
use decimal::write;

// A float's bits, and their format.
#[derive(Clone, Copy)]
struct Float {
    bits: u64,
    format: Format,
}

// A float's exponent field and significand digits, as Binary64 has them.
#[derive(Clone, Copy)]
struct Scaled {
    field: u64,
    digits: u64,
}

// A float's size as a whole number and a fraction, cut to 60 binary digits.
#[derive(Clone, Copy, Default)]
struct Fixed {
    whole: u64,
    fraction: u64,
}

impl Scaled {
    // The float's size, where it is from 2^-50 to 2^50; elsewhere 0.
    fn fixed(self) -> Fixed {
        match self.field {
            973..=1014 => Fixed {
                whole: 0,
                fraction: self.digits >> (1015 - self.field),
            },
            1015..=1072 => Fixed {
                whole: self.digits >> (1075 - self.field),
                fraction: self.digits << (self.field - 1015),
            },
            _ => Fixed::default(),
        }
    }
}

impl Fixed {
    // Ten times a size below 10^15. The fraction's bits from 60 on are of the whole number, and not counted again.
    fn ten_times(self) -> Fixed
        requires { self.whole < 1000000000000000 }
    {
        let ten = 10 * (self.fraction % (1 << 60));
        Fixed {
            whole: 10 * self.whole + (ten >> 60),
            fraction: ten,
        }
    }
}

// Puts n / 10^k at the start of `out`, with k digits after the point, if there are any; answers its length. Promised is only that this is at
// most 36: the caller reads the text back. The bounds on k and on the room are what one function hands to the next, here and below: a
// struct for them would be made for one call.
#[tactic(auto, using(crate::proofs::FloatLaws::ten_pos))]
fn write_fixed(n: u64, k: usize, out: &mut [u8]) -> usize
    requires { (k ≤ 15) × (36 ≤ length out.old) }
    ensures { result ≤ 36 }
{
    let power = 10u64.pow(k as u32);
    let end = write::write_natural(n / power, out);
    if k == 0 {
        return end;
    }
    out[end] = b'.';
    let first = end + 1;
    write::spell(n % power, 10, &mut out[first..first + k]);
    first + k
}

impl Float {
    // The exponent and the digits as Binary64 has them.
    fn scaled(self) -> Scaled {
        let s = self.format.sizes();
        let hidden = 1u64 << (s.precision - 1);
        Scaled {
            field: self.bits / hidden % (2 * s.emax + 2) + 1023 - s.emax,
            digits: (self.bits % hidden + hidden) << (53 - s.precision),
        }
    }

    // Whether a text reads as the bits.
    fn is_told_by(self, text: &[u8]) -> bool
        ensures { IsTrue result → float_of self.format text.now ≡ Some self.bits }
    {
        float::read_float(text, self.format) == Some(self.bits)
    }

    // Puts a minus in for a negative float; answers where the digits begin.
    fn write_sign(self, out: &mut [u8]) -> usize
        requires { 1 ≤ length out.old }
        ensures { result ≤ 1 }
    {
        if self.bits < self.format.sizes().sign {
            return 0;
        }
        out[0] = b'-';
        1
    }

    // Puts m / 10^k in, with the float's sign, and answers its length if it reads as the bits.
    fn candidate(self, m: u64, k: usize, out: &mut [u8]) -> Option<usize>
        requires { (k ≤ 15) × (37 ≤ length out.old) }
        ensures { ReadsBack self.bits self.format out.new result }
    {
        let at = self.write_sign(out);
        let end = at + write_fixed(m, k, &mut out[at..]);
        self.is_told_by(&out[..end]).then_some(end)
    }

    // The same for m, and if that does not read as the bits, for m + 1.
    fn either(self, m: u64, k: usize, out: &mut [u8]) -> Option<usize>
        requires { (m < 1000000000000000) × (k ≤ 15) × (37 ≤ length out.old) }
        ensures { ReadsBack self.bits self.format out.new result }
    {
        match self.candidate(m, k, out) {
            Some(end) => Some(end),
            None => self.candidate(m + 1, k, out),
        }
    }

    // Tries decimals, those with fewer digits after the point first; answers the length of the first that reads as the bits.
    fn first_decimal(self, out: &mut [u8]) -> Option<usize>
        requires { 37 ≤ length out.old }
        ensures { ReadsBack self.bits self.format out.new result }
    {
        let mut x = self.scaled().fixed();
        // As many digits after the point as k says.
        for k in 0..16 {
            if MOST < x.whole {
                return None;
            }
            if let Some(end) = self.either(x.whole, k, out) {
                return Some(end);
            }
            x = x.ten_times();
        }
        None
    }
}

// Puts a text that reads as the float's bits at the start of `out`; answers its length. Which of the texts that do is not promised, nor what
// the bytes after it are.
pub fn write_float(bits: u64, f: Format, out: &mut [u8]) -> usize
    requires { (bits < 2 * sign_weight f) × (37 ≤ length out.old) }
    ensures { (result ≤ 37) × (float_of f (take result out.new) ≡ Some bits) }
{
    let float = Float { bits, format: f };
    match float.first_decimal(out) {
        Some(end) => end,
        None => write::write_hex(bits, f.sizes().hex_digits, out),
    }
}
