// Rows of digits in a base of at most 16.
ghost use Rattle.std.specs.Prelude.{◌≡◌, ◌<◌, ◌≤◌};
ghost use Rattle.decimal.specs.Digits.{digit_in, number_of};

// A digit's value, if it is a digit of the base.
#[tactic(auto, unfolding(crate::specs::Digits::digit_of))]
fn digit(b: u8, base: u64) -> Option<u64>
    ensures { result ≡ digit_in base b }
{
    // Any other byte counts as 16, which no base here has as a digit.
    let d = match b {
        b'0'..=b'9' => u64::from(b - b'0'),
        b'A'..=b'F' => u64::from(b - b'A') + 10,
        b'a'..=b'f' => u64::from(b - b'a') + 10,
        _ => 16,
    };
    (d < base).then_some(d)
}

// The number `start` with the digits of `text` after it, if they are digits and it is at most `most`.
#[tactic(auto, using(crate::proofs::DigitLaws::turn_none, crate::proofs::DigitLaws::turn_digit, crate::proofs::DigitLaws::turn_past, crate::proofs::DigitLaws::turn_end))]
pub fn number(start: u64, text: &[u8], base: u64, most: u64) -> Option<u64>
    requires { (0 < base) × (start ≤ most) }
    ensures { result ≡ number_of base start text.now most }
{
    let mut n = start;
    for &b in text {
        let d = digit(b, base)?;
        n = base.checked_mul(n)?.checked_add(d)?;
        if most < n {
            return None;
        }
    }
    Some(n)
}
