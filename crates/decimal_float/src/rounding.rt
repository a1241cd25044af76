// The nearest float to a fraction of two numbers, by long division, one binary digit a turn.
ghost use Rattle.std.specs.Prelude.{◌≡◌, cond, ◌^◌, ◌<◌, ◌≤◌};
ghost use Rattle.std.specs.Float.Ieee.{to_bits, round};
ghost use Rattle.decimal_float.specs.Floats.{ieee, sign_weight};
ghost use Rattle.decimal_float.specs.Division.{Divided, Rounded};

use crate::{Format, Quotient};
use std::cmp::Ordering;

// The sign's bit, where the float is negative.
fn sign_of(f: Format, negative: bool) -> u64
    ensures { result ≡ cond negative (sign_weight f) 0 }
{
    if negative { f.sizes().sign } else { 0 }
}

// The first 63 binary digits of m / d, and the rest.
fn divided(m: u64, d: u64) -> Quotient
    requires { (0 < m) × (m < 10 ^ 15) × (0 < d) × (d ≤ 10 ^ 15) }
    ensures { Divided m d result }
{
    // The doublings are counted for the answer; what ends the loop is `whole`.
    let mut whole = m / d;
    let mut rest = m % d;
    let mut steps: u64 = 0;
    while whole < 0x4000_0000_0000_0000 {
        whole = 2 * whole;
        rest = 2 * rest;
        if d <= rest {
            rest -= d;
            whole += 1;
        }
        steps += 1;
    }
    Quotient { whole, rest, steps }
}

// A quotient's 63 digits without the last `drop`, rounded to the nearest, ties to even.
fn rounded(q: Quotient, drop: u64) -> u64
    requires { (0 < drop) × (drop < 63) × (q.whole < 2 ^ 63) }
    ensures { Rounded q drop result }
{
    let kept = q.whole >> drop;
    let cut = q.whole % (1u64 << drop);
    match cut.cmp(&(1u64 << (drop - 1))) {
        Ordering::Less => kept,
        Ordering::Greater => kept + 1,
        Ordering::Equal if q.rest != 0 => kept + 1,
        Ordering::Equal => kept + kept % 2,
    }
}

// The bits of the nearest float to m / d, ties to even.
pub(crate) fn nearest(m: u64, d: u64, f: Format, negative: bool) -> u64
    requires { (m < 10 ^ 15) × (0 < d) × (d ≤ 10 ^ 15) }
    ensures { result ≡ to_bits (ieee f) (round (ieee f) negative m d) }
{
    let sign = sign_of(f, negative);
    if m == 0 {
        return sign;
    }
    let s = f.sizes();
    let q = divided(m, d);
    let exponent = s.emax + 61 - q.steps;
    sign + ((exponent << (s.precision - 1)) + rounded(q, 63 - s.precision))
}
