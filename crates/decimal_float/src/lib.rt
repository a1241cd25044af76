// Floats as text and back: decimals of at most 15 digits, or the bits in hexadecimal.
#![tactic(auto)]

ghost use Rattle.decimal_float.specs.Division.{SizesOf};

pub mod float;
mod rounding;
pub mod write_float;

// The float formats of IEEE 754 that the kinds Float32 and Float64 have.
#[derive(Clone, Copy, Debug, PartialEq, Eq)]
pub enum Format {
    Binary32,
    Binary64,
}

// A format's numbers: the digits of a significand, the exponent of the largest values, the weight of the sign's bit, and the hexadecimal digits
// of the bits.
#[derive(Clone, Copy, Debug)]
pub(crate) struct Sizes {
    pub precision: u64,
    pub emax: u64,
    pub sign: u64,
    pub hex_digits: usize,
}

impl Format {
    // The format's numbers.
    pub(crate) fn sizes(self) -> Sizes
        ensures { SizesOf self result }
    {
        match self {
            Format::Binary32 => Sizes {
                precision: 24,
                emax: 127,
                sign: 0x8000_0000,
                hex_digits: 8,
            },
            Format::Binary64 => Sizes {
                precision: 53,
                emax: 1023,
                sign: 0x8000_0000_0000_0000,
                hex_digits: 16,
            },
        }
    }
}

// A quotient's first 63 binary digits: `whole` and `rest` / divisor, after `steps` doublings of the dividend.
#[derive(Clone, Copy, Debug)]
pub(crate) struct Quotient {
    pub whole: u64,
    pub rest: u64,
    pub steps: u64,
}
