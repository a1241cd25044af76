// Values as text, and back.
ghost use Rattle.std.specs.Prelude.{◌≡◌, ◌+◌, ◌^◌, ◌<◌, ◌≤◌, length};
ghost use Rattle.union_array.specs.Types.{width_of, low_bits};
ghost use Rattle.union_text.specs.Values.{values_of, decimal_of, bits_of, Told};
ghost use Rattle.union_text.specs.declared.Values.TheVariants.{Integers};

use crate::Values;
use array_columns::Kind;
use decimal::{hex, integer, write};
use decimal_float::{Format, float, write_float};

impl Values {
    // The integers of a signed kind, by the highest.
    fn signed(highest: u64) -> Values
        requires { highest < 2 ^ 63 }
        ensures { result ≡ Integers (highest + 1) highest }
    {
        Values::Integers {
            lowest: highest + 1,
            highest,
        }
    }

    // The integers of an unsigned kind, by the highest.
    fn unsigned(highest: u64) -> Values
        ensures { result ≡ Integers 0 highest }
    {
        Values::Integers { lowest: 0, highest }
    }

    // The bits of a value in decimal.
    fn read(self, text: &[u8]) -> Option<u64>
        ensures { result ≡ decimal_of self text.now }
    {
        match self {
            Values::Integers { lowest, highest } => integer::read_integer(text, lowest, highest),
            Values::Floats(f) => float::read_float(text, f),
        }
    }
}

// What the values of a kind are.
impl From<Kind> for Values {
    ghost from_gives = { λ kind values. values ≡ values_of kind };

    fn from(kind: Kind) -> Values {
        match kind {
            Kind::Int8 => Values::signed(0x7f),
            Kind::Int16 => Values::signed(0x7fff),
            Kind::Int32 => Values::signed(0x7fff_ffff),
            Kind::Int64 => Values::signed(0x7fff_ffff_ffff_ffff),
            Kind::UInt8 => Values::unsigned(0xff),
            Kind::UInt16 => Values::unsigned(0xffff),
            Kind::UInt32 => Values::unsigned(0xffff_ffff),
            Kind::UInt64 => Values::unsigned(0xffff_ffff_ffff_ffff),
            Kind::Float32 => Values::Floats(Format::Binary32),
            Kind::Float64 => Values::Floats(Format::Binary64),
        }
    }
}

// The bits of a value, in decimal or in hexadecimal.
#[tactic(auto, unfolding(crate::specs::Values::bits_of))]
pub fn bits_of(text: &[u8], kind: Kind) -> Option<u64>
    ensures { result ≡ bits_of kind text.now }
{
    if hex::is_hex(text) {
        return hex::read_hex(text, kind.width() / 4);
    }
    Values::from(kind).read(text)
}

// Puts a value's text at the start of `out`; answers its length.
pub fn value_text(bits: u64, kind: Kind, out: &mut [u8]) -> usize
    requires { 40 ≤ length out.old }
    ensures { Told (values_of kind) (low_bits (width_of kind) bits) out.old out.new result }
{
    let low = kind.low_bits(bits);
    match Values::from(kind) {
        Values::Integers { lowest: _, highest } => write::write_integer(low, highest, out),
        Values::Floats(f) => write_float::write_float(low, f, out),
    }
}
