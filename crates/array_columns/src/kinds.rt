// Kinds and their numbers.
ghost use Rattle.std.specs.Prelude.{◌≡◌};
ghost use Rattle.array_columns.specs.Types.{kind_number, width_of, low_bits};
ghost use Rattle.array_columns.specs.Numbers.{kind_from, kind_named};

use crate::{Kind, Refusal};

impl Kind {
    // Document 01's number.
    pub fn number(self) -> u8
        ensures { result ≡ kind_number self }
    {
        self as u8
    }

    // The kind with a number; any other number is read as Int8's. It can't fail, since a caller may have asked before.
    pub fn from_number(n: u8) -> Kind
        ensures { result ≡ kind_from n }
    {
        match n {
            1 => Kind::Int16,
            2 => Kind::Int32,
            3 => Kind::Int64,
            4 => Kind::UInt8,
            5 => Kind::UInt16,
            6 => Kind::UInt32,
            7 => Kind::UInt64,
            8 => Kind::Float32,
            9 => Kind::Float64,
            _ => Kind::Int8,
        }
    }

    // The bits of a value of the kind.
    pub fn width(self) -> usize
        ensures { result ≡ width_of self }
    {
        match self {
            Kind::Int8 | Kind::UInt8 => 8,
            Kind::Int16 | Kind::UInt16 => 16,
            Kind::Int32 | Kind::UInt32 | Kind::Float32 => 32,
            Kind::Int64 | Kind::UInt64 | Kind::Float64 => 64,
        }
    }

    // A word's value of the kind: its low bits, zeros above them.
    #[tactic(auto, unfolding(crate::specs::Types::low_bits))]
    pub fn low_bits(self, x: u64) -> u64
        ensures { result ≡ low_bits (width_of self) x }
    {
        bitmap::low(x, self.width())
    }
}

impl TryFrom<u8> for Kind {
    type Error = Refusal;

    ghost try_from_gives = { λ n r. r ≡ kind_named n };

    fn try_from(n: u8) -> Result<Kind, Refusal> {
        if n < 10 {
            Ok(Kind::from_number(n))
        } else {
            Err(Refusal::UnknownNumber)
        }
    }
}
