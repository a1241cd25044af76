// The calls of a case, from their numbers.
use crate::memory::part_of;
use crate::narrow;
use array_columns::Layout;
use logical_nulls::SparseStrategy;
use program_kit::parts::Buffer;
use std::fmt;

// A call on an array, or what is told of it and of lent memory with no call.
#[derive(Clone, Copy)]
pub enum Ask {
    TryNew,
    Value(usize),
    TypeId(usize),
    ValueOffset(usize),
    Child(i8),
    TypeNames,
    IsDense,
    IsNullable,
    NullsAt(usize, usize),
    NullsBy(SparseStrategy, usize),
    TypeIds,
    Fields,
    Words(i8),
    Lent,
}

// A call that what comes after it is made on: a slice, or one on the builder.
#[derive(Clone, Copy)]
pub enum Op {
    Ask(Ask),
    Slice(usize, usize),
    Make(Layout, usize, usize),
    Append(usize, Option<u64>),
    Len,
    FinishCloned,
    Finish,
}

// A number that names no call. It is printed as refused by 255.
#[derive(Clone, Copy)]
pub struct UnknownCall;

impl fmt::Display for UnknownCall {
    fn fmt<W: fmt::Write>(&self, f: &mut fmt::Formatter<W>) -> fmt::Result {
        write!(f, "255")
    }
}

// The strategy of a route. The numbers of this input are its own, of 64 bits, and one that names no case is read as the first.
fn strategy_of(route: u64) -> SparseStrategy {
    match route {
        4 => SparseStrategy::SkipOne,
        5 => SparseStrategy::SkipWithoutNulls,
        6 => SparseStrategy::SkipFullyNull,
        _ => SparseStrategy::Gather,
    }
}

// From a call's number and its two arguments, which are taken apart at once.
impl TryFrom<[u64; 3]> for Ask {
    type Error = UnknownCall;

    fn try_from(numbers: [u64; 3]) -> Result<Ask, UnknownCall> {
        let [call, a, b] = numbers;
        let i = a as usize;
        let id = narrow::id(a);
        let words = b as usize;
        match call {
            1 => Ok(Ask::TryNew),
            2 => Ok(Ask::Value(i)),
            3 => Ok(Ask::TypeId(i)),
            4 => Ok(Ask::ValueOffset(i)),
            5 => Ok(Ask::Child(id)),
            6 => Ok(Ask::TypeNames),
            7 => Ok(Ask::IsDense),
            8 => Ok(Ask::IsNullable),
            10 => Ok(Ask::NullsAt(i, words)),
            11 => Ok(Ask::NullsBy(strategy_of(a), words)),
            12 => Ok(Ask::TypeIds),
            13 => Ok(Ask::Fields),
            14 => Ok(Ask::Words(id)),
            15 => Ok(Ask::Lent),
            _ => Err(UnknownCall),
        }
    }
}

// From a call's number and its two arguments, which are taken apart at once.
impl TryFrom<[u64; 3]> for Op {
    type Error = UnknownCall;

    fn try_from(numbers: [u64; 3]) -> Result<Op, UnknownCall> {
        let [call, a, b] = numbers;
        let m = a as usize;
        let n = b as usize;
        match call {
            9 => Ok(Op::Slice(m, n)),
            20 => Ok(Op::Make(Layout::Dense, m, n)),
            21 => Ok(Op::Make(Layout::Sparse, m, n)),
            22 => Ok(Op::Append(m, Some(b))),
            23 => Ok(Op::Append(m, None)),
            24 => Ok(Op::Len),
            25 => Ok(Op::FinishCloned),
            26 => Ok(Op::Finish),
            _ => Ok(Op::Ask(Ask::try_from(numbers)?)),
        }
    }
}

// A call: its number, what it asks, whose word its answer is, and the part of memory that it is short of.
#[derive(Clone, Copy)]
pub struct Call {
    pub number: u64,
    pub op: Result<Op, UnknownCall>,
    pub by: u64,
    pub short: Option<Buffer>,
}

// From a row of the input, which is taken apart at once.
impl From<[u64; 5]> for Call {
    fn from(numbers: [u64; 5]) -> Call {
        let [number, a, b, by, short] = numbers;
        Call {
            number,
            op: Op::try_from([number, a, b]),
            by,
            short: part_of(short),
        }
    }
}
