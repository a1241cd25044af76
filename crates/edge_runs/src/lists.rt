// The lists of appends.
use crate::names::NAMES;
use array_columns::Kind;
use program_kit::builders::Reading;
use std::alloc::{AllocError, Global};
use std::fmt;

// What an append of a list is given.
pub type Entry = Reading<'static>;

// Shorter where a list is written out than the struct.
fn given(name: &'static [u8], kind: Kind, value: Option<u64>) -> Entry {
    Entry { name, kind, value }
}

#[derive(Clone, Copy, PartialEq, Eq)]
pub enum List {
    // In columns a and b in turn, one more than the builder has slots; every third is missing.
    Round(u8),
    OneColumn,
    BThenA,
    OtherKind,
    TwoColumns,
    TenKinds,
    Names,
    SlotNotLent,
    NoColumn,
}

// Every list, in the order in which they are played.
pub const LISTS: [List; 11] = [
    List::Round(63),
    List::Round(64),
    List::Round(65),
    List::OneColumn,
    List::BThenA,
    List::OtherKind,
    List::TwoColumns,
    List::TenKinds,
    List::Names,
    List::SlotNotLent,
    List::NoColumn,
];

// The ten kinds: a name, the kind, and a value's bits, as wide as the kind with its highest bit set; of a float, a NaN that signals.
const TEN_KINDS: [(&[u8], Kind, u64); 10] = [
    (b"0", Kind::Int8, 0xa5),
    (b"1", Kind::Int16, 0xa5c3),
    (b"2", Kind::Int32, 0xa5c3_9617),
    (b"3", Kind::Int64, 0xa5c3_9617_7e81_4b2d),
    (b"4", Kind::UInt8, 0xb6),
    (b"5", Kind::UInt16, 0xb6d4),
    (b"6", Kind::UInt32, 0xb6d4_9728),
    (b"7", Kind::UInt64, 0xb6d4_9728_6f81_5c3e),
    (b"8", Kind::Float32, 0xffa5_c396),
    (b"9", Kind::Float64, 0xfff5_c396_177e_814b),
];

impl fmt::Display for List {
    fn fmt<W: fmt::Write>(&self, f: &mut fmt::Formatter<W>) -> fmt::Result {
        match self {
            List::Round(n) => write!(f, "{n} slots"),
            List::OneColumn => f.write_str("one column"),
            List::BThenA => f.write_str("b then a"),
            List::OtherKind => f.write_str("A, B, A of another kind, C, A"),
            List::TwoColumns => f.write_str("3 slots and 2 columns"),
            List::TenKinds => f.write_str("the ten kinds"),
            List::Names => f.write_str("names"),
            List::SlotNotLent => f.write_str("one slot more than is lent"),
            List::NoColumn => f.write_str("no column"),
        }
    }
}

// Entry i of a round.
fn turn(i: u8) -> Entry {
    let value = (i % 3 != 2).then_some(1000 * u64::from(i) + 7);
    match i % 2 {
        0 => given(b"a", Kind::Int32, value),
        _ => given(b"b", Kind::UInt16, value),
    }
}

// Pairs, each of a name of one byte and its kind's number, or - for a null of kind Int8. The values are 1, 2, ..
fn pairs(alloc: Global, text: &'static [u8]) -> Result<Vec<Entry>, AllocError> {
    let (pairs, _) = text.as_chunks::<2>();
    let mut entries = Vec::new(alloc);
    for (pair, bits) in pairs.iter().zip(1..) {
        let name = &pair[..1];
        let mark = pair[1];
        entries.push(match Kind::try_from(mark.wrapping_sub(b'0')) {
            Ok(kind) => given(name, kind, Some(bits)),
            Err(_) => given(name, Kind::Int8, None),
        })?;
    }
    Ok(entries)
}

// Of each kind, a value with all bits set, and the one of the table.
fn ten_kinds(alloc: Global) -> Result<Vec<Entry>, AllocError> {
    let mut entries = Vec::new(alloc);
    for (name, kind, bits) in TEN_KINDS {
        entries.push(given(name, kind, Some(u64::MAX)))?;
        entries.push(given(name, kind, Some(bits)))?;
    }
    Ok(entries)
}

// A value of each name: 1, 2, ..
fn named(alloc: Global) -> Result<Vec<Entry>, AllocError> {
    NAMES
        .iter()
        .zip(1..)
        .map(|(name, bits)| given(*name, Kind::UInt8, Some(bits)))
        .collect(alloc)
}

impl List {
    pub fn is_round(self) -> bool {
        matches!(self, List::Round(_))
    }

    // The slots and the columns of its builder.
    pub fn sizes(self) -> (usize, usize) {
        match self {
            List::Round(n) => (n as usize, 3),
            List::OneColumn | List::SlotNotLent | List::NoColumn => (2, 1),
            List::BThenA => (3, 3),
            List::OtherKind => (5, 3),
            List::TwoColumns => (3, 2),
            List::TenKinds => (20, 10),
            List::Names => (16, 12),
        }
    }

    pub fn entries(self, alloc: Global) -> Result<Vec<Entry>, AllocError> {
        match self {
            List::Round(n) => (0..=n).map(turn).collect(alloc),
            List::OneColumn | List::SlotNotLent | List::NoColumn => pairs(alloc, b"A0A-"),
            List::BThenA => pairs(alloc, b"b0a0"),
            List::OtherKind => pairs(alloc, b"A0B0A1C0A0"),
            List::TwoColumns => pairs(alloc, b"a0b0c0a1a-a0c0a1\xff0"),
            List::TenKinds => ten_kinds(alloc),
            List::Names => named(alloc),
        }
    }
}
