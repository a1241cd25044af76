// The columns of a union array, below its calls: kinds, presence, values, refusals, lent memory, and what the questions ask of the columns.
#![tactic(auto)]

ghost use Rattle.array_columns.specs.Buffers.{Buffers};

pub mod child_value;
pub mod kinds;
pub mod lent;
pub mod presence;
pub mod questions;
pub mod refusals;
pub mod slots;

use std::marker::Model;

// The kind of a column's values. One word holds one value, in its low bits.
#[derive(Clone, Copy, Debug, PartialEq, Eq)]
pub enum Kind {
    Int8,
    Int16,
    Int32,
    Int64,
    UInt8,
    UInt16,
    UInt32,
    UInt64,
    Float32,
    Float64,
}

#[derive(Clone, Copy, Debug, PartialEq, Eq)]
pub enum Layout {
    Sparse,
    Dense,
}

// Why a call was refused: the question of document 01 that was answered no, by its number; and two refusals beside them.
#[derive(Clone, Copy, Debug, PartialEq, Eq)]
pub enum Refusal {
    FieldIds = 1,
    ChildCount = 2,
    PartNotLent = 3,
    TooManySlots = 4,
    OffsetCount = 5,
    ChildSlots = 6,
    UnknownTypeId = 7,
    OffsetRange = 8,
    SliceRange = 9,
    IndexRange = 10,
    UnknownId = 11,
    UnknownSetting = 12,
    MaskRoom = 13,
    StrategyNotAllowed = 14,
    BuilderNumbers = 15,
    BuilderRoom = 16,
    NameNotFit = 17,
    KindMismatch = 18,
    CapacityReached = 19,
    ColumnsReached = 20,
    // A number that names no kind, layout, flag or strategy.
    UnknownNumber = 128,
    // A slice that does not have the length that a run wants.
    LengthMismatch = 129,
}

// Lent memory, to read: type ids, offsets, value words, mask words, name bytes. The type ids have a lifetime of their own, since a part
// of them is shown to the caller.
#[derive(Drop)]
pub struct Buffers<'i, 'a> {
    pub type_ids: &'i [i8],
    pub offsets: &'a [i32],
    pub values: &'a [u64],
    pub masks: &'a [u64],
    pub names: &'a [u8],
}

impl<'i, 'a> Model for Buffers<'i, 'a> {
    ghost Value = { Buffers };

    ghost view = { λ b. record { ids = b.type_ids.now; offsets = b.offsets.now; values = b.values.now; masks = b.masks.now; names = b.names.now } };
}

// Lent memory, to write. It has no model: a caller who makes one of slices of its own learns what they hold afterwards from the fields,
// and that each is the same slice (`Same`).
#[derive(Drop)]
pub struct BuffersMut<'a> {
    pub type_ids: &'a mut [i8],
    pub offsets: &'a mut [i32],
    pub values: &'a mut [u64],
    pub masks: &'a mut [u64],
    pub names: &'a mut [u8],
}

// One entry of the column list: a field and its child. C hands the entries in and gets them back as they are, those of an absent mask
// too, so the mask's place stands beside its flag.
#[derive(Clone, Copy, Debug, PartialEq, Eq)]
pub struct Column {
    // The first value word.
    pub values: usize,
    // The mask word that has the first mask bit, and its bit in that word.
    pub mask: usize,
    // The first name byte.
    pub name: usize,
    pub slots: u32,
    pub bit: u8,
    // The name's length in bytes.
    pub size: u8,
    pub id: i8,
    pub kind: Kind,
    pub masked: bool,
}

// How much is lent: type ids, offsets, value words, mask words, name bytes.
#[derive(Clone, Copy)]
pub struct Amounts {
    pub ids: usize,
    pub offsets: usize,
    pub values: usize,
    pub masks: usize,
    pub names: usize,
}

// What `value` answers: a slot's value, none when missing, with the name, id and kind of its column.
#[derive(Clone, Copy)]
pub struct Value {
    pub value: Option<u64>,
    // The name's bytes, zeros after them: a value needs no heap and no lent memory.
    pub name: [u8; 32],
    pub size: u8,
    pub id: i8,
    pub kind: Kind,
}

// An array but for its columns, for the crates below `union_array`: an `impl` stands where its type is declared.
#[derive(Clone, Copy)]
pub struct Head {
    pub fields: usize,
    pub children: usize,
    pub start: usize,
    pub count: usize,
    pub offsets_start: usize,
    pub offsets_count: usize,
    pub layout: Layout,
}

// What is told of the columns: whether all answer 1, 3, 4 and 6 yes, and the column with an id.
#[derive(Clone, Copy)]
pub struct Passed {
    pub ids: bool,
    pub parts: bool,
    pub counts: bool,
    pub slots: bool,
    pub column: Option<Column>,
}
