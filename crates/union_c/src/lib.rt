// The C structs, and their conversion to and from the structs of the crates below. Kinds, layouts, flags, routes and refusals are
// numbers here, and lists arrays, since the fields are those of the C header.
#![tactic(auto)]

pub mod answers;
pub mod convert;

// A column list's entry. `kind` is 0 to 9 in the order of `array_columns::Kind`, `masked` 0 or 1.
#[repr(C)]
#[derive(Clone, Copy)]
pub struct CColumn {
    pub values: usize,
    pub mask: usize,
    pub name: usize,
    pub slots: u32,
    pub bit: u8,
    pub size: u8,
    pub id: i8,
    pub kind: u8,
    pub masked: u8,
}

// A union array. `layout` is 0 for sparse and 1 for dense.
#[repr(C)]
#[derive(Clone, Copy)]
pub struct CArray {
    pub columns: [CColumn; 128],
    pub fields: usize,
    pub children: usize,
    pub start: usize,
    pub count: usize,
    pub offsets_start: usize,
    pub offsets_count: usize,
    pub layout: u8,
}

#[repr(C)]
#[derive(Clone, Copy)]
pub struct CValue {
    pub bits: u64,
    pub name: [u8; 32],
    pub size: u8,
    pub refusal: u8,
    pub id: i8,
    pub kind: u8,
    pub missing: u8,
}

#[repr(C)]
#[derive(Clone, Copy)]
pub struct CTypeId {
    pub refusal: u8,
    pub id: i8,
}

#[repr(C)]
#[derive(Clone, Copy)]
pub struct CValueOffset {
    pub offset: usize,
    pub refusal: u8,
}

#[repr(C)]
#[derive(Clone, Copy)]
pub struct CChild {
    pub column: CColumn,
    pub refusal: u8,
}

#[repr(C)]
#[derive(Clone, Copy)]
pub struct CNamePlace {
    pub start: usize,
    pub size: u8,
}

#[repr(C)]
#[derive(Clone, Copy)]
pub struct CTypeNames {
    pub names: [CNamePlace; 128],
    pub count: usize,
    pub refusal: u8,
}

#[repr(C)]
#[derive(Clone, Copy)]
pub struct CFlag {
    pub refusal: u8,
    pub holds: u8,
}

#[repr(C)]
#[derive(Clone, Copy)]
pub struct CSlice {
    pub array: CArray,
    pub refusal: u8,
}

// The part of the lent type ids that is the array's own.
#[repr(C)]
#[derive(Clone, Copy)]
pub struct CPart {
    pub start: usize,
    pub count: usize,
    pub refusal: u8,
}

#[repr(C)]
#[derive(Clone, Copy)]
pub struct CNulls {
    pub nulls: usize,
    pub refusal: u8,
    pub route: u8,
    pub present: u8,
}

#[repr(C)]
#[derive(Clone, Copy)]
pub struct CBuilderColumn {
    pub slots: u32,
    pub size: u8,
    pub kind: u8,
    pub masked: u8,
}

#[repr(C)]
#[derive(Clone, Copy)]
pub struct CBuilder {
    pub columns: [CBuilderColumn; 128],
    pub capacity: usize,
    pub limit: usize,
    pub len: usize,
    pub count: usize,
    pub layout: u8,
}

// What a making, `append` and `append_null` answer.
#[repr(C)]
#[derive(Clone, Copy)]
pub struct CBuilt {
    pub builder: CBuilder,
    pub refusal: u8,
}

#[repr(C)]
#[derive(Clone, Copy)]
pub struct CLength {
    pub builder: CBuilder,
    pub len: usize,
}

#[repr(C)]
#[derive(Clone, Copy)]
pub struct CFinished {
    pub builder: CBuilder,
    pub array: CArray,
    pub refusal: u8,
}
