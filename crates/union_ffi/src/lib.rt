// The calls for C and Rust, over C structs and borrowed memory. union_ffi_c exports each to C under its name: a crate is a library, or
// the static library with C's parameters.
#![tactic(auto)]

pub mod appends;
pub mod array;
pub mod builder;
pub mod nulls;
pub mod values;
