// The static library for C and Rust: it exports each call of union_ffi under its name, with its clauses.
#![tactic(auto)]

mod appends;
mod array;
mod builder;
mod nulls;
mod values;
