// Gather: a table with one entry to each type id, and the words of a null mask that are looked up in it.
#![tactic(auto)]

pub mod table;
