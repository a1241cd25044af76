// What the programs share: lists and numbers on standard output, parts of lists, and calls of a builder and an array.
#![tactic(auto)]

pub mod builders;
pub mod output;
pub mod parts;
pub mod view;
