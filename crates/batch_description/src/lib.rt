// What a batch is described as, from a builder's columns: the array so far, its columns in order by name.
#![tactic(auto)]

pub mod describe;
