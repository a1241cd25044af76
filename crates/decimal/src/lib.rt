// Numbers as text and back: integers in decimal, bits in hexadecimal.
#![tactic(auto)]

pub mod digits;
pub mod hex;
pub mod integer;
pub mod write;
