// Names: at most 32 bytes of UTF-8, compared and put in order by bytes.
#![tactic(auto)]

pub mod names;
pub mod order;
pub mod utf8;
