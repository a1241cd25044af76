// Kinds, names and values as text for people.
#![tactic(auto)]

pub mod kind_names;
pub mod printable;
pub mod value_text;

use decimal_float::Format;

// What the values of a kind are: integers from -`lowest` to `highest`, or floats.
#[derive(Clone, Copy, Debug, PartialEq, Eq)]
pub enum Values {
    Integers { lowest: u64, highest: u64 },
    Floats(Format),
}
