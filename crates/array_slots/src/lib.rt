// What is asked and read of many slots, over an array's head and its column list.
#![tactic(auto)]

pub mod check;
pub mod lookup;
pub mod run;

use array_columns::Column;

// A slot's child, its slot in it and its type id.
#[derive(Clone, Copy)]
pub struct ChildSlot {
    pub column: Column,
    pub slot: usize,
    pub id: i8,
}
