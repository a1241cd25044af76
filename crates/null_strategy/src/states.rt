// The states of an array's fields.
ghost use Rattle.std.specs.Prelude.{◌≡◌, true, ◌≤◌};
ghost use Rattle.union_array.specs.Slots.{in_use, all};
ghost use Rattle.union_array.specs.Questions.{presence_in};
ghost use Rattle.null_strategy.specs.Fields.{has_nulls, only_nulls, state_of, fields_of};

use crate::{Fields, State};
use array_columns::{Buffers, Column};
use union_array::UnionArray;

impl State {
    // Whether a child of this state has a null.
    pub fn has_null(self) -> bool
        ensures { result ≡ has_nulls self }
    {
        self != State::NoNull
    }

    // Whether a child of this state is fully null.
    pub fn is_full(self) -> bool
        ensures { result ≡ only_nulls self }
    {
        self == State::FullyNull
    }

    // The state of a child.
    #[tactic(auto, unfolding(crate::specs::Fields::state_of))]
    fn of(c: &Column, lent: &Buffers) -> State
        requires { presence_in lent.now c.now ≡ true }
        ensures { result ≡ state_of lent.now c.now }
    {
        let nulls = c.null_count(lent);
        if nulls == 0 {
            State::NoNull
        } else if bitmap::is_fully_null(nulls, c.slots as usize) {
            State::FullyNull
        } else {
            State::SomeNull
        }
    }
}

impl Fields {
    // The state of each field in use, and how many have a null and how many are fully null.
    pub fn of(array: &UnionArray, lent: &Buffers) -> Fields
        requires { (array.now.fields ≤ 128) × (all (presence_in lent.now) (in_use array.now) ≡ true) }
        ensures { result ≡ fields_of array.now lent.now }
    {
        let mut fs = Fields {
            states: [State::NoNull; 128],
            count: array.fields,
            some: 0,
            full: 0,
        };
        // By place: zipped with the states that it writes, the loop did not prove.
        for (q, c) in array.columns[..array.fields].iter().enumerate() {
            let state = State::of(c, lent);
            fs.states[q] = state;
            fs.some += state.has_null() as usize;
            fs.full += state.is_full() as usize;
        }
        fs
    }
}
