// The route of the null mask: the processor setting, the fields' states, the strategy of least cost.
#![tactic(auto)]

mod cost;
pub mod routes;
pub mod states;

// The processor setting: what gathering costs, against one selection mask a chunk.
#[derive(Clone, Copy, Debug, PartialEq, Eq)]
pub struct Processor {
    cost: usize,
}

// The routes of the null mask; the last four are strategies.
#[derive(Clone, Copy, Debug, PartialEq, Eq)]
pub enum Route {
    Absent,
    OneField,
    AllNull,
    Gather,
    SkipOne,
    SkipWithoutNulls,
    SkipFullyNull,
}

// A route and its cost.
#[derive(Clone, Copy)]
pub struct Choice {
    pub cost: usize,
    pub route: Route,
}

// The nulls of a child: none, some, or all of its slots.
#[derive(Clone, Copy, Debug, PartialEq, Eq)]
pub enum State {
    NoNull,
    SomeNull,
    FullyNull,
}

// The states of an array's fields, in list order: the first `count` entries. `some` fields have a null, `full` are fully null.
// An array of the most fields that a union has, since there is no heap.
#[derive(Clone, Copy)]
pub struct Fields {
    pub states: [State; 128],
    pub count: usize,
    pub some: usize,
    pub full: usize,
}
