// The route of the null mask.
ghost use Rattle.std.specs.Prelude.{◌≡◌, ◌≤◌};
ghost use Rattle.array_columns.specs.Buffers.{Buffers};
ghost use Rattle.null_strategy.specs.Route.{route_number, is_absent, is_all_null, is_stepped, present_on, cheaper, sparse_route, route_of};
ghost use Rattle.null_strategy.specs.Fields.{fields_of, Described};

use crate::{Choice, Fields, Route};
use array_columns::Layout;
use union_array::UnionArray;

impl Route {
    // Document 01's number.
    pub fn number(self) -> u8
        ensures { result ≡ route_number self }
    {
        self as u8
    }

    // Whether nothing is written.
    pub fn is_absent(self) -> bool
        ensures { result ≡ is_absent self }
    {
        self == Route::Absent
    }

    // Whether every slot is null.
    pub fn is_all_null(self) -> bool
        ensures { result ≡ is_all_null self }
    {
        self == Route::AllNull
    }

    // Whether the words are made by a step in a sparse union.
    pub fn is_stepped(self) -> bool
        ensures { result ≡ is_stepped self }
    {
        matches!(
            self,
            Route::OneField | Route::SkipOne | Route::SkipWithoutNulls | Route::SkipFullyNull
        )
    }

    // Whether there is a mask, if it has so many nulls. Three answers, so two `matches!` would be needed.
    pub fn is_present(self, nulls: usize) -> bool
        ensures { result ≡ present_on self nulls }
    {
        match self {
            Route::Absent => false,
            Route::OneField | Route::AllNull => true,
            _ => nulls != 0,
        }
    }
}

impl Choice {
    // A later strategy is taken only if it applies and costs less.
    fn cheaper(self, applies: bool, cost: usize, route: Route) -> Choice
        ensures { result ≡ cheaper self applies cost route }
    {
        if applies && cost < self.cost {
            Choice { cost, route }
        } else {
            self
        }
    }
}

// The cheapest strategy for a sparse union of n fields, of which `some` have a null and `full` are fully null.
#[tactic(auto, unfolding(crate::specs::Route::sparse_route))]
fn sparse_route(gather: usize, n: usize, some: usize, full: usize) -> Route
    requires { (1 ≤ n) × (full ≤ n) }
    ensures { result ≡ sparse_route gather n some full }
{
    let first = Choice {
        cost: gather,
        route: Route::Gather,
    };
    let best = first
        .cheaper(some == n, n - 1, Route::SkipOne)
        .cheaper(true, some, Route::SkipWithoutNulls)
        .cheaper(true, n - full, Route::SkipFullyNull);
    best.route
}

// The route of an array, by its fields' states.
pub fn route_for(array: &UnionArray, fs: &Fields, gather: usize) -> Route
    requires { Described array.now fs.now }
    ensures { (m : Buffers) → fs.now ≡ fields_of array.now m → result ≡ route_of array.now m gather }
{
    match fs.count {
        0 => Route::Absent,
        1 if array.columns[0].masked => Route::OneField,
        1 => Route::Absent,
        _ if fs.some == 0 => Route::Absent,
        n if fs.full == n => Route::AllNull,
        n => match array.layout {
            Layout::Sparse => sparse_route(gather, n, fs.some, fs.full),
            Layout::Dense => Route::Gather,
        },
    }
}
