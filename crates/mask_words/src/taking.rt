// The fields that a strategy takes up.
ghost use Rattle.std.specs.Prelude.{◌≡◌, ◌∷◌, [], ◌++◌, ◌<◌, ◌≤◌, length};
ghost use Rattle.null_strategy.specs.Fields.{in_list};
ghost use Rattle.mask_words.specs.Steps.{over_of, takes, taken_places, taken_ids, TakenNamed};

use crate::{Taken, TakenFields};
use array_columns::Column;
use null_strategy::{Fields, Route, State};

// What the step of a route takes up.
impl From<Route> for Taken {
    ghost from_gives = { λ route over. over ≡ over_of route };

    fn from(route: Route) -> Taken {
        match route {
            Route::SkipWithoutNulls => Taken::WithNulls,
            Route::SkipFullyNull => Taken::NotFull,
            _ => Taken::All,
        }
    }
}

impl Taken {
    // Whether a field of this state is taken up.
    fn takes(self, state: State) -> bool
        ensures { result ≡ takes self state }
    {
        match self {
            Taken::All => true,
            Taken::WithNulls => state.has_null(),
            Taken::NotFull => !state.is_full(),
        }
    }
}

impl TakenFields {
    // The fields that are taken up.
    pub fn of(fs: &Fields, over: Taken) -> TakenFields
        requires { fs.now.count ≤ 128 }
        ensures { result ≡ taken_places over 0 (in_list fs.now) }
    {
        let mut taken = TakenFields {
            places: [0u8; 128],
            count: 0,
        };
        for (place, state) in fs.states[..fs.count].iter().enumerate() {
            if over.takes(*state) {
                taken.push(place as u8);
            }
        }
        taken
    }

    // One more place.
    fn push(&mut self, place: u8)
        requires { length self.old < 128 }
        ensures { self.new ≡ self.old ++ place ∷ [] }
    {
        self.places[self.count] = place;
        self.count += 1;
    }

    // Their places in the column list.
    pub fn places(&self) -> &[u8]
        ensures { result.now ≡ self.now }
    {
        &self.places[..self.count]
    }

    // The ids of the columns there, and zeros after them.
    pub fn ids(&self, columns: &[Column]) -> [u8; 128]
        requires { TakenNamed columns.now self.now }
        ensures { result ≡ taken_ids columns.now self.now }
    {
        let mut ids = [0u8; 128];
        for (q, place) in self.places[..self.count].iter().enumerate() {
            ids[q] = columns[*place as usize].id as u8;
        }
        ids
    }
}
