// Question 15 but for the columns, and question 16.
ghost use Rattle.std.specs.Prelude.{◌≡◌, ◌≤◌};
ghost use Rattle.builder_appends.specs.Questions.{numbers_fit, question16};

use array_columns::Amounts;

// Question 15 but for the columns.
#[tactic(auto, unfolding(crate::specs::Questions::numbers_fit))]
pub fn numbers_fit(capacity: usize, limit: usize, len: usize, count: usize) -> bool
    ensures { result ≡ numbers_fit capacity limit len count }
{
    1 <= capacity
        && capacity <= 65536
        && 1 <= limit
        && limit <= 128
        && len <= capacity
        && count <= limit
}

// Question 16, of a builder that passed 15: its two numbers and what is lent, which is all that it asks of.
#[tactic(auto, unfolding(crate::specs::Questions::question16))]
pub fn lent_fits(capacity: usize, limit: usize, lent: &Amounts) -> bool
    requires { (capacity ≤ 65536) × (limit ≤ 128) }
    ensures { result ≡ question16 capacity limit lent.now }
{
    capacity <= lent.ids
        && capacity <= lent.offsets
        && limit * capacity <= lent.values
        && limit * bitmap::words_for(capacity) <= lent.masks
        && 32 * limit <= lent.names
}
