// Question 15 of a builder's columns.
ghost use Rattle.std.specs.Prelude.{◌≡◌};
ghost use Rattle.std.specs.List.{list_all};
ghost use Rattle.builder_columns.specs.Columns.{fits};

use crate::BuilderColumn;
use array_columns::Layout;

// Whether the columns fit a builder of `len` slots.
pub fn columns_fit(columns: &[BuilderColumn], layout: Layout, len: usize) -> bool
    ensures { result ≡ list_all (fits layout len) columns.now }
{
    columns.iter().all(|c| c.fits(layout, len))
}
