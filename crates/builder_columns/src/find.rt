// Which column has a name.
ghost use Rattle.std.specs.Prelude.{◌≡◌, length};
ghost use Rattle.bitmap.specs.Lists.{first_of};
ghost use Rattle.builder_columns.specs.Columns.{has_name};
ghost use Rattle.builder_columns.specs.Finding.{found_told, found_in, Searchable};

use crate::{BuilderColumn, Found};
use union_names::names::same_name;

// The first of the columns that has the name.
#[tactic(auto, using(crate::proofs::Places::found_first))]
pub fn look(columns: &[BuilderColumn], names: &[u8], name: &[u8]) -> Option<Found>
    requires { Searchable columns.now (length columns.now) (length names.now) }
    ensures { found_told result ≡ found_in columns.now (first_of (length columns.now) (has_name columns.now names.now name.now)) }
{
    for (id, column) in columns.iter().enumerate() {
        let start = 32 * id;
        let end = start + column.size as usize;
        if same_name(name, &names[start..end]) {
            return Some(Found {
                column: *column,
                id,
            });
        }
    }
    None
}
