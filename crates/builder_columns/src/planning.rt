// Questions 18 to 20 of an append, once its name was looked for.
ghost use Rattle.std.specs.Prelude.{◌≡◌, ◌≤◌, length};
ghost use Rattle.builder_columns.specs.Finding.{found_told};
ghost use Rattle.builder_columns.specs.Planning.{plan_told, found_plan};

use crate::{BuilderColumn, BuilderHead, Found, Plan};
use array_columns::{Kind, Layout, Refusal};

// Questions 18 to 20, once the name was looked for, and where the append goes. The name has at most 32 bytes, as in `opened`.
#[tactic(auto, unfolding(crate::specs::Planning::found_plan))]
pub fn settle(
    h: BuilderHead,
    found: Option<Found>,
    name: &[u8],
    kind: Kind,
) -> Result<Plan, Refusal>
    requires { (h.len ≤ 65536) × (length name.now ≤ 32) }
    ensures { plan_told result ≡ found_plan h (found_told found) name.now kind }
{
    let full = h.capacity <= h.len;
    match found {
        Some(f) if f.column.kind != kind => Err(Refusal::KindMismatch),
        _ if full => Err(Refusal::CapacityReached),
        Some(f) => Ok(Plan {
            column: f.column,
            id: f.id,
            count: h.count,
            fresh: false,
        }),
        None if h.limit <= h.count => Err(Refusal::ColumnsReached),
        None => {
            let filled = match h.layout {
                Layout::Sparse => h.len,
                Layout::Dense => 0,
            };
            Ok(Plan {
                column: BuilderColumn::opened(name, kind, filled),
                id: h.count,
                count: h.count + 1,
                fresh: true,
            })
        }
    }
}
