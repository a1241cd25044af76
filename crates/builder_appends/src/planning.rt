// Questions 17 to 20 of an append, and where it goes.
ghost use Rattle.std.specs.Prelude.{◌≡◌, ◌≤◌, length};
ghost use Rattle.array_columns.specs.Refusal.{number_of};
ghost use Rattle.builder_columns.specs.Finding.{Searchable};
ghost use Rattle.builder_columns.specs.Planning.{plan_told};
ghost use Rattle.builder_appends.specs.Steps.{plan_for};

use array_columns::{Kind, Refusal};
use builder_columns::find::look;
use builder_columns::planning::settle;
use builder_columns::{BuilderColumn, BuilderHead, Plan};
use union_names::utf8::name_fits;

// Where an append goes. `checked` is the answer to 15 and 16; 17 to 20 are asked here. A builder's numbers and columns lie apart, as in
// `append_step`.
pub(crate) fn plan(
    h: BuilderHead,
    columns: &[BuilderColumn; 128],
    checked: Result<(), Refusal>,
    names: &[u8],
    name: &[u8],
    kind: Kind,
) -> Result<Plan, Refusal>
    requires { number_of checked ≡ 0 → Searchable columns.now h.count (length names.now) × (h.len ≤ 65536) }
    ensures { plan_told result ≡ plan_for (number_of checked) h columns.now names.now name.now kind }
{
    checked?;
    if !name_fits(name) {
        return Err(Refusal::NameNotFit);
    }
    let found = look(&columns[..h.count], names, name);
    settle(h, found, name, kind)
}
