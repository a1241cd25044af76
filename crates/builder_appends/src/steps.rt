// One append: planned, what it adds written, and what it leaves of the builder.
ghost use Rattle.std.specs.Prelude.{◌≡◌, cond, ◌<◌, eqb, length, IfOk};
ghost use Rattle.std.proofs.Math.Option.{none};
ghost use Rattle.array_columns.specs.Buffers.{amounts_of, held, Same};
ghost use Rattle.array_columns.specs.Refusal.{number_of};
ghost use Rattle.builder_columns.specs.Columns.{some_if, given, grown};
ghost use Rattle.builder_columns.specs.Planning.{plan_told};
ghost use Rattle.builder_columns.specs.Writing.{Writable};
ghost use Rattle.builder_appends.specs.Questions.{Open};
ghost use Rattle.builder_appends.specs.Steps.{accepted_step, Steppable, stepped, planned, append_by};

use crate::Step;
use crate::planning::plan;
use array_columns::{BuffersMut, Kind, Layout, Refusal};
use builder_columns::store::store;
use builder_columns::{BuilderColumn, BuilderHead, Plan};

impl Step {
    // What an accepted append leaves: in dense its column has its slot, in sparse every column gets one of the row.
    fn accepted(h: BuilderHead, p: Plan, present: bool) -> Step
        requires { (h.len < 65536) × (p.column.slots < 65536) }
        ensures { result ≡ accepted_step h p present }
    {
        let (column, rows) = match h.layout {
            Layout::Sparse => (p.column, p.count),
            Layout::Dense => (p.column.grown(!present), 0),
        };
        Step {
            column,
            id: p.id,
            len: h.len + 1,
            count: p.count,
            rows,
            present,
        }
    }

    // Column k with its slot of the row: the value is in the append's own column.
    pub fn row_column(&self, c: BuilderColumn, k: usize) -> BuilderColumn
        requires { c.slots < 65536 }
        ensures { result ≡ grown c (cond (eqb self.now.id k) (some_if self.now.present 0) none) }
    {
        c.grown(self.id != k || !self.present)
    }
}

// Writes what a planned append adds; a refused one writes nothing.
#[tactic(auto, using(crate::proofs::Stepping::is_some_given, array_columns::proofs::Numbered::if_refused, builder_columns::proofs::Putting::written_kept), unfolding(crate::specs::Steps::planned))]
fn carry_out(
    h: BuilderHead,
    plan: Result<Plan, Refusal>,
    name: &[u8],
    value: Option<u64>,
    lent: &mut BuffersMut,
) -> Result<Step, Refusal>
    requires { IfOk plan (λ p. Writable h p (length name.now) (amounts_of (held lent.old)) × (h.len < 65536) × (p.column.slots < 65536)) }
    ensures same { Same lent.new lent.old }
    ensures amounts { amounts_of (held lent.new) ≡ amounts_of (held lent.old) }
    ensures after { stepped result (held lent.new) ≡ planned h (plan_told plan) name.now (given value) (held lent.old) }
{
    let p = plan?;
    store(h, p, name, value, lent);
    Ok(Step::accepted(h, p, value.is_some()))
}

// Plans an append, and writes what it adds. `checked` is the answer to 15 and 16. The arguments are an append's own and its
// builder's parts, which lie apart in a builder: a struct of them would copy its columns.
pub fn append_step(
    h: BuilderHead,
    columns: &[BuilderColumn; 128],
    checked: Result<(), Refusal>,
    name: &[u8],
    kind: Kind,
    value: Option<u64>,
    lent: &mut BuffersMut,
) -> Result<Step, Refusal>
    requires { number_of checked ≡ 0 → Open h columns.now (amounts_of (held lent.old)) }
    ensures steppable { IfOk result (Steppable columns.now) }
    ensures same { Same lent.new lent.old }
    ensures kept { amounts_of (held lent.new) ≡ amounts_of (held lent.old) }
    ensures after { stepped result (held lent.new) ≡ append_by (number_of checked) h columns.now name.now kind (given value) (held lent.old) }
{
    let shared = lent.shared();
    let planned = plan(h, columns, checked, shared.names, name, kind);
    carry_out(h, planned, name, value, lent)
}
