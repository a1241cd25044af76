// Runs of appends: what `check_open` asks is asked once for all readings of a run, since an accepted append keeps it.
ghost use Rattle.std.specs.Prelude.{◌≡◌, ℕ, true, ◌<◌, length, IfOk};
ghost use Rattle.array_columns.specs.Buffers.{held, Same};
ghost use Rattle.bitmap.specs.Lists.{times};
ghost use Rattle.array_columns.specs.Refusal.{number_of};
ghost use Rattle.builder_columns.specs.Columns.{nth_column};
ghost use Rattle.builder_appends.specs.Steps.{Steppable};
ghost use Rattle.union_builder.specs.Append.{appended_told};
ghost use Rattle.union_builder.specs.Growing.{row_after, grown_by_step, after_step};
ghost use Rattle.union_builder.specs.Appends.{run_outcome, appends_step, lengths_match, appends_of};

use crate::{Appended, UnionBuilder};
use array_columns::refusals::number_of;
use array_columns::{BuffersMut, Refusal};
use builder_appends::runs::append_reading;
use builder_appends::{Readings, Step};
use builder_columns::BuilderColumn;

// Gives each column its slot of an append's row.
fn grow_row(columns: &mut [BuilderColumn], s: &Step)
    requires { (k : ℕ) → k < length columns.old → (nth_column columns.old k).slots < 65536 }
    ensures { columns.new ≡ row_after columns.old s.now (length columns.old) }
{
    for (k, c) in columns.iter_mut().enumerate() {
        *c = s.row_column(*c, k);
    }
}

impl UnionBuilder {
    // The one place where a builder grows: the column of an append gets its slot, in sparse every column does.
    fn grow(&mut self, s: &Step)
        requires { Steppable self.old.columns s.now }
        ensures { self.new ≡ grown_by_step self.old s.now }
    {
        self.len = s.len;
        self.count = s.count;
        self.columns[s.id] = s.column;
        grow_row(&mut self.columns[..s.rows], s);
    }

    // Grows by what an append answered; a refused one leaves the builder as it is.
    pub(crate) fn take(&mut self, step: Result<Step, Refusal>) -> Result<(), Refusal>
        requires { IfOk step (Steppable self.old.columns) }
        ensures builder { self.new ≡ after_step self.old step }
        ensures number { number_of result ≡ number_of step }
    {
        self.grow(&step?);
        Ok(())
    }

    // Appends the readings in order, each number stored at its place in `refusals`. The builder grows where it lies, since a
    // function that is handed a builder copies it.
    fn append_each(&mut self, readings: &Readings, lent: &mut BuffersMut, refusals: &mut [u8])
        requires { lengths_match readings.now (length refusals.old) ≡ true }
        ensures same { Same lent.new lent.old }
        ensures after { run_outcome (record { builder = self.new; refusal = 0 }) (held lent.new) refusals.new
            ≡ times (length readings.now.starts) (appends_step readings.now) (run_outcome (record { builder = self.old; refusal = 0 }) (held lent.old) refusals.old) }
    {
        let checked = self.check_open(&lent.amounts());
        let text = readings.text;
        // By number, since C hands in a reading in five slices and gets its number back in a sixth.
        for k in 0..readings.starts.len() {
            let r = readings.get(k);
            let step = append_reading(self.head(), &self.columns, checked, text, r, lent);
            refusals[k] = number_of(self.take(step));
        }
    }

    // Appends the readings in order: names in the text, kinds and presence by their numbers, and the values' bits. A reading's
    // number is stored at its place in `refusals`. The arguments are C's.
    #[tactic(auto, using(crate::proofs::Readings::appends_no, crate::proofs::Readings::appends_yes))]
    pub fn appends(
        self,
        readings: &Readings,
        lent: &mut BuffersMut,
        refusals: &mut [u8],
    ) -> Appended
        ensures same { Same lent.new lent.old }
        ensures after { run_outcome (appended_told result) (held lent.new) refusals.new ≡ appends_of self (held lent.old) readings.now refusals.old }
    {
        let mut builder = self;
        let answer = if readings.matches(refusals.len()) {
            builder.append_each(readings, lent, refusals);
            Ok(())
        } else {
            Err(Refusal::LengthMismatch)
        };
        Appended { builder, answer }
    }
}
