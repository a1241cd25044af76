// The readings of a run, one by one.
ghost use Rattle.std.specs.Prelude.{◌≡◌, IfOk};
ghost use Rattle.array_columns.specs.Buffers.{amounts_of, held, Same};
ghost use Rattle.array_columns.specs.Refusal.{number_of};
ghost use Rattle.builder_appends.specs.Questions.{Open};
ghost use Rattle.builder_appends.specs.Readings.{Within, is_reading, lengths_match};
ghost use Rattle.builder_appends.specs.Steps.{Steppable, stepped, reading_at, reading_by};

use crate::steps::append_step;
use crate::{Reading, Readings, Step};
use array_columns::{BuffersMut, Kind, Refusal};
use builder_columns::{BuilderColumn, BuilderHead};

impl<'a> Readings<'a> {
    // Whether there are as many of everything as there are names, and room for `lent` numbers.
    #[tactic(auto, unfolding(crate::specs::Readings::lengths_match))]
    pub fn matches(&self, lent: usize) -> bool
        ensures { result ≡ lengths_match self.now lent }
    {
        let n = self.starts.len();
        self.sizes.len() == n
            && self.kinds.len() == n
            && self.present.len() == n
            && self.bits.len() == n
            && n <= lent
    }

    // Reading k.
    pub fn get(&self, k: usize) -> Reading
        requires { Within self.now k }
        ensures { result ≡ reading_at self.now k }
    {
        // Taken out first: of a field behind the reference it does not prove that k elements fit the address space.
        let (bits, starts) = (self.bits, self.starts);
        Reading {
            bits: bits[k],
            start: starts[k],
            size: self.sizes[k],
            kind: self.kinds[k],
            present: self.present[k],
        }
    }
}

impl Reading {
    // Whether its name lies in the text of `lent` bytes, and its numbers name cases.
    #[tactic(auto, unfolding(crate::specs::Readings::is_reading))]
    fn is_in(&self, lent: usize) -> bool
        ensures { result ≡ is_reading lent self.now.start self.now.size self.now.kind self.now.present }
    {
        self.start as usize + self.size as usize <= lent && self.kind < 10 && self.present < 2
    }
}

// Plans the append of one reading and writes what it adds, or refuses what is no reading. `checked` is the answer to 15 and 16.
// A builder's parts lie apart, as in `append_step`.
pub fn append_reading(
    h: BuilderHead,
    columns: &[BuilderColumn; 128],
    checked: Result<(), Refusal>,
    text: &[u8],
    r: Reading,
    lent: &mut BuffersMut,
) -> Result<Step, Refusal>
    requires { number_of checked ≡ 0 → Open h columns.now (amounts_of (held lent.old)) }
    ensures steppable { IfOk result (Steppable columns.now) }
    ensures same { Same lent.new lent.old }
    ensures kept { amounts_of (held lent.new) ≡ amounts_of (held lent.old) }
    ensures after { stepped result (held lent.new) ≡ reading_by (number_of checked) h columns.now text.now r (held lent.old) }
{
    if !r.is_in(text.len()) {
        return Err(Refusal::UnknownNumber);
    }
    let kind = Kind::from_number(r.kind);
    let start = r.start as usize;
    let name = &text[start..start + r.size as usize];
    let value = (r.present == 1).then_some(kind.low_bits(r.bits));
    append_step(h, columns, checked, name, kind, value, lent)
}
