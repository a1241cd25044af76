// The words of a null mask, by the step of a strategy or all of nulls. `lent`, `ids` and `out` stand at each, with `room`: what is read
// and what is written are borrowed apart, and `ids` is a part of what is lent.
ghost use Rattle.std.specs.Prelude.{◌≡◌, List, true, false, ℕ, ℤ, ◌*◌, ◌^◌, ◌<◌, ◌≤◌, length};
ghost use Rattle.std.specs.Borrow.{Bor};
ghost use Rattle.bitmap.specs.Bits.{words_for};
ghost use Rattle.array_columns.specs.Questions.{valid_id};
ghost use Rattle.mask_words.specs.Steps.{FieldChunk, over_of, taken_of, field_chunk, columns_at, step_word, words_of, step_at, Held, StepReady, StepsReady, FieldsReady};

use crate::{FieldChunk, Taken, TakenFields, steps};
use array_columns::{Buffers, Column};
use null_strategy::{Fields, Route};

impl FieldChunk {
    // A column's id, and its presence chunk for word k of len slots.
    #[tactic(auto, using(crate::proofs::ValidIds::valid_cast))]
    fn of(c: &Column, lent: &Buffers, len: usize, k: usize) -> FieldChunk
        requires { (64 * k < len) × (Held lent.now len c.now) × (valid_id c.now.id ≡ true) }
        ensures { result ≡ field_chunk lent.now len k c.now }
    {
        FieldChunk {
            id: c.id,
            chunk: c.presence_chunk(lent, len, k),
        }
    }
}

// The mask by a step, over the columns at some places. Later words keep what they have.
#[tactic(auto, using(crate::proofs::Writing::word_starts))]
fn write_by<S: Fn(&[FieldChunk], &[i8]) -> u64>(
    step: S,
    columns: &[Column],
    places: &[u8],
    lent: &Buffers,
    ids: &[i8],
    out: &mut [u64],
)
    ghost over: { Taken }
    requires room { words_for (length ids.now) ≤ length out.old }
    requires ready { StepsReady over columns.now places.now lent.now ids.now }
    requires may_step { (f : Bor (List FieldChunk)) (r : Bor (List ℤ)) → StepReady over f.now r.now → S.pre step f r }
    requires makes { (f : Bor (List FieldChunk)) (r : Bor (List ℤ)) (w : ℕ) → StepReady over f.now r.now → S.post step f r w → w ≡ step_word over f.now r.now }
    ensures { out.new ≡ words_of (length ids.now) (step_at over (columns_at columns.now places.now) lent.now ids.now) out.old }
{
    let len = ids.len();
    let words = bitmap::words_for(len);
    let mut chunks = [FieldChunk { id: 0, chunk: 0 }; 128];
    for (k, word) in out[..words].iter_mut().enumerate() {
        // By place: zipped with the chunks that it writes, the loop did not prove.
        for (q, place) in places.iter().enumerate() {
            chunks[q] = FieldChunk::of(&columns[*place as usize], lent, len, k);
        }
        let rest = &ids[64 * k..];
        *word = step(&chunks[..places.len()], &rest[..bitmap::span(rest.len())]);
    }
}

// The mask by the step of a strategy, of the fields that it takes up. Later words keep what they have. The step is picked once for all
// words.
pub fn write_words(
    over: Taken,
    columns: &[Column],
    places: &[u8],
    lent: &Buffers,
    ids: &[i8],
    out: &mut [u64],
)
    requires room { words_for (length ids.now) ≤ length out.old }
    requires ready { StepsReady over columns.now places.now lent.now ids.now }
    ensures { out.new ≡ words_of (length ids.now) (step_at over (columns_at columns.now places.now) lent.now ids.now) out.old }
{
    match over {
        Taken::All => write_by(steps::skip_one, columns, places, lent, ids, out),
        Taken::WithNulls => write_by(steps::skip_without_nulls, columns, places, lent, ids, out),
        Taken::NotFull => write_by(steps::skip_fully_null, columns, places, lent, ids, out),
    }
}

// The mask by the step of a route's strategy. Later words keep what they have.
pub fn write_stepped(
    route: Route,
    columns: &[Column],
    fs: &Fields,
    lent: &Buffers,
    ids: &[i8],
    out: &mut [u64],
)
    requires room { words_for (length ids.now) ≤ length out.old }
    requires ready { FieldsReady columns.now fs.now lent.now ids.now }
    ensures { out.new ≡ words_of (length ids.now) (step_at (over_of route) (taken_of (over_of route) lent.now columns.now) lent.now ids.now) out.old }
{
    let over = Taken::from(route);
    let taken = TakenFields::of(fs, over);
    write_words(over, columns, taken.places(), lent, ids, out);
}

// A mask of nulls alone. Later words keep what they have.
pub fn write_nulls(len: usize, out: &mut [u64])
    requires { (len < 2 ^ 63) × (words_for len ≤ length out.old) }
    ensures { out.new ≡ words_of len (λ i. false) out.old }
{
    let words = bitmap::words_for(len);
    out[..words].fill(0);
}
