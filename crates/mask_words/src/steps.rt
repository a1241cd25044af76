// One step for each strategy that selects by type ids: it makes one word of the null mask from its chunk's type ids, and the ids and
// presence chunks of the fields that the strategy takes up. `RunReady` stands at each: as the invariant of a struct it would be shown
// anew for every word, and in SkipOne for the other fields.
ghost use Rattle.std.specs.Prelude.{◌≡◌, ◌≤◌, length};
ghost use Rattle.mask_words.specs.Steps.{selected_of, skip_one_word, skip_without_word, skip_fully_word, RunReady};

use crate::{FieldChunk, Selection};

// The slots of some fields, and those of them that are present.
fn select(fields: &[FieldChunk], ids: &[i8]) -> Selection
    requires { RunReady fields.now ids.now }
    ensures { result ≡ selected_of fields.now ids.now }
{
    let selections = bitmap::selection_masks(ids);
    let mut s = Selection {
        selected: 0,
        present: 0,
    };
    for f in fields {
        let is_field = selections[f.id as usize];
        s.selected |= is_field;
        s.present |= is_field & f.chunk;
    }
    s
}

// SkipOne: the first field has the slots that no other has.
#[tactic(auto, unfolding(crate::specs::Steps::skip_one_word))]
pub(crate) fn skip_one(fields: &[FieldChunk], ids: &[i8]) -> u64
    requires { RunReady fields.now ids.now × (1 ≤ length fields.now) }
    ensures { result ≡ skip_one_word fields.now ids.now }
{
    let others = select(&fields[1..], ids);
    others.present | (!others.selected & fields[0].chunk)
}

// SkipWithoutNulls: a slot that no field with a null has is present.
#[tactic(auto, unfolding(crate::specs::Steps::skip_without_word))]
pub(crate) fn skip_without_nulls(fields: &[FieldChunk], ids: &[i8]) -> u64
    requires { RunReady fields.now ids.now }
    ensures { result ≡ skip_without_word fields.now ids.now }
{
    let s = select(fields, ids);
    bitmap::low(s.present | !s.selected, ids.len())
}

// SkipFullyNull: a slot of a fully null field is null.
#[tactic(auto, unfolding(crate::specs::Steps::skip_fully_word))]
pub(crate) fn skip_fully_null(fields: &[FieldChunk], ids: &[i8]) -> u64
    requires { RunReady fields.now ids.now }
    ensures { result ≡ skip_fully_word fields.now ids.now }
{
    select(fields, ids).present
}
