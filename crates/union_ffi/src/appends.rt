// Runs of appends, for C: the builder is read and written once for all readings of a run. A `match`, as in
// `array`. The arguments are C's.
ghost use Rattle.std.specs.Prelude.{◌≡◌};
ghost use Rattle.array_columns.specs.Buffers.{held, Same};
ghost use Rattle.union_ffi.specs.Appends.{c_appended, c_appends};

use array_columns::BuffersMut;
use builder_appends::Readings;
use union_c::{CBuilder, CBuilt};

// Appends the readings in order: names in the text, kinds and presence by their numbers, and the values' bits.
#[tactic(auto, unfolding(crate::specs::Appends::c_appends))]
pub fn union_builder_appends(
    builder: &CBuilder,
    readings: &Readings,
    lent: &mut BuffersMut,
    refusals: &mut [u8],
) -> CBuilt
    ensures same { Same lent.new lent.old }
    ensures after { c_appended result (held lent.new) refusals.new ≡ c_appends builder.now (held lent.old) readings.now refusals.old }
{
    match builder.read() {
        Ok(b) => builder.appended(b.appends(readings, lent, refusals)),
        Err(refusal) => builder.refused(refusal),
    }
}
