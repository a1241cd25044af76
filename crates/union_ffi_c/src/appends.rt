// Runs of appends, for C: the builder is read and written once for all readings of a run.
// The parameters are those of the C header: lent memory is five slices.
ghost use Rattle.std.specs.Prelude.{◌≡◌};
ghost use Rattle.array_columns.specs.Buffers.{buffers_of};
ghost use Rattle.union_builder.specs.Appends.{readings_of};
ghost use Rattle.union_ffi.specs.Appends.{c_appended, c_appends};

use array_columns::BuffersMut;
use builder_appends::Readings;
use union_c::{CBuilder, CBuilt};

// Appends the readings in order: names in the text, kinds and presence by their numbers, and the values' bits.
#[unsafe(no_mangle)]
pub extern "C" fn union_builder_appends(
    builder: CBuilder,
    text: &[u8],
    starts: &[u32],
    sizes: &[u8],
    kinds: &[u8],
    present: &[u8],
    bits: &[u64],
    type_ids: &mut [i8],
    offsets: &mut [i32],
    values: &mut [u64],
    masks: &mut [u64],
    names: &mut [u8],
    refusals: &mut [u8],
) -> CBuilt
    ensures { c_appended result (buffers_of type_ids.new offsets.new values.new masks.new names.new) refusals.new
        ≡ c_appends builder (buffers_of type_ids.old offsets.old values.old masks.old names.old) (readings_of text.now starts.now sizes.now kinds.now present.now bits.now) refusals.old }
{
    union_ffi::appends::union_builder_appends(
        &builder,
        &Readings {
            text,
            starts,
            sizes,
            kinds,
            present,
            bits,
        },
        &mut BuffersMut {
            type_ids,
            offsets,
            values,
            masks,
            names,
        },
        refusals,
    )
}
