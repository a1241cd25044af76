// What a round leaves, read back: every slot, every null mask, a slice, and a snapshot that was taken half way.
use crate::lists::Entry;
use crate::play::Played;
use crate::{fields, masks, tell};
use array_columns::refusals::number_of;
use program_kit::builders;
use program_kit::output::Writer;
use program_kit::view::View;
use std::io;
use std::io::Write;
use union_array::UnionArray;

// The fields, how many slots tell their entries, and every null mask.
fn read_back(to: &mut Writer, view: &View, entries: &[Entry]) -> io::Result<()> {
    fields::lines(to, view)?;
    write!(to, "  try_new {}", number_of(view.try_new()))?;
    writeln!(
        to,
        ", slots that tell their entry {}",
        tell::count(view, entries)
    )?;
    masks::lines(to, view)
}

// What a builder describes, its slice from slot 1 on, and what it described half way.
pub fn lines(to: &mut Writer, played: &Played, entries: &[Entry]) -> io::Result<()> {
    let lent = &played.memory.lent();
    let answer = builders::finish_cloned(&played.builder, lent);
    writeln!(to, " finish_cloned: {}", number_of(answer))?;
    let array = answer.unwrap_or(UnionArray::empty());
    let whole = &View { array, lent };
    read_back(to, whole, entries)?;
    let answer = whole.slice(1, array.count.saturating_sub(1));
    writeln!(to, " slice from slot 1: {}", number_of(answer))?;
    let array = answer.unwrap_or(UnionArray::empty());
    read_back(to, &View { array, lent }, entries.get(1..).unwrap_or(&[]))?;
    let array = played.half;
    writeln!(to, " snapshot at slot {}", array.count)?;
    read_back(to, &View { array, lent }, entries)
}
