// A list played by `append` and by `append_mut`, and what it leaves, read back.
use crate::lists::List;
use crate::play::{Played, play};
use crate::print::yes;
use crate::{notes, read, refusals, rounds};
use array_columns::Layout;
use program_kit::builders;
use program_kit::output::{Writer, layout_name};
use std::alloc::Global;
use std::io;
use std::io::Write;

// Whether the builder, the notes and the memory are the same of a list played twice.
fn compared(to: &mut Writer, a: &Played, b: &Played) -> io::Result<()> {
    let m = &a.memory;
    let n = &b.memory;
    write!(
        to,
        " by append_mut: builder {}",
        yes(a.builder == b.builder)
    )?;
    write!(to, ", numbers {}", yes(a.notes == b.notes))?;
    write!(to, ", memory {}", yes(m.type_ids == n.type_ids))?;
    write!(to, " {}", yes(m.offsets == n.offsets))?;
    write!(to, " {}", yes(m.values == n.values))?;
    write!(to, " {}", yes(m.masks == n.masks))?;
    writeln!(to, " {}", yes(m.names == n.names))
}

// The lines of a list. Of one of a few slots and columns, the memory too.
pub fn lines(to: &mut Writer, alloc: Global, layout: Layout, list: List) -> io::Result<()> {
    writeln!(to, "{}, {list}", layout_name(layout))?;
    let entries = list.entries(alloc)?;
    let played = play(alloc, layout, list, &entries, builders::append)?;
    let again = play(alloc, layout, list, &entries, builders::append_lent)?;
    notes::lines(to, list, &entries, &played.notes)?;
    compared(to, &played, &again)?;
    match list {
        List::Round(_) => rounds::lines(to, &played, &entries),
        List::OneColumn | List::OtherKind => {
            read::memory(to, &played.memory)?;
            read::finished(to, &played)?;
            refusals::lines(to, &played)
        }
        List::BThenA | List::TwoColumns => {
            read::memory(to, &played.memory)?;
            read::finished(to, &played)
        }
        _ => read::finished(to, &played),
    }
}
