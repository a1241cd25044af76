// Calls on an array that are refused, and their neighbours that are not.
use crate::masks;
use crate::play::Played;
use array_columns::refusals::number_of;
use program_kit::builders;
use program_kit::output::Writer;
use program_kit::view::View;
use std::io;
use std::io::Write;
use union_array::UnionArray;

// On the array that a builder describes: slices at its end and past it, children of ids that name no field, and the null masks with
// no word lent and of slot 0 alone.
pub fn lines(to: &mut Writer, played: &Played) -> io::Result<()> {
    let lent = &played.memory.lent();
    let array = builders::finish_cloned(&played.builder, lent).unwrap_or(UnionArray::empty());
    let view = &View { array, lent };
    let n = array.count;
    write!(
        to,
        "  slice of none at the end: {}",
        number_of(view.slice(n, 0))
    )?;
    write!(to, ", of one: {}", number_of(view.slice(n, 1)))?;
    writeln!(to, ", of all from slot 1: {}", number_of(view.slice(1, n)))?;
    write!(to, "  child of id 9: {}", number_of(view.child(9)))?;
    writeln!(to, ", of id -1: {}", number_of(view.child(-1)))?;
    masks::no_words(to, view)?;
    let first = view.slice(0, 1);
    writeln!(to, "  slice of slot 0: {}", number_of(first))?;
    let array = first.unwrap_or(UnionArray::empty());
    masks::lines(to, &View { array, lent })
}
