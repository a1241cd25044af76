// The type ids that an array, or a slice of it, shows as a part of the caller's memory.
use crate::print;
use array_columns::Buffers;
use array_columns::refusals::number_of;
use program_kit::output::Writer;
use program_kit::view::View;
use std::io;
use std::io::Write;
use union_array::UnionArray;

// The number, and the type ids that are shown.
fn line(to: &mut Writer, label: &str, view: &View) -> io::Result<()> {
    let answer = view.type_ids();
    let ids = answer.unwrap_or(&[]);
    write!(
        to,
        "  type_ids{label}: {}, shown {}",
        number_of(answer),
        ids.len()
    )?;
    print::ids(to, ids)?;
    writeln!(to)
}

// Of an array of n slots, of its slice from slot 1 on, and with one type id too few lent.
pub fn lines(to: &mut Writer, view: &View, n: usize) -> io::Result<()> {
    if n < 1 {
        return Ok(());
    }
    let View { array, lent } = *view;
    let part = view.slice(1, n - 1).unwrap_or(UnionArray::empty());
    let type_ids = lent.type_ids.get(..n - 1).unwrap_or(lent.type_ids);
    let fewer = &Buffers { type_ids, ..*lent };
    line(to, "", view)?;
    line(to, " from slot 1 on", &View { array: part, lent })?;
    line(to, ", one too few lent", &View { array, lent: fewer })
}
