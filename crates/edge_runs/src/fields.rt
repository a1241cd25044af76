// An array's fields in list order: each one's id and name, and what `child` answers to the id.
use crate::print;
use array_columns::Column;
use array_columns::questions::entry_of;
use array_columns::refusals::number_of;
use program_kit::output::Writer;
use program_kit::parts;
use program_kit::view::View;
use std::io;
use std::io::Write;
use union_array::NamePlace;

// What `child` answers: its id and kind, and where its name, values and mask are.
fn child(to: &mut Writer, view: &View, id: i8) -> io::Result<()> {
    let answer = view.child(id);
    let c = answer.unwrap_or(Column::zeros());
    let kind = c.kind.number();
    write!(to, "; child {}", number_of(answer))?;
    write!(to, ", id {}, kind {kind}", entry_of(c.id))?;
    write!(to, ", name at {} {}", c.name, c.size)?;
    write!(to, ", values at {} {}", c.values, c.slots)?;
    if c.masked {
        write!(to, ", mask at {} {}", c.mask, c.bit)?;
    }
    writeln!(to)
}

// A field: its id and name, and its child.
fn field(to: &mut Writer, view: &View, id: i8, name: NamePlace) -> io::Result<()> {
    let lent = view.lent;
    let bytes = parts::part_or_empty(lent.names, name.start, name.size as usize);
    write!(to, "  field: id {}, name {} ", entry_of(id), name.size)?;
    print::hex(to, bytes)?;
    child(to, view, id)
}

// A line for each field; none if `type_names` is refused.
pub fn lines(to: &mut Writer, view: &View) -> io::Result<()> {
    if let Ok(t) = view.type_names() {
        for (c, name) in view.array.columns.iter().zip(&t.names).take(t.count) {
            field(to, view, c.id, *name)?;
        }
    }
    Ok(())
}
