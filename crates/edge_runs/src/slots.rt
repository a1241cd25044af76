// An array's slots: what `type_id`, `value_offset` and `value` answer.
use crate::print;
use array_columns::questions::entry_of;
use array_columns::refusals::number_of;
use array_columns::{Kind, Value};
use program_kit::output::Writer;
use program_kit::view::View;
use std::io;
use std::io::Write;

// What stands for the value of a slot that is refused.
const REFUSED: Value = Value {
    value: Some(0),
    name: [0; 32],
    size: 0,
    id: 0,
    kind: Kind::Int8,
};

// What `value` answers: its id and kind, the bits, or missing, and the name's length and its 32 bytes.
fn value(to: &mut Writer, view: &View, i: usize) -> io::Result<()> {
    let answer = view.value(i);
    let v = answer.unwrap_or(REFUSED);
    let kind = v.kind.number();
    write!(to, ", value {}", number_of(answer))?;
    write!(to, ", id {}, kind {kind}", entry_of(v.id))?;
    match v.value {
        Some(bits) => write!(to, ", bits {bits:016x}")?,
        None => write!(to, ", missing, {:016x}", 0)?,
    }
    write!(to, ", name {} ", v.size)?;
    print::hex(to, &v.name)?;
    writeln!(to)
}

// A line for a slot.
fn slot(to: &mut Writer, view: &View, i: usize) -> io::Result<()> {
    let id = view.type_id(i);
    let offset = view.value_offset(i);
    write!(to, "  slot {i}: type_id {}", number_of(id))?;
    write!(to, ", id {}", entry_of(id.unwrap_or(0)))?;
    write!(to, ", value_offset {}", number_of(offset))?;
    write!(to, " {}", offset.unwrap_or(0))?;
    value(to, view, i)
}

// Slots 0 to n, of which n is past the end.
pub fn lines(to: &mut Writer, view: &View, n: usize) -> io::Result<()> {
    // By slot number, which is what an array is asked.
    for i in 0..=n {
        slot(to, view, i)?;
    }
    Ok(())
}
