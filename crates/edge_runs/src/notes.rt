// What is noted of the appends of a list.
use crate::lists::{Entry, List};
use crate::play::Note;
use crate::print;
use array_columns::refusals::number_of;
use program_kit::output::Writer;
use std::io;
use std::io::Write;

// What an append is given: the name, the kind, and the value, or that it is missing.
fn given(to: &mut Writer, e: &Entry) -> io::Result<()> {
    write!(to, " ")?;
    print::hex(to, e.name)?;
    write!(to, ", kind {}", e.kind.number())?;
    match e.value {
        Some(bits) => write!(to, ", bits {bits:016x}"),
        None => write!(to, ", missing"),
    }
}

// An append's number, and the length after it.
fn told(to: &mut Writer, note: &Note) -> io::Result<()> {
    writeln!(to, ": {}, length {}", number_of(note.answer), note.len)
}

// A line for each append; of a round, for the refused ones only.
pub fn lines(to: &mut Writer, list: List, entries: &[Entry], notes: &[Note]) -> io::Result<()> {
    for (i, (e, note)) in entries.iter().zip(notes).enumerate() {
        if !list.is_round() {
            write!(to, " append")?;
            given(to, e)?;
            told(to, note)?;
        } else if note.answer.is_err() {
            write!(to, " append {i}")?;
            told(to, note)?;
        }
    }
    Ok(())
}
