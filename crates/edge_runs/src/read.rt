// What a builder finishes, read back: fields, slots, type ids.
use crate::memory::Memory;
use crate::play::Played;
use crate::print::yes;
use crate::{fields, print, shown, slots};
use array_columns::Refusal;
use array_columns::refusals::number_of;
use program_kit::builders;
use program_kit::output::{Writer, layout_name};
use program_kit::view::View;
use std::io;
use std::io::Write;
use union_array::UnionArray;
use union_builder::UnionBuilder;

// A builder's layout, slots and columns, and those in use.
pub fn state(to: &mut Writer, b: &UnionBuilder) -> io::Result<()> {
    let layout = layout_name(b.layout);
    write!(to, ", a {layout} builder {} {}", b.capacity, b.limit)?;
    writeln!(to, " {} {}", b.len, b.count)
}

// The first of each part of memory.
pub fn memory(to: &mut Writer, m: &Memory) -> io::Result<()> {
    write!(to, "  memory: type ids")?;
    print::ids(to, &m.type_ids[..6])?;
    write!(to, ", offsets")?;
    print::offsets(to, &m.offsets[..6])?;
    write!(to, ", masks")?;
    print::words(to, &m.masks[..3])?;
    write!(to, "\n   values")?;
    print::words(to, &m.values[..15])?;
    write!(to, "\n   names ")?;
    print::hex(to, &m.names[..96])?;
    writeln!(to)
}

// What a call answers of the array.
fn flag(to: &mut Writer, answer: Result<bool, Refusal>) -> io::Result<()> {
    let holds = yes(answer.unwrap_or(false));
    write!(to, " {} {holds}", number_of(answer))
}

// What `finish` answers: the builder after it, and the array.
pub fn finished(to: &mut Writer, played: &Played) -> io::Result<()> {
    let mut b = played.builder;
    let lent = &played.memory.lent();
    let n = builders::len(&b);
    let answer = builders::finish(&mut b, lent);
    let array = answer.unwrap_or(UnionArray::empty());
    write!(to, " finish {}", number_of(answer))?;
    write!(to, ", slots {}, fields {}", array.count, array.fields)?;
    state(to, &b)?;
    let view = &View { array, lent };
    write!(to, "  is_dense")?;
    flag(to, view.is_dense())?;
    write!(to, ", is_nullable")?;
    flag(to, view.is_nullable())?;
    writeln!(to)?;
    fields::lines(to, view)?;
    slots::lines(to, view, n)?;
    shown::lines(to, view, n)
}
