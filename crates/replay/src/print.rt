// What calls answer, and what each kind of answer tells.
use array_columns::{Buffers, Column, Refusal, Value};
use logical_nulls::LogicalNulls;
use program_kit::output::{Writer, id, number};
use program_kit::view::View;
use program_kit::{output, parts};
use std::io;
use union_array::{TypeNames, UnionArray};

// What a call answers: the number of its refusal, or 0 and what the answer tells. What tells it may always be called, here and below.
pub fn answer<T: Drop, F: FnOnce(&mut Writer, T) -> io::Result<()> + Drop>(
    to: &mut Writer,
    answer: Result<T, Refusal>,
    tell: F,
) -> io::Result<()>
    requires { F.IsAlwaysCallable tell }
{
    match answer {
        Ok(x) => told(to, x, tell),
        Err(refusal) => number(to, refusal),
    }
}

// The same of a call that no question refuses.
pub fn told<T: Drop, F: FnOnce(&mut Writer, T) -> io::Result<()> + Drop>(
    to: &mut Writer,
    x: T,
    tell: F,
) -> io::Result<()>
    requires { F.IsAlwaysCallable tell }
{
    number(to, 0)?;
    tell(to, x)
}

// An answer that tells nothing but that it is not refused.
pub fn nothing<T: Drop>(_to: &mut Writer, _x: T) -> io::Result<()> {
    Ok(())
}

pub fn flag(to: &mut Writer, b: bool) -> io::Result<()> {
    number(to, u8::from(b))
}

// How many entries a list has, and each, by what writes one.
fn list<T: Copy, F: Fn(&mut Writer, T) -> io::Result<()>>(
    to: &mut Writer,
    entries: &[T],
    write_one: F,
) -> io::Result<()>
    requires { F.IsAlwaysCallable write_one }
{
    number(to, entries.len())?;
    output::list(to, entries, write_one)
}

pub fn words(to: &mut Writer, words: &[u64]) -> io::Result<()> {
    list(to, words, number)
}

pub fn ids(to: &mut Writer, ids: &[i8]) -> io::Result<()> {
    list(to, ids, id)
}

// An offset, all 32 bits set for one below 0.
fn offset(to: &mut Writer, n: i32) -> io::Result<()> {
    number(to, u32::try_from(n).unwrap_or(u32::MAX))
}

// Bytes, as those of a name.
fn name(to: &mut Writer, bytes: &[u8]) -> io::Result<()> {
    list(to, bytes, number)
}

// The name at a place in the lent bytes.
fn name_at(to: &mut Writer, names: &[u8], start: usize, n: u8) -> io::Result<()> {
    name(to, parts::part_or_empty(names, start, n as usize))
}

// A value's id, kind, whether it is missing, bits, and name: its length, its bytes, and each byte after them that is not 0, as none may be.
pub fn value(to: &mut Writer, v: Value) -> io::Result<()> {
    id(to, v.id)?;
    number(to, v.kind.number())?;
    flag(to, v.value.is_none())?;
    number(to, v.value.unwrap_or(0))?;
    number(to, v.size)?;
    for (k, b) in v.name.iter().enumerate() {
        if k < v.size as usize || *b != 0 {
            number(to, *b)?;
        }
    }
    Ok(())
}

// A child's id, kind, slots, whether it has a mask, and name.
pub fn child(to: &mut Writer, c: Column, names: &[u8]) -> io::Result<()> {
    id(to, c.id)?;
    number(to, c.kind.number())?;
    number(to, c.slots)?;
    flag(to, c.masked)?;
    name_at(to, names, c.name, c.size)
}

// The words of a child as they lie in memory.
pub fn child_words(to: &mut Writer, c: Column, values: &[u64]) -> io::Result<()> {
    words(to, parts::part_or_empty(values, c.values, c.slots as usize))
}

// How many names there are, and each.
pub fn type_names(to: &mut Writer, t: TypeNames, names: &[u8]) -> io::Result<()> {
    number(to, t.count)?;
    for place in t.names.iter().take(t.count) {
        name_at(to, names, place.start, place.size)?;
    }
    Ok(())
}

// What the array lists: how many fields, and the id and the name of each.
pub fn fields(to: &mut Writer, view: View) -> io::Result<()> {
    let View { array, lent } = view;
    number(to, array.fields)?;
    for c in array.columns.iter().take(array.fields) {
        id(to, c.id)?;
        name_at(to, lent.names, c.name, c.size)?;
    }
    Ok(())
}

// How many slots and fields an array has.
pub fn counts(to: &mut Writer, a: UnionArray) -> io::Result<()> {
    number(to, a.count)?;
    number(to, a.fields)
}

// Whether a null mask is present, its null count, its route, and the words lent, as the call left them.
pub fn nulls(to: &mut Writer, r: LogicalNulls, words: &[u64]) -> io::Result<()> {
    flag(to, r.null_count.is_some())?;
    number(to, r.null_count.unwrap_or(0))?;
    number(to, r.route.number())?;
    output::list(to, words, number)
}

// Lent memory as it lies.
pub fn lent(to: &mut Writer, lent: &Buffers) -> io::Result<()> {
    ids(to, lent.type_ids)?;
    list(to, lent.offsets, offset)?;
    words(to, lent.values)?;
    words(to, lent.masks)?;
    name(to, lent.names)
}
