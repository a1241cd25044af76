// Whether slots tell the entries of a round.
use crate::lists::Entry;
use array_columns::Value;
use program_kit::view::View;

// Whether a value's 32 name bytes are a name's, with zeros after it.
fn is_named(v: &Value, name: &[u8]) -> bool {
    v.size as usize == name.len()
        && v.name.starts_with(name)
        && v.name.iter().skip(name.len()).all(|b| *b == 0)
}

// Whether a slot tells an entry of a round, whose columns a and b have ids 0 and 1.
fn tells(view: &View, slot: usize, e: &Entry) -> bool {
    let id = i8::from(e.name != b"a".as_slice());
    match view.value(slot) {
        Ok(v) => v.id == id && v.kind == e.kind && v.value == e.value && is_named(&v, e.name),
        Err(_) => false,
    }
}

// How many of an array's slots tell the entries, each its own.
pub fn count(view: &View, entries: &[Entry]) -> usize {
    (0..view.array.count)
        .zip(entries)
        .filter(|(slot, e)| tells(view, *slot, e))
        .count()
}
