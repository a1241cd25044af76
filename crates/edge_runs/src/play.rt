// Builders that play a list.
use crate::lists::{Entry, List};
use crate::memory::Memory;
use array_columns::{Buffers, BuffersMut, Layout, Refusal};
use program_kit::builders;
use program_kit::builders::Reading;
use std::alloc::{AllocError, Global};
use union_array::UnionArray;
use union_builder::UnionBuilder;

// What is noted of an append: its answer, and the builder's length after it.
#[derive(Clone, Copy, PartialEq, Eq)]
pub struct Note {
    pub answer: Result<(), Refusal>,
    pub len: usize,
}

// What a list leaves: its builder, what it described half way, a note of each append, and the memory.
#[derive(Drop)]
pub struct Played {
    pub builder: UnionBuilder,
    pub half: UnionArray,
    pub notes: Vec<Note>,
    pub memory: Memory,
}

// The builder of a list, with one slot more than is lent, or no column, where the list wants that.
fn builder_of(list: List, layout: Layout, lent: &Buffers) -> UnionBuilder {
    let (slots, columns) = list.sizes();
    let mut b = builders::make(layout, slots, columns, lent).unwrap_or(builders::refused());
    match list {
        List::SlotNotLent => b.capacity = 67,
        List::NoColumn => b.limit = 0,
        _ => {}
    }
    b
}

// Plays a list by a function that appends, over memory that holds ones at first.
pub fn play<F>(
    alloc: Global,
    layout: Layout,
    list: List,
    entries: &[Entry],
    append: F,
) -> Result<Played, AllocError>
where
    F: Fn(&mut UnionBuilder, &Reading, &mut BuffersMut) -> Result<(), Refusal>,
    requires { F.IsAlwaysCallable append }
{
    let mut memory = Memory::ones();
    let mut builder = builder_of(list, layout, &memory.lent());
    let mut half = UnionArray::empty();
    let mut notes = Vec::new(alloc);
    for (i, e) in entries.iter().enumerate() {
        if i == entries.len() / 2 {
            half = builders::finish_cloned(&builder, &memory.lent()).unwrap_or(half);
        }
        let answer = append(&mut builder, e, &mut memory.lent_mut());
        let len = builders::len(&builder);
        notes.push(Note { answer, len })?;
    }
    Ok(Played {
        builder,
        half,
        notes,
        memory,
    })
}
