// Makings at the limits of slots and columns, and calls of a builder that are lent too little.
use crate::read;
use array_columns::refusals::number_of;
use array_columns::{Buffers, Layout};
use program_kit::output::{Writer, layout_name};
use program_kit::parts::Buffer;
use program_kit::{builders, parts};
use std::io;
use std::io::Write;

// The slots and the columns of each making.
const SIZES: [(usize, usize); 10] = [
    (0, 1),
    (1, 0),
    (1, 1),
    (1, 128),
    (1, 129),
    (65536, 1),
    (65537, 1),
    (1024, 0),
    (1024, 1),
    (1024, 2),
];

// A making's number, and the builder that it gives.
fn made(
    to: &mut Writer,
    layout: Layout,
    slots: usize,
    columns: usize,
    lent: &Buffers,
) -> io::Result<()> {
    let answer = builders::make(layout, slots, columns, lent);
    write!(to, " making of {slots} {columns}: {}", number_of(answer))?;
    read::state(to, &answer.unwrap_or(builders::refused()))
}

// The first n entries of a part of memory, one less where it is short.
fn first<T>(list: &[T], n: usize, short: bool) -> &[T] {
    parts::first(list, parts::lent(n, short, list.len()))
}

// The part of memory of which one element too few is lent, if it is one.
const SHORTS: [Option<Buffer>; 6] = [
    Some(Buffer::TypeIds),
    Some(Buffer::Offsets),
    Some(Buffer::Values),
    Some(Buffer::Masks),
    Some(Buffer::Names),
    None,
];

// What a builder of 64 slots and 2 columns needs, but for what it is short of.
fn needed<'a>(lent: &Buffers<'a, 'a>, of: Option<Buffer>) -> Buffers<'a, 'a> {
    Buffers {
        type_ids: first(lent.type_ids, 64, of == Some(Buffer::TypeIds)),
        offsets: first(lent.offsets, 64, of == Some(Buffer::Offsets)),
        values: first(lent.values, 128, of == Some(Buffer::Values)),
        masks: first(lent.masks, 2, of == Some(Buffer::Masks)),
        names: first(lent.names, 64, of == Some(Buffer::Names)),
    }
}

// The numbers of a making of 64 slots and 2 columns that is lent too little, and of such a builder's `finish_cloned` and `finish`.
fn numbers(
    to: &mut Writer,
    layout: Layout,
    number: usize,
    lent: &Buffers,
    less: &Buffers,
) -> io::Result<()> {
    let mut b = builders::make(layout, 64, 2, lent).unwrap_or(builders::refused());
    let made = builders::make(layout, 64, 2, less);
    write!(to, " short of {number}: making {}", number_of(made))?;
    let snapshot = builders::finish_cloned(&b, less);
    write!(to, ", finish_cloned {}", number_of(snapshot))?;
    let batch = builders::finish(&mut b, less);
    writeln!(to, ", finish {}", number_of(batch))
}

// The lines of a layout, over memory for 1024 values in all.
pub fn lines(to: &mut Writer, layout: Layout) -> io::Result<()> {
    let lent = &Buffers {
        type_ids: &[0; 1024],
        offsets: &[0; 1024],
        values: &[0; 1024],
        masks: &[0; 128],
        names: &[0; 4096],
    };
    writeln!(to, "{}, makings", layout_name(layout))?;
    for (slots, columns) in SIZES {
        made(to, layout, slots, columns, lent)?;
    }
    for (number, of) in SHORTS.iter().enumerate() {
        numbers(to, layout, number, lent, &needed(lent, *of))?;
    }
    Ok(())
}
