// The cases, in order: an array, the memory that is lent, the readings that are appended, and the calls.
use crate::calls::Call;
use crate::memory::{Memory, entries};
use crate::narrow;
use crate::numbers::Numbers;
use crate::run::Subject;
use array_columns::{Column, Kind, Layout};
use program_kit::builders::Reading;
use program_kit::output::Writer;
use program_kit::{builders, parts};
use std::alloc::{AllocError, Global};
use std::io;
use std::io::Write;
use union_array::UnionArray;

// The kind with a number; any other number is read as Int8.
fn kind_of(n: u64) -> Kind {
    let named = u8::try_from(n).ok().and_then(|n| Kind::try_from(n).ok());
    named.unwrap_or(Kind::Int8)
}

// As the strategies of calls.
fn layout_of(n: u64) -> Layout {
    match n {
        1 => Layout::Dense,
        _ => Layout::Sparse,
    }
}

// From its row of nine numbers, which are taken apart at once.
fn column(numbers: [u64; 9]) -> Column {
    let [values, mask, name, slots, bit, size, id, kind, masked] = numbers;
    Column {
        values: values as usize,
        mask: mask as usize,
        name: name as usize,
        slots: narrow::word(slots),
        bit: narrow::byte(bit),
        size: narrow::byte(size),
        id: narrow::id(id),
        kind: kind_of(kind),
        masked: narrow::byte(masked) == 1,
    }
}

// A list of columns, at most 128; zeros after them.
fn columns(numbers: &mut Numbers) -> [Column; 128] {
    let mut list = [Column::zeros(); 128];
    let n = numbers.size().min(128);
    for c in list.iter_mut().take(n) {
        *c = column(numbers.row());
    }
    list
}

fn array(numbers: &mut Numbers) -> UnionArray {
    let layout = layout_of(numbers.next());
    let fields = numbers.size();
    let children = numbers.size();
    let start = numbers.size();
    let count = numbers.size();
    let offsets_start = numbers.size();
    let offsets_count = numbers.size();
    UnionArray {
        columns: columns(numbers),
        fields,
        children,
        start,
        count,
        offsets_start,
        offsets_count,
        layout,
    }
}

// The readings that calls append: the 1,024 bytes that have their names, and the numbers from their list on. Of each it is told where
// its name starts, its size, and the kind.
#[derive(Drop)]
pub struct Readings<'a> {
    text: Vec<u8>,
    from: Numbers<'a>,
}

impl<'a> Readings<'a> {
    fn read(alloc: Global, numbers: &mut Numbers<'a>) -> Result<Readings<'a>, AllocError> {
        let mut text = entries(alloc, numbers, narrow::byte)?;
        text.resize(1024, 0)?;
        let n = numbers.size();
        let from = *numbers;
        numbers.skip(n);
        Ok(Readings { text, from })
    }

    // Reading k, of a value or of a null. Past the list it is of the numbers there.
    pub fn at(&self, k: usize, value: Option<u64>) -> Reading<'_> {
        let mut numbers = self.from;
        numbers.skip(k.wrapping_mul(3));
        let [start, size, kind] = numbers.row::<3>();
        let name = parts::part_or_empty(&self.text, start as usize, size as usize);
        let kind = kind_of(kind);
        Reading { name, kind, value }
    }
}

// Runs a case, which makes its calls on its array at first, and on a builder whose making was refused. A line for each call: its
// number, whose word its answer is, and the answer.
fn case(to: &mut Writer, alloc: Global, numbers: &mut Numbers) -> io::Result<()> {
    let mut subject = Subject {
        array: array(numbers),
        builder: builders::refused(),
    };
    let mut memory = Memory::read(alloc, numbers)?;
    let readings = Readings::read(alloc, numbers)?;
    // As often as the count says, whether the numbers are there or not.
    for _ in 0..numbers.count() {
        let c = Call::from(numbers.row());
        write!(to, "{} {}", c.number, c.by)?;
        match c.op {
            Ok(op) => subject.call(to, op, &readings, &mut memory.lent(c.short))?,
            Err(unknown) => write!(to, " {unknown}")?,
        }
        writeln!(to)?;
    }
    Ok(())
}

// Runs the cases, each of which begins with 1: at most as many as there are numbers.
pub fn run(to: &mut Writer, alloc: Global, numbers: &mut Numbers) -> io::Result<()> {
    for _ in 0..numbers.len() {
        if numbers.next() != 1 {
            break;
        }
        case(to, alloc, numbers)?;
    }
    Ok(())
}
