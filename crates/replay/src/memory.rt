// The memory that a case lends to its calls.
ghost use Rattle.std.specs.Prelude.{◌≤◌, length};

use crate::narrow;
use crate::numbers::Numbers;
use array_columns::BuffersMut;
use program_kit::parts::{self, Buffer};
use std::alloc::{AllocError, Global};

// The part with a number, from 1 on.
pub fn part_of(n: u64) -> Option<Buffer> {
    match n {
        1 => Some(Buffer::TypeIds),
        2 => Some(Buffer::Offsets),
        3 => Some(Buffer::Values),
        4 => Some(Buffer::Masks),
        5 => Some(Buffer::Names),
        _ => None,
    }
}

// How many entries of a part are kept at most: one more than are lent, for a call that is short of one.
const MOST: usize = 65538;

// A part: how many entries are lent, and the first of them as a list. The rest are like the last of the list, 0 if it has none.
pub fn entries<T: Copy, F: Fn(u64) -> T>(
    alloc: Global,
    numbers: &mut Numbers,
    narrow: F,
) -> Result<Vec<T>, AllocError>
    requires { F.IsAlwaysCallable narrow }
{
    let n = numbers.size().min(MOST);
    let list = numbers.list();
    let last = list.last().copied().unwrap_or(0);
    let mut out: Vec<T> = list.iter().take(n).map(|x| narrow(*x)).collect(alloc)?;
    out.resize(n, narrow(last))?;
    Ok(out)
}

#[derive(Drop)]
pub struct Memory {
    type_ids: Vec<i8>,
    offsets: Vec<i32>,
    values: Vec<u64>,
    masks: Vec<u64>,
    names: Vec<u8>,
}

// What is lent of a part: one entry less to a call that is short of it, at most so many.
fn lent<T>(list: &mut [T], short: bool, most: usize) -> &mut [T]
    ensures { length result.now ≤ most }
{
    let n = parts::lent(list.len(), short, most).min(list.len());
    &mut list[..n]
}

impl Memory {
    pub fn read(alloc: Global, numbers: &mut Numbers) -> Result<Memory, AllocError> {
        Ok(Memory {
            type_ids: entries(alloc, numbers, narrow::id)?,
            offsets: entries(alloc, numbers, narrow::offset)?,
            values: entries(alloc, numbers, |n| n)?,
            masks: entries(alloc, numbers, |n| n)?,
            names: entries(alloc, numbers, narrow::byte)?,
        })
    }

    // What is lent to a call that is short of a part, or of none.
    pub fn lent(&mut self, short: Option<Buffer>) -> BuffersMut<'_> {
        BuffersMut {
            type_ids: lent(&mut self.type_ids, short == Some(Buffer::TypeIds), 65537),
            offsets: lent(&mut self.offsets, short == Some(Buffer::Offsets), 65537),
            values: lent(&mut self.values, short == Some(Buffer::Values), 65537),
            masks: lent(&mut self.masks, short == Some(Buffer::Masks), 1024),
            names: lent(&mut self.names, short == Some(Buffer::Names), 4096),
        }
    }
}
