// The builder and the batch last shown, over memory of their own.
use crate::commands::{Command, Making};
use crate::mask::Mask;
use crate::say::{Answer, Appended, Denied};
use crate::table::Table;
use crate::texts;
use array_columns::questions::entry_of;
use array_columns::{Buffers, BuffersMut, Refusal};
use program_kit::builders::Reading;
use program_kit::view::View;
use program_kit::{builders, parts};
use std::alloc::{AllocError, Global};
use union_array::UnionArray;
use union_builder::UnionBuilder;

// The memory that is lent to the builder and its batches: five lists of their own types and sizes.
#[derive(Drop)]
struct Memory {
    type_ids: Vec<i8>,
    offsets: Vec<i32>,
    values: Vec<u64>,
    masks: Vec<u64>,
    names: Vec<u8>,
}

impl Memory {
    // For at most 4096 slots, 128 columns, and 131072 values in all.
    fn new(alloc: Global) -> Result<Memory, AllocError> {
        Ok(Memory {
            type_ids: vec![in alloc; 0; 4096]?,
            offsets: vec![in alloc; 0; 4096]?,
            values: vec![in alloc; 0; 131072]?,
            masks: vec![in alloc; 0; 2176]?,
            names: vec![in alloc; 0; 4096]?,
        })
    }

    fn lent(&self) -> Buffers<'_, '_> {
        Buffers {
            type_ids: self.type_ids.as_slice(),
            offsets: self.offsets.as_slice(),
            values: self.values.as_slice(),
            masks: self.masks.as_slice(),
            names: self.names.as_slice(),
        }
    }

    fn lent_mut(&mut self) -> BuffersMut<'_> {
        BuffersMut {
            type_ids: self.type_ids.as_mut_slice(),
            offsets: self.offsets.as_mut_slice(),
            values: self.values.as_mut_slice(),
            masks: self.masks.as_mut_slice(),
            names: self.names.as_mut_slice(),
        }
    }
}

// A batch that was shown. If its builder was finished since, the next append overwrites it.
#[derive(Clone, Copy)]
struct Batch {
    array: UnionArray,
    finished: bool,
}

#[derive(Drop)]
pub struct Session {
    memory: Memory,
    builder: Option<UnionBuilder>,
    batch: Option<Batch>,
}

impl Session {
    // No builder and no batch.
    pub fn new(alloc: Global) -> Result<Session, AllocError> {
        Ok(Session {
            memory: Memory::new(alloc)?,
            builder: None,
            batch: None,
        })
    }

    // A new builder, which drops the batch; a refused making keeps both.
    fn make(&mut self, m: Making) -> Result<Answer, Denied> {
        let b = builders::make(m.layout, m.capacity, m.limit, &self.memory.lent())?;
        self.builder = Some(b);
        self.batch = None;
        Ok(Answer::Made(m))
    }

    // Appends a reading; a batch that it overwrites is dropped.
    fn append(&mut self, alloc: Global, r: &Reading<'_>) -> Result<Answer, Denied> {
        let b = self.builder.as_mut().ok_or(Denied::NoBuilder)?;
        let before = b.count;
        let mut lent = self.memory.lent_mut();
        match builders::append(b, r, &mut lent) {
            Err(Refusal::KindMismatch) => {
                return Err(Denied::OtherKind(texts::printed(alloc, r.name)?));
            }
            done => done?,
        }
        self.batch = self.batch.filter(|shown| !shown.finished);
        let last = parts::first(self.memory.type_ids.as_slice(), b.len).last();
        Ok(Answer::Appended(Appended {
            missing: r.value.is_none(),
            fresh: before < b.count,
            column: last.map_or(0, |id| entry_of(*id)),
            len: b.len,
        }))
    }

    // Shows a batch, which is then the one last shown.
    fn show(&mut self, alloc: Global, batch: Batch) -> Result<Table, Denied> {
        let array = batch.array;
        let lent = &self.memory.lent();
        let table = Table::new(alloc, &View { array, lent })?;
        self.batch = Some(batch);
        Ok(table)
    }

    // The batch so far.
    fn snapshot(&mut self, alloc: Global) -> Result<Answer, Denied> {
        let b = self.builder.as_ref().ok_or(Denied::NoBuilder)?;
        let array = builders::finish_cloned(b, &self.memory.lent())?;
        let finished = false;
        Ok(Answer::Snapshot(self.show(alloc, Batch { array, finished })?))
    }

    // The last batch, which empties the builder.
    fn finish(&mut self, alloc: Global) -> Result<Answer, Denied> {
        let b = self.builder.as_mut().ok_or(Denied::NoBuilder)?;
        let array = builders::finish(b, &self.memory.lent())?;
        let finished = true;
        Ok(Answer::Finished(self.show(alloc, Batch { array, finished })?))
    }

    // A slice in the place of the batch.
    fn slice(&mut self, alloc: Global, start: usize, count: usize) -> Result<Answer, Denied> {
        let Batch { array, finished } = self.batch.ok_or(Denied::NoBatch)?;
        let array = array.slice(start, count, &self.memory.lent())?;
        Ok(Answer::Slice(self.show(alloc, Batch { array, finished })?))
    }

    // Answers a command.
    pub fn execute(&mut self, alloc: Global, command: &Command<'_>) -> Result<Answer, Denied> {
        match command {
            Command::Make(m) => self.make(*m),
            Command::Append(r) => self.append(alloc, r),
            Command::Len => {
                let b = self.builder.as_ref().ok_or(Denied::NoBuilder)?;
                Ok(Answer::Len(builders::len(b)))
            }
            Command::Snapshot => self.snapshot(alloc),
            Command::Finish => self.finish(alloc),
            Command::Slice { start, count } => self.slice(alloc, *start, *count),
            Command::Mask { setting } => {
                let Batch { array, .. } = self.batch.ok_or(Denied::NoBatch)?;
                let lent = &self.memory.lent();
                Ok(Answer::Mask(Mask::new(&View { array, lent }, *setting)?))
            }
        }
    }
}
