// The memory that a list's builder is lent.
use array_columns::{Buffers, BuffersMut};

// Arrays, and no lists, since their sizes are what is tried.
#[derive(Clone, Copy)]
pub struct Memory {
    pub type_ids: [i8; 66],
    pub offsets: [i32; 66],
    pub values: [u64; 200],
    pub masks: [u64; 12],
    pub names: [u8; 384],
}

impl Memory {
    // Memory in which all bits are set.
    pub fn ones() -> Memory {
        Memory {
            type_ids: [-1; 66],
            offsets: [-1; 66],
            values: [u64::MAX; 200],
            masks: [u64::MAX; 12],
            names: [u8::MAX; 384],
        }
    }

    pub fn lent(&self) -> Buffers<'_, '_> {
        Buffers {
            type_ids: &self.type_ids,
            offsets: &self.offsets,
            values: &self.values,
            masks: &self.masks,
            names: &self.names,
        }
    }

    pub fn lent_mut(&mut self) -> BuffersMut<'_> {
        let Memory {
            type_ids,
            offsets,
            values,
            masks,
            names,
        } = self;
        BuffersMut {
            type_ids,
            offsets,
            values,
            masks,
            names,
        }
    }
}
