// Lent memory: how much there is.
ghost use Rattle.std.specs.Prelude.{◌≡◌};
ghost use Rattle.array_columns.specs.Buffers.{amounts_of, held};

use crate::{Amounts, Buffers, BuffersMut};

impl<'i, 'a> Buffers<'i, 'a> {
    // How much is lent.
    pub fn amounts(&self) -> Amounts
        ensures { result ≡ amounts_of self.now }
    {
        Amounts {
            ids: self.type_ids.len(),
            offsets: self.offsets.len(),
            values: self.values.len(),
            masks: self.masks.len(),
            names: self.names.len(),
        }
    }
}

impl<'a> BuffersMut<'a> {
    // The same memory, to read.
    pub fn shared(&self) -> Buffers<'_, '_>
        ensures { result ≡ held self.now }
    {
        Buffers {
            type_ids: self.type_ids,
            offsets: self.offsets,
            values: self.values,
            masks: self.masks,
            names: self.names,
        }
    }

    // How much is lent.
    pub fn amounts(&self) -> Amounts
        ensures { result ≡ amounts_of (held self.now) }
    {
        self.shared().amounts()
    }
}
