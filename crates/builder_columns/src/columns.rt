// Columns: the column of zeros, a new one, and one with a slot more.
ghost use Rattle.std.specs.Prelude.{◌≡◌, ◌<◌, ◌≤◌, length};
ghost use Rattle.builder_columns.specs.Columns.{no_builder_column, opened, grown_by, fits};

use crate::BuilderColumn;
use array_columns::{Kind, Layout};

impl BuilderColumn {
    // The column of zeros.
    pub fn zeros() -> BuilderColumn
        ensures { result ≡ no_builder_column }
    {
        BuilderColumn {
            slots: 0,
            size: 0,
            kind: Kind::Int8,
            masked: false,
        }
    }

    // A new column of n slots, all null. That the name fits is known where it is asked, and a type for such a name would serve one call.
    pub(crate) fn opened(name: &[u8], kind: Kind, n: usize) -> BuilderColumn
        requires { (length name.now ≤ 32) × (n ≤ 65536) }
        ensures { result ≡ opened name.now kind n }
    {
        BuilderColumn {
            slots: n as u32,
            size: name.len() as u8,
            kind,
            masked: n != 0,
        }
    }

    // The column with one slot more, a null or not.
    pub fn grown(self, null: bool) -> BuilderColumn
        requires { self.slots < 65536 }
        ensures { result ≡ grown_by self null }
    {
        BuilderColumn {
            slots: self.slots + 1,
            masked: self.masked || null,
            ..self
        }
    }

    // Whether the column fits a builder of `len` slots.
    pub(crate) fn fits(&self, layout: Layout, len: usize) -> bool
        ensures { result ≡ fits layout len self.now }
    {
        let slots = self.slots as usize;
        self.size <= 32 && slots <= len && (layout == Layout::Dense || slots == len)
    }
}
