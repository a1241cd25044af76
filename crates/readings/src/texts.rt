// Numbers, kinds, names and values as text, and back.
use array_columns::Kind;
use decimal::integer;
use program_kit::parts;
use std::alloc::{AllocError, Global};
use std::fmt;
use union_text::{kind_names, printable, value_text};

// The number that a word tells.
pub fn number(word: &[u8]) -> Option<usize> {
    integer::read_natural(word, u64::MAX).map(|n| n as usize)
}

// A kind, printed as its name.
#[derive(Clone, Copy)]
pub struct Named(pub Kind);

impl fmt::Display for Named {
    fn fmt<W: fmt::Write>(&self, f: &mut fmt::Formatter<W>) -> fmt::Result {
        f.pad(kind_names::kind_name(self.0))
    }
}

// A name as it is printed, cut to 32 bytes. Like a value's text it is written into memory lent to union_text.
pub fn printed(alloc: Global, name: &[u8]) -> Result<String, AllocError> {
    let mut out = [0u8; 32];
    let n = printable::put_printable(parts::first(name, 32), &mut out);
    String::from_utf8_lossy(alloc, &out[..n])
}

// A value's text.
pub fn value(alloc: Global, bits: u64, kind: Kind) -> Result<String, AllocError> {
    let mut out = [0u8; 40];
    let n = value_text::value_text(bits, kind, &mut out);
    String::from_utf8_lossy(alloc, &out[..n])
}

// The characters of a name in UTF-8.
pub fn characters(name: &[u8]) -> usize {
    name.iter().filter(|b| **b & 0xc0 != 0x80).count()
}

// A number and a word for what it counts, with an s unless it is one.
#[derive(Clone, Copy)]
pub struct Counted(pub usize, pub &'static str);

impl fmt::Display for Counted {
    fn fmt<W: fmt::Write>(&self, f: &mut fmt::Formatter<W>) -> fmt::Result {
        let Counted(n, what) = *self;
        let s = if n == 1 { "" } else { "s" };
        write!(f, "{n} {what}{s}")
    }
}
