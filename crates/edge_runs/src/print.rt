// Words and lists on standard output.
use program_kit::output;
use program_kit::output::Writer;
use std::io;

pub fn yes(b: bool) -> &'static str {
    if b { "yes" } else { "no" }
}

// Bytes, two hexadecimal digits each.
pub fn hex(to: &mut Writer, bytes: &[u8]) -> io::Result<()> {
    output::list(to, bytes, output::byte)
}

// Words, each after a space, as 16 hexadecimal digits.
pub fn words(to: &mut Writer, words: &[u64]) -> io::Result<()> {
    output::list(to, words, output::word)
}

// Ids, each after a space, 255 for one below 0.
pub fn ids(to: &mut Writer, ids: &[i8]) -> io::Result<()> {
    output::list(to, ids, output::id)
}

// Offsets, each after a space, - for one below 0.
pub fn offsets(to: &mut Writer, offsets: &[i32]) -> io::Result<()> {
    output::list(to, offsets, |to, n| output::offset(to, n, " -"))
}
