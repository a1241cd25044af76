// Words, numbers and lists on standard output.
use array_columns::Layout;
use array_columns::questions::entry_of;
use std::fmt::Display;
use std::io;
use std::io::{BufWriter, Stdout, Write};

// Standard output, behind a buffer.
pub type Writer = BufWriter<Stdout>;

// The layout's name, in the words of the programs.
pub fn layout_name(layout: Layout) -> &'static str {
    match layout {
        Layout::Dense => "dense",
        Layout::Sparse => "sparse",
    }
}

// A number after a space.
pub fn number<N: Display + Copy>(to: &mut Writer, n: N) -> io::Result<()> {
    write!(to, " {n}")
}

// An id after a space, 255 for one below 0.
pub fn id(to: &mut Writer, n: i8) -> io::Result<()> {
    number(to, entry_of(n))
}

// A word after a space, as 16 hexadecimal digits.
pub fn word(to: &mut Writer, n: u64) -> io::Result<()> {
    write!(to, " {n:016x}")
}

// A byte as two hexadecimal digits.
pub fn byte(to: &mut Writer, n: u8) -> io::Result<()> {
    write!(to, "{n:02x}")
}

// An offset after a space, or for one below 0 a text.
pub fn offset(to: &mut Writer, n: i32, below: &str) -> io::Result<()> {
    if n < 0 {
        return write!(to, "{below}");
    }
    number(to, n)
}

// Each entry of a list, by what writes one, which may always be called.
pub fn list<T: Copy, F: Fn(&mut Writer, T) -> io::Result<()>>(
    to: &mut Writer,
    entries: &[T],
    write_one: F,
) -> io::Result<()>
    requires { F.IsAlwaysCallable write_one }
{
    for x in entries {
        write_one(to, *x)?;
    }
    Ok(())
}
