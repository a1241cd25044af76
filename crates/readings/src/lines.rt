// Lines of an input.
use crate::commands::Fault;
use std::alloc::Global;
use std::io;
use std::io::{BufRead, Read};

// The most bytes that a line has.
const LONGEST: usize = 1024;

// A line without its end, and whether the input ended with it.
#[derive(Drop)]
pub struct Line {
    pub text: Result<Vec<u8>, Fault>,
    pub ended: bool,
}

// Skips what is left of a line; answers whether the input ended with it. An input that has ended is not read again.
fn skip<R: BufRead>(from: &mut R, alloc: Global) -> io::Result<bool> {
    let mut rest = Vec::new(alloc);
    let most = LONGEST as u64 + 1;
    for _ in 0..u64::MAX {
        rest.clear();
        from.by_ref().take(most).read_until(b'\n', &mut rest)?;
        if rest.last() == Some(&b'\n') {
            return Ok(false);
        }
        if rest.len() <= LONGEST {
            return Ok(true);
        }
    }
    Ok(true)
}

// The next line; an input that has ended gives an empty one. What a line has more than fits is skipped.
pub fn next<R: BufRead>(from: &mut R, alloc: Global) -> io::Result<Line> {
    let mut line = Vec::new(alloc);
    let most = LONGEST as u64 + 1;
    from.by_ref().take(most).read_until(b'\n', &mut line)?;
    let ended = line.last() != Some(&b'\n');
    if !ended {
        line.pop();
    } else if LONGEST < line.len() {
        return Ok(Line {
            text: Err(Fault::Long),
            ended: skip(from, alloc)?,
        });
    }
    if line.last() == Some(&b'\r') {
        line.pop();
    }
    Ok(Line {
        text: Ok(line),
        ended,
    })
}
