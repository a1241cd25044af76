// Reads commands from the files named as arguments, or from standard input, batches the readings and prints the answers.
#![tactic(auto)]

mod commands;
mod lines;
mod mask;
mod parse;
mod run;
mod say;
mod session;
mod table;
mod texts;
mod words;

use program_kit::output::Writer;
use std::env::{Env, FillError};
use std::fs::File;
use std::io;
use std::io::Write;

// The file with a name, if it can be opened.
fn open(rt: &HostRuntime, path: &[u8]) -> Option<File> {
    File::open(rt, str::from_utf8(path).ok()?).ok()
}

// The answers to one file, after its name.
fn file(rt: &HostRuntime, to: &mut Writer, path: &[u8]) -> io::Result<()> {
    to.write_all(path)?;
    match open(rt, path) {
        None => writeln!(to, ": cannot be opened"),
        Some(from) => {
            writeln!(to)?;
            run::run(to, rt.alloc(), from)
        }
    }
}

fn main(rt: HostRuntime) -> io::Result<()> {
    let mut to = Writer::new(rt.alloc(), rt.stdout())?;
    for i in 1..usize::MAX {
        // Read by `arg`, since `env::args` gives up at an argument that is not UTF-8.
        let mut path = [0u8; 4096];
        match rt.arg(i, &mut path) {
            Ok(n) => file(&rt, &mut to, &path[..n])?,
            Err(FillError::NotPresent) if i == 1 => run::run(&mut to, rt.alloc(), rt.stdin())?,
            Err(FillError::NotPresent) => break,
            Err(_) => file(&rt, &mut to, b"")?,
        }
    }
    to.flush()
}
