// One input from its first line to its last.
use crate::commands::Fault;
use crate::lines::{self, Line};
use crate::parse::parse;
use crate::say::{Answer, Denied};
use crate::session::Session;
use program_kit::output::Writer;
use std::alloc::Global;
use std::io;
use std::io::{BufReader, Read, Write};

// What a line answers, unless it asks nothing.
fn answer(
    session: &mut Session,
    alloc: Global,
    line: Result<Vec<u8>, Fault>,
) -> Result<Option<Answer>, Denied> {
    let line = line?;
    match parse(line.as_slice())? {
        None => Ok(None),
        Some(command) => Ok(Some(session.execute(alloc, &command)?)),
    }
}

// Writes what a line answers, after its number.
fn write_answer(
    to: &mut Writer,
    number: u64,
    answer: Result<Option<Answer>, Denied>,
) -> io::Result<()> {
    match answer {
        Ok(None) => Ok(()),
        Ok(Some(answer)) => writeln!(to, "{number}: {answer}"),
        Err(Denied::Memory(e)) => Err(io::Error::from(e)),
        Err(why) => writeln!(to, "{number}: {why}"),
    }
}

// The answers to an input, which has memory of its own.
pub fn run<R: Read + Drop>(to: &mut Writer, alloc: Global, from: R) -> io::Result<()> {
    let mut from = BufReader::new(alloc, from)?;
    let mut session = Session::new(alloc)?;
    // Until the input ends: a loop over it says how often at most.
    for number in 1..u64::MAX {
        let Line { text, ended } = lines::next(&mut from, alloc)?;
        write_answer(to, number, answer(&mut session, alloc, text))?;
        to.flush()?;
        if ended {
            break;
        }
    }
    Ok(())
}
