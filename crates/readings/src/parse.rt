// From a line to a command.
use crate::commands::{Command, Fault, Making};
use crate::texts;
use crate::words::Words;
use array_columns::{Kind, Layout};
use program_kit::builders::Reading;
use union_text::{kind_names, value_text};

// A making: the slots and the columns, or the columns alone of one with 1024 slots.
fn making<'a>(words: &mut Words<'a>, layout: Layout) -> Result<Command<'a>, Fault> {
    let first = words.number()?;
    let (capacity, limit) = match words.next() {
        None => (1024, first),
        Some(word) => (first, texts::number(word).ok_or(Fault::Number)?),
    };
    Ok(Command::Make(Making {
        layout,
        capacity,
        limit,
    }))
}

// The name and the kind of a reading.
fn named<'a>(words: &mut Words<'a>) -> Result<(&'a [u8], Kind), Fault> {
    let name = words.name()?;
    let kind = kind_names::kind_named(words.word()?).ok_or(Fault::Kind)?;
    Ok((name, kind))
}

// A reading that is not missing.
fn reading<'a>(words: &mut Words<'a>) -> Result<Reading<'a>, Fault> {
    let (name, kind) = named(words)?;
    let bits = value_text::bits_of(words.word()?, kind).ok_or(Fault::Value(kind))?;
    Ok(Reading {
        name,
        kind,
        value: Some(bits),
    })
}

fn missing<'a>(words: &mut Words<'a>) -> Result<Reading<'a>, Fault> {
    let (name, kind) = named(words)?;
    Ok(Reading {
        name,
        kind,
        value: None,
    })
}

// The command of which the first word is read.
fn command<'a>(first: &[u8], words: &mut Words<'a>) -> Result<Command<'a>, Fault> {
    Ok(match first {
        b"append" => Command::Append(reading(words)?),
        b"null" => Command::Append(missing(words)?),
        b"dense" => making(words, Layout::Dense)?,
        b"sparse" => making(words, Layout::Sparse)?,
        b"slice" => Command::Slice {
            start: words.number()?,
            count: words.number()?,
        },
        b"mask" => Command::Mask {
            setting: words.number()?,
        },
        b"len" => Command::Len,
        b"snapshot" => Command::Snapshot,
        b"finish" => Command::Finish,
        _ => return Err(Fault::Unknown),
    })
}

// What a line asks; nothing if it is empty or a comment.
pub fn parse(line: &[u8]) -> Result<Option<Command<'_>>, Fault> {
    let mut words = Words(line);
    let Some(first) = words.next() else {
        return Ok(None);
    };
    if first.starts_with(b"#") {
        return Ok(None);
    }
    let command = command(first, &mut words)?;
    words.end()?;
    Ok(Some(command))
}
