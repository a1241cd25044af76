// Replays the calls of standard input: reads union arrays and builders with calls on them, and prints the answers.
// The form of both is told at the head of differential/src/sample.rs.
#![tactic(auto)]

mod calls;
mod cases;
mod memory;
mod narrow;
mod numbers;
mod print;
mod run;

ghost use Rattle.std.specs.Prelude.{◌≤◌, length, IfOk};

use numbers::Numbers;
use program_kit::output::Writer;
use program_kit::parts;
use std::io;
use std::io::{Read, Write};

// How many bytes are read at most. What comes after them is left out.
const MOST: usize = 262144;

// Reads until the text is full or the input ends; answers how many bytes it has.
fn read_full(from: &mut impl Read, text: &mut [u8]) -> io::Result<usize>
    ensures { IfOk result (λ n. n ≤ length text.new) }
{
    let mut done: usize = 0;
    for _ in 0..text.len() {
        let n = from.read(&mut text[done..])?;
        if n == 0 {
            break;
        }
        done += n;
    }
    Ok(done)
}

fn main(rt: HostRuntime) -> io::Result<()> {
    let alloc = rt.alloc();
    let mut text = vec![in alloc; 0u8; MOST]?;
    let n = read_full(&mut rt.stdin(), &mut text)?;
    let list = numbers::parse(alloc, parts::first(&text, n))?;
    let mut to = Writer::new(alloc, rt.stdout())?;
    cases::run(&mut to, alloc, &mut Numbers::of(&list))?;
    to.flush()
}
