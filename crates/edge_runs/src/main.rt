// Runs the edges of document 01 that are run. Every list of appends is played in both layouts, by `append` and by `append_mut`.
#![tactic(auto)]

mod fields;
mod lists;
mod makings;
mod masks;
mod memory;
mod names;
mod notes;
mod play;
mod print;
mod read;
mod refusals;
mod rounds;
mod run;
mod shown;
mod slots;
mod tell;

use array_columns::Layout;
use lists::LISTS;
use program_kit::output::Writer;
use std::alloc::Global;
use std::io;
use std::io::Write;

fn lines(to: &mut Writer, alloc: Global, layout: Layout) -> io::Result<()> {
    for list in LISTS {
        run::lines(to, alloc, layout, list)?;
    }
    makings::lines(to, layout)
}

fn main(rt: HostRuntime) -> io::Result<()> {
    let alloc = rt.alloc();
    let mut to = Writer::new(alloc, rt.stdout())?;
    lines(&mut to, alloc, Layout::Sparse)?;
    lines(&mut to, alloc, Layout::Dense)?;
    to.flush()
}
