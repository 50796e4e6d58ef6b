// Makes the calls that it reads on standard input, a line each, on a medium in memory, and prints for each what it answers, the state if
// it changed, and which bytes of the medium changed. An empty line, and one that starts with #, is printed as it is. README.md lists the
// lines. The cases are in the file stdin, and what it must write in the file stdout.
#![tactic(auto)]

mod answers;
mod calls;
mod changes;
mod charts;
mod commands;
mod lines;
mod lookups;
mod pieces;
mod questions;
mod run;
mod script;
mod states;
mod views;

use std::io;
use std::io::{BufWriter, Read, Write};

// The most bytes that are read of standard input. So many need not be all of it.
const MOST_READ: usize = 65_536;

fn main(rt: HostRuntime) -> io::Result<()> {
    let mut input = Vec::new(rt.alloc());
    rt.reader().take(MOST_READ as u64).read_to_end(&mut input)?;
    let mut out = BufWriter::new(rt.alloc(), io::writer(&rt))?;
    if MOST_READ <= input.len() {
        writeln!(out, "at most 65,535 bytes are read")?;
        return out.flush();
    }
    script::run_script(&mut out, rt.alloc(), &input)?;
    out.flush()
}
