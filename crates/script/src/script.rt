// A script, line by line.
use super::answers::show_changed;
use super::calls::{make, saves};
use super::changes::set;
use super::commands::Command;
use super::questions::ask;
use super::run::Run;
use super::states::show_change;
use std::alloc::Global;
use std::io;
use std::io::{BufRead, Write};

fn run_command(out: &mut impl Write, run: &mut Run, command: Command) -> io::Result<()> {
    match command {
        Command::Call(call) => make(out, run, call),
        Command::Saves { first, end } => saves(out, run, first, end),
        Command::Ask(question) => ask(out, run, question),
        Command::Set(change) => set(out, run, change),
    }
}

fn run_line(out: &mut impl Write, alloc: Global, run: &mut Run, line: &[u8]) -> io::Result<()> {
    out.write_all(line)?;
    // An empty line or a comment is shown alone.
    if matches!(line, [] | [b'#', ..]) {
        return writeln!(out);
    }
    let state = run.state;
    let medium = run.medium;
    match Command::parse(alloc, line)? {
        Some(command) => run_command(out, run, command)?,
        None => write!(out, ": no such line, or not so many numbers")?,
    }
    show_change(out, state, run.state)?;
    show_changed(out, "; medium", &medium, &run.medium)?;
    writeln!(out)
}

pub fn run_script(out: &mut impl Write, alloc: Global, script: &[u8]) -> io::Result<()> {
    let mut run = Run::new();
    for line in BufRead::split(script, alloc, b'\n') {
        run_line(out, alloc, &mut run, &line?)?;
    }
    Ok(())
}
