// Changes from outside: of the state, of what is lent, and other bytes on the medium, as a power cut or a damage leaves them.
use super::answers::show_table;
use super::commands::Change;
use super::run::{MEDIUM_SIZE, Run};
use super::states::state_numbers;
use printing::put_bytes;
use record::Record;
use spans::{NO_SPANS, Spans};
use std::io;
use std::io::Write;
use volume::Volume;

// The bytes from `at` on, so many; none if there are not so many.
fn part_of(bytes: &[u8], at: usize, count: usize) -> &[u8] {
    at.checked_add(count)
        .and_then(|end| bytes.get(at..end))
        .unwrap_or(b"")
}

// Puts so many times one byte on the medium; nothing if they do not fit.
fn put(medium: &mut [u8], at: usize, count: usize, byte: u8) {
    let Some(end) = at.checked_add(count) else {
        return;
    };
    if let Some(space) = medium.get_mut(at..end) {
        space.fill(byte);
    }
}

// Puts the record of the state, sound or not, on the medium.
fn put_record(medium: &mut [u8; MEDIUM_SIZE], state: Volume) {
    let numbers = state_numbers(state);
    let marks = marks::marks_of(state.recorded);
    // A record has the first thirteen, and the recorded marks one by one.
    if let Some(numbers) = numbers.first_chunk() {
        let numbers = *numbers;
        record::write_record(medium, &Record { numbers, marks });
    }
}

fn lend(out: &mut impl Write, run: &mut Run, len: usize) -> io::Result<()> {
    if run.lend(len) {
        return Ok(());
    }
    write!(out, ": the medium has at most 18,432 bytes")
}

// Makes a table. What comes of it is the run's from now on.
fn make_table(out: &mut impl Write, run: &mut Run, asked: Spans) -> io::Result<()> {
    let made = spans::make_spans(asked.zero, asked.one);
    run.table = made.unwrap_or(NO_SPANS);
    show_table(out, made.err(), run.table)
}

pub fn set(out: &mut impl Write, run: &mut Run, change: Change) -> io::Result<()> {
    match change {
        Change::State(state) => run.state = state,
        Change::Medium { lent } => lend(out, run, lent)?,
        Change::Cache(cached) => run.cached = cached,
        Change::Keep => run.kept = run.medium,
        Change::Back { at, count } => {
            // Bytes that did not land are as they were.
            let kept = run.kept;
            put_bytes(&mut run.medium, at, part_of(&kept, at, count));
        }
        Change::Put { at, count, byte } => put(&mut run.medium, at, count, byte),
        Change::Bytes { at, text } => put_bytes(&mut run.medium, at, text),
        Change::Record => put_record(&mut run.medium, run.state),
        Change::Spans(asked) => make_table(out, run, asked)?,
        // A table that nobody has tested.
        Change::Table(table) => run.table = table,
    }
    Ok(())
}
