// The lines of cases.
use super::question::{Question, answer};
use super::records::Page;
use std::alloc::{AllocError, Global};
use std::io;
use std::io::Write;

// The numbers in a text, in their order.
fn numbers_in(alloc: Global, text: &str) -> Result<Vec<usize>, AllocError> {
    text.split(|c: char| !c.is_ascii_digit())
        .filter_map(|digits| digits.parse().ok())
        .collect(alloc)
}

// A line as it stands, but for its questions: an answer in place of `@` and a letter.
pub fn show_case(out: &mut impl Write, alloc: Global, page: &Page, line: &str) -> io::Result<()> {
    let mut pieces = line.split('@');
    let before = pieces.next().unwrap_or(line);
    let numbers = numbers_in(alloc, before)?;
    write!(out, "{before}")?;
    for piece in pieces {
        let mut rest = piece.chars();
        if let Some(letter) = rest.next() {
            answer(out, Question::from(letter), before, &numbers, page)?;
        }
        write!(out, "{}", rest.as_str())?;
    }
    writeln!(out)
}
