// The worked record of document 01: written, read back, and changed in every byte.
ghost use Rattle.std.specs.Prelude.{◌≤◌};

use record::Record;
use std::io;
use std::io::Write;
use std::ops::RangeInclusive;

// Bytes that begin with a record.
pub type Page = [u8; 520];

// The worked record and bytes behind it. Its numbers are Z, s, t, N[0] to N[7], growing and w; blocks 0 and 3 have marks 0 and 1.
pub fn worked() -> Page {
    let mut page = [b'.'; 520];
    let mut marks = [false; 64];
    marks[0] = true;
    marks[1] = true;
    let numbers = [512, 5, 1, 3, 5, 0, 0, 0, 0, 0, 0, 1, 0];
    record::write_record(&mut page, &Record { numbers, marks });
    page
}

// The record's bytes and those after it.
pub fn show_page(out: &mut impl Write, page: &Page) -> io::Result<()> {
    let (record, rest) = page.split_at(512);
    out.write_all(record)?;
    write!(out, "after it: ")?;
    out.write_all(rest)
}

fn show_numbers(out: &mut impl Write, numbers: &[usize]) -> io::Result<()> {
    for n in numbers {
        write!(out, " {n}")?;
    }
    Ok(())
}

// The marks that are set.
fn show_set(out: &mut impl Write, marks: &[bool]) -> io::Result<()> {
    for (i, &is_set) in marks.iter().enumerate() {
        if is_set {
            write!(out, " {i}")?;
        }
    }
    Ok(())
}

// What the first 512 bytes are read as.
pub fn show_read(out: &mut impl Write, page: &Page) -> io::Result<()> {
    match record::read_record(&page[..512]) {
        Ok(found) => {
            write!(out, "0, numbers")?;
            show_numbers(out, &found.numbers)?;
            write!(out, ", marks")?;
            show_set(out, &found.marks)
        }
        Err(refusal) => write!(out, "{}", refusal.number()),
    }
}

// The page with k added to byte `at`, 256 being 0.
fn with_added(page: &Page, at: usize, k: u8) -> Page {
    let mut changed = *page;
    if let Some(byte) = changed.get_mut(at) {
        *byte = byte.wrapping_add(k);
    }
    changed
}

fn is_accepted(page: &Page) -> bool {
    record::read_record(&page[..512]).is_ok()
}

// How many of the 255 changes of a byte are accepted, or are refused.
fn changes_of_byte(page: &Page, at: usize, accepted: bool) -> usize
    ensures { result ≤ 255 }
{
    (1..=u8::MAX)
        .filter(|&k| is_accepted(&with_added(page, at, k)) == accepted)
        .count()
}

// The same of the bytes of a range.
fn changes(page: &Page, bytes: RangeInclusive<usize>, accepted: bool) -> usize {
    let mut total = 0;
    for at in 0..512 {
        if bytes.contains(&at) {
            total += changes_of_byte(page, at, accepted);
        }
    }
    total
}

// The changes of bytes a to b, of byte a alone, or of each of the 512, by how many numbers there are.
pub fn show_changes(
    out: &mut impl Write,
    page: &Page,
    numbers: &[usize],
    accepted: bool,
) -> io::Result<()> {
    let bytes = match numbers {
        [] => 0..=511,
        [byte] => *byte..=*byte,
        [first, last, ..] => *first..=*last,
    };
    write!(out, "{}", changes(page, bytes, accepted))
}

// The refusal of the first bytes, as many as the first number; 0 for none.
pub fn show_refusal(out: &mut impl Write, page: &Page, numbers: &[usize]) -> io::Result<()> {
    let Some(bytes) = numbers.first().and_then(|&length| page.get(..length)) else {
        return Ok(());
    };
    match record::read_record(bytes) {
        Ok(_) => write!(out, "0"),
        Err(refusal) => write!(out, "{}", refusal.number()),
    }
}
