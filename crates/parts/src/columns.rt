// Columns of the record: written and read back, and ones that hold no number.
use record::Column;
use std::io;
use std::io::Write;

// The end of a column's line: what reading finds in its bytes.
fn show_column(out: &mut impl Write, column: &[u8]) -> io::Result<()> {
    match record::read_column(column) {
        Column::Number(n) => write!(out, "], read as {n}"),
        Column::Blank => write!(out, "], read as blank"),
        Column::NotANumber => write!(out, "], not a number"),
    }
}

// The first number, written into ten bytes.
pub fn show_written(out: &mut impl Write, numbers: &[usize]) -> io::Result<()> {
    let mut column = [0; 10];
    let Some(&n) = numbers.first() else {
        return Ok(());
    };
    record::put_number(&mut column, n);
    out.write_all(&column)?;
    show_column(out, &column)
}

// The text behind the bracket.
pub fn show_text(out: &mut impl Write, text: &str) -> io::Result<()> {
    match text.rsplit_once('[') {
        Some((_, column)) => show_column(out, column.as_bytes()),
        None => Ok(()),
    }
}
