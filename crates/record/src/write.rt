// Writing the record.
ghost use Rattle.std.specs.Prelude.{◌≡◌, ◌*◌, ◌≤◌, ◌<◌, length};
ghost use Rattle.std.proofs.lemmas.List.Edits.{sets};
ghost use Rattle.record.specs.Sector.{field, columns, mark_bytes, ending, sector};

use super::Record;
use super::columns::{is_blank, put_number};

// Writes column i: the number n, or spaces.
fn put_field(bytes: &mut [u8; 512], t: usize, i: usize, n: usize)
    requires { i < 13 }
    ensures { bytes.new ≡ sets bytes.old (i * 10) (field t i n) }
{
    let at = i * 10;
    let column = &mut bytes[at..at + 10];
    if is_blank(t, i) {
        column.fill(b' ');
    } else {
        put_number(column, n);
    }
}

// Writes the thirteen columns.
fn put_columns(bytes: &mut [u8; 512], numbers: &[usize; 13])
    ensures { bytes.new ≡ sets bytes.old 0 (columns numbers.now 13) }
{
    let t = numbers[2];
    for (i, n) in numbers.iter().enumerate() {
        put_field(bytes, t, i, *n);
    }
}

// Writes the marks, from byte 130.
fn put_marks(bytes: &mut [u8; 512], marks: &[bool; 64])
    ensures { bytes.new ≡ sets bytes.old 130 (mark_bytes marks.now 64) }
{
    for (i, mark) in marks.iter().enumerate() {
        bytes[130 + i] = if *mark { b'1' } else { b'0' };
    }
}

// Writes the spaces from byte 194, and the line feed.
fn put_ending(bytes: &mut [u8; 512])
    ensures { bytes.new ≡ sets bytes.old 194 ending }
{
    bytes[194..511].fill(b' ');
    bytes[511] = b'\n';
}

// Writes the record into the first 512 bytes of a lent page, and leaves the rest as it was.
pub fn write_record(page: &mut [u8], held: &Record)
    requires { 512 ≤ length page.old }
    ensures { page.new ≡ sets page.old 0 (sector held.now.numbers held.now.marks) }
{
    let bytes = page.first_chunk_mut::<512>().unwrap();
    put_columns(bytes, &held.numbers);
    put_marks(bytes, &held.marks);
    put_ending(bytes);
}
