// Reading the record. Each field is read or the record is refused there.
ghost use Rattle.std.specs.Prelude.{◌≡◌, ◌<◌, length};
ghost use Rattle.record.specs.Sector.{read_field, read_numbers, read_marks, spaces_hold, read_record};

use super::columns::{is_blank, read_column};
use super::{Column, Record};
use base::Refusal;

// What column i holds; one that has to be blank holds 0.
fn read_field(bytes: &[u8; 512], t: usize, i: usize) -> Column
    requires { i < 13 }
    ensures { result ≡ read_field bytes.now t i }
{
    let at = i * 10;
    let found = read_column(&bytes[at..at + 10]);
    if !is_blank(t, i) {
        return found;
    }
    let Column::Blank = found else {
        return Column::NotANumber;
    };
    Column::Number(0)
}

// The thirteen numbers.
fn read_numbers(bytes: &[u8; 512], t: usize) -> Result<[usize; 13], Refusal>
    ensures { result ≡ read_numbers bytes.now t }
{
    let mut numbers = [0; 13];
    for i in 0..13 {
        let Column::Number(n) = read_field(bytes, t, i) else {
            return Err(Refusal::NoRecord);
        };
        numbers[i] = n;
    }
    Ok(numbers)
}

// The marks.
fn read_marks(bytes: &[u8; 512]) -> Result<[bool; 64], Refusal>
    ensures { result ≡ read_marks bytes.now }
{
    let mut marks = [false; 64];
    for (i, b) in bytes[130..194].iter().enumerate() {
        marks[i] = match *b {
            b'0' => false,
            b'1' => true,
            _ => return Err(Refusal::NoRecord),
        };
    }
    Ok(marks)
}

// Are bytes 194 to 510 spaces?
fn has_spaces(bytes: &[u8; 512]) -> bool
    ensures { result ≡ spaces_hold bytes.now }
{
    // No early return, so that the compiler takes many bytes at a time.
    let mut other = 0u16;
    for b in &bytes[194..511] {
        if *b != b' ' {
            other += 1;
        }
    }
    other == 0
}

// The numbers and marks of a record, or refusal 13.
pub fn read_record(bytes: &[u8]) -> Result<Record, Refusal>
    ensures { result ≡ read_record bytes.now }
{
    let Some(bytes) = bytes.as_array::<512>() else {
        return Err(Refusal::NoRecord);
    };
    let Column::Number(t) = read_column(&bytes[20..30]) else {
        return Err(Refusal::NoRecord);
    };
    let numbers = read_numbers(bytes, t)?;
    let marks = read_marks(bytes)?;
    if !has_spaces(bytes) {
        return Err(Refusal::NoRecord);
    }
    if bytes[511] != b'\n' {
        return Err(Refusal::NoRecord);
    }
    Ok(Record { numbers, marks })
}
