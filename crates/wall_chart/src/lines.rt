// The lines of the chart. Each is put into a lent part of its own length.
ghost use Rattle.std.specs.Prelude.{◌≡◌, ◌≤◌, length};
ghost use Rattle.std.proofs.lemmas.List.Edits.{sets};
ghost use Rattle.base.specs.Below.{joined};
ghost use Rattle.layout.specs.Limits.{most_disks};
ghost use Rattle.record.specs.Decimal.{decimal};
ghost use Rattle.wall_chart.specs.Chart.{heading, cell, cell_at, text_bytes, line_bytes, heading_line, row_line};

use base::Refusal;
use layout::{Block, Row, Spot};
use volume::Volume;

const ROW_WIDTH: usize = 6;

const COLUMN_WIDTH: usize = 10;

// The bytes of a line before its line feed; so many disks come before the columns of the next one.
pub(crate) fn text_bytes(disks: usize) -> usize
    requires { disks ≤ most_disks }
    ensures { result ≡ text_bytes disks }
{
    ROW_WIDTH + disks * COLUMN_WIDTH
}

// Puts the heading at the start of a line.
fn put_heading(line: &mut [u8])
    requires { 6 ≤ length line.old }
    ensures { line.new ≡ sets line.old 0 heading }
{
    line[..ROW_WIDTH].copy_from_slice(b"   row");
}

// Puts the disk numbers into a line, from byte 6 on.
fn put_disks(line: &mut [u8], disks: usize)
    requires disks_le_most_disks { disks ≤ most_disks }
    requires room { text_bytes disks ≤ length line.old }
    ensures { line.new ≡ sets line.old 6 (joined (decimal 10) disks) }
{
    for d in 0..disks {
        let at = text_bytes(d);
        record::put_number(&mut line[at..at + COLUMN_WIDTH], d);
    }
}

// The first line: the heading and the disk numbers.
pub(crate) fn put_heading_line(line: &mut [u8], disks: usize)
    requires disks_le_most_disks { disks ≤ most_disks }
    requires line_len { length line.old ≡ line_bytes disks }
    ensures { line.new ≡ heading_line disks }
{
    put_heading(line);
    put_disks(line, disks);
    let last = line.len() - 1;
    line[last] = b'\n';
}

// Puts a cell into ten bytes: the block that lives at a spot or, where none does, "-".
fn put_cell(part: &mut [u8], says: Result<Block, Refusal>)
    requires { length part.old ≡ 10 }
    ensures { part.new ≡ cell says }
{
    match says {
        Ok(x) => record::put_number(part, x.0),
        Err(_) => part.copy_from_slice(b"         -"),
    }
}

// Puts the cells of row b into a line, from byte 6 on.
fn put_cells(line: &mut [u8], v: Volume, disks: usize, b: usize)
    requires disks_le_most_disks { disks ≤ most_disks }
    requires room { text_bytes disks ≤ length line.old }
    ensures { line.new ≡ sets line.old 6 (joined (cell_at v b) disks) }
{
    for disk in 0..disks {
        let at = text_bytes(disk);
        let says = v.holder(Spot { disk, row: Row(b) }).answer;
        put_cell(&mut line[at..at + COLUMN_WIDTH], says);
    }
}

// The line of row b: the row's number and the cells.
pub(crate) fn put_row_line(line: &mut [u8], v: Volume, disks: usize, b: usize)
    requires disks_le_most_disks { disks ≤ most_disks }
    requires line_len { length line.old ≡ line_bytes disks }
    ensures { line.new ≡ row_line v disks b }
{
    record::put_number(&mut line[..ROW_WIDTH], b);
    put_cells(line, v, disks, b);
    let last = line.len() - 1;
    line[last] = b'\n';
}
