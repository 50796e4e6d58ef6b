// What one growth does with each block of a volume that was formatted and never grown.
use layout::{Change, GrowthDisks, Part, Row, Spot};
use std::io;
use std::io::Write;
use volume::Volume;

// H, B or T for a head, body or tail that moves, S for a block that stays, A for one that is added.
fn letter(change: Change) -> char {
    match change {
        Change::Moved(Part::Head) => 'H',
        Change::Moved(Part::Body) => 'B',
        Change::Moved(Part::Tail) => 'T',
        Change::Stays => 'S',
        Change::Added => 'A',
    }
}

// A letter for each block. The numbers are the disks before, those added, and the rows.
pub fn show_letters(out: &mut impl Write, numbers: &[usize]) -> io::Result<()> {
    let &[old, added, rows] = numbers else {
        return Ok(());
    };
    let Some(growth) = GrowthDisks::new(old, added) else {
        return Ok(());
    };
    if Volume::MOST_ROWS < rows {
        return Ok(());
    }
    for x in 0..growth.disks() * rows {
        let p = Spot {
            disk: x % old,
            row: Row(x / old),
        };
        write!(out, "{}", letter(growth.change_of(rows, x, p)))?;
    }
    Ok(())
}
