// Prints the table of moves, document 02, W9: the new disk for each mark of each pair m, n with m + n at most 16, in decimal, one a
// line. Order is m + n rising, then m rising, then mark rising. What it must print is in the file stdout.
#![tactic(auto)]

use move_table::{ENTRY_COUNT, disk_at};
use std::io;
use std::io::{BufWriter, Write};

fn main(rt: HostRuntime) -> io::Result<()> {
    let mut out = BufWriter::new(rt.alloc(), io::writer(&rt))?;
    for at in 0..ENTRY_COUNT {
        writeln!(out, "{}", disk_at(at))?;
    }
    out.flush()
}
