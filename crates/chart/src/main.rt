// Reads a record sector on standard input and prints the wall chart of its volume or, where it is refused, the
// number alone.
#![tactic(auto)]

use std::io;
use std::io::{BufWriter, Read, Write};

fn main(rt: HostRuntime) -> io::Result<()> {
    let mut sector = Vec::new(rt.alloc());
    let mut page = [0u8; 65_536];
    rt.reader().take(512).read_to_end(&mut sector)?;
    let answer = wall_chart::put_chart_of_record(&mut page, &sector);
    let mut out = BufWriter::new(rt.alloc(), io::writer(&rt))?;
    match answer {
        Ok(used) => out.write_all(&page[..used])?,
        Err(refusal) => writeln!(out, "{}", refusal.number())?,
    }
    out.flush()
}
