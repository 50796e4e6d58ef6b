// Answers in words.
use base::Refusal;
use layout::{Address, Block, Part, Reason};
use printing::{first_changed, last_changed};
use shelves::ViewStart;
use spans::Spans;
use std::io;
use std::io::Write;
use volume::{Advanced, Told};

fn part_name(part: Part) -> &'static str {
    match part {
        Part::Head => "head",
        Part::Body => "body",
        Part::Tail => "tail",
    }
}

fn show_refusal(out: &mut impl Write, refusal: Refusal) -> io::Result<()> {
    write!(out, ": refusal {}", refusal.number())
}

// What an advance did.
fn show_advanced(out: &mut impl Write, did: Advanced) -> io::Result<()> {
    match did {
        Advanced::Copied(block, part) => {
            write!(out, ": copied block {} as {}", block.0, part_name(part))
        }
        Advanced::Recorded => write!(out, ": recorded"),
        Advanced::Finished => write!(out, ": finished"),
    }
}

pub fn show_answer(out: &mut impl Write, answer: Result<Told, Refusal>) -> io::Result<()> {
    match answer {
        Ok(Told::Done) => write!(out, ": done"),
        Ok(Told::CallsLeft(calls)) => write!(out, ": advance calls left {calls}"),
        Ok(Told::Advanced(did, calls)) => {
            show_advanced(out, did)?;
            write!(out, ", advance calls left {calls}")
        }
        Err(refusal) => show_refusal(out, refusal),
    }
}

// Why a block is where it is.
fn show_reason(out: &mut impl Write, reason: Reason) -> io::Result<()> {
    match reason {
        Reason::SetOut => write!(out, ", set out at format"),
        Reason::AddedBy(growth) => write!(out, ", added by growth {growth}"),
        Reason::MovedBy(growth, part) => {
            write!(out, ", moved as {} by growth {growth}", part_name(part))
        }
    }
}

pub fn show_address(out: &mut impl Write, answer: Result<Address, Refusal>) -> io::Result<()> {
    match answer {
        Ok(address) => {
            let spot = address.spot;
            write!(out, ": disk {}, row {}", spot.disk, spot.row.0)?;
            show_reason(out, address.reason)?;
            write!(out, ", moves {}", address.moves)
        }
        Err(refusal) => show_refusal(out, refusal),
    }
}

pub fn show_holder(out: &mut impl Write, answer: Result<Block, Refusal>) -> io::Result<()> {
    match answer {
        Ok(block) => write!(out, ": block {}", block.0),
        Err(refusal) => show_refusal(out, refusal),
    }
}

pub fn show_view(out: &mut impl Write, answer: Result<ViewStart, Refusal>) -> io::Result<()> {
    match answer {
        Ok(ViewStart::First(at)) => write!(out, ": first shelf from byte {at}"),
        Ok(ViewStart::Second(at)) => write!(out, ": second shelf from byte {at}"),
        Err(refusal) => show_refusal(out, refusal),
    }
}

pub fn show_used(out: &mut impl Write, answer: Result<usize, Refusal>) -> io::Result<()> {
    match answer {
        Ok(used) => write!(out, ": bytes used {used}"),
        Err(refusal) => show_refusal(out, refusal),
    }
}

// Shows what came of making a table: the table, or what stands where it was refused.
pub fn show_table(out: &mut impl Write, refusal: Option<Refusal>, table: Spans) -> io::Result<()> {
    match refusal {
        None => write!(out, ": done")?,
        Some(refusal) => show_refusal(out, refusal)?,
    }
    let zero = table.zero;
    let one = table.one;
    write!(
        out,
        ", table {} {} {} {}",
        zero.first, zero.count, one.first, one.count
    )
}

pub fn show_offset(out: &mut impl Write, offset: Option<usize>) -> io::Result<()> {
    match offset {
        Some(at) => write!(out, ": offset {at}, disk {}", move_table::disk_at(at)),
        None => write!(out, ": no such mark"),
    }
}

// Which bytes changed, of the medium or a page.
pub fn show_changed(
    out: &mut impl Write,
    what: &str,
    before: &[u8],
    after: &[u8],
) -> io::Result<()> {
    if before == after {
        return Ok(());
    }
    if let Some(first) = first_changed(before, after)
        && let Some(last) = last_changed(before, after)
    {
        write!(out, "{what} changed from byte {first} to {last}")?;
    }
    Ok(())
}
