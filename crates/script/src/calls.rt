// The calls that hand a state back.
use super::answers::show_answer;
use super::commands::Call;
use super::pieces::{MOST_PIECE, TOO_LONG};
use super::run::Run;
use layout::Block;
use spans::Spans;
use std::io;
use std::io::Write;
use volume::{Reply, Told, Volume};

// The reply of a call on the bytes that are lent; none where a piece would be too long.
fn reply_to(call: Call, state: Volume, table: Spans, medium: &mut [u8]) -> Option<Reply<Told>> {
    Some(match call {
        Call::Format { size, rows, disks } => Volume::format(medium, size, rows, disks),
        Call::Restart => Volume::restart(medium),
        Call::Sector => Volume::from_sector(medium),
        Call::Grow(count) => state.grow(medium, count),
        Call::GrowBeyondDoubling(count) => state.grow_beyond_doubling(medium, count),
        Call::Copy(block) => state.copy(medium, block),
        Call::Checkpoint => state.checkpoint(medium),
        Call::Advance => state.advance(medium),
        Call::Flushed => state.flushed(),
        Call::Write { block, size, byte } => {
            let space = [byte; MOST_PIECE];
            state.write(medium, block, space.get(..size)?)
        }
        Call::ClientWrite {
            client,
            block,
            size,
            byte,
        } => {
            let space = [byte; MOST_PIECE];
            clients::client_write(table, client, state, medium, block, space.get(..size)?)
        }
    })
}

pub fn make(out: &mut impl Write, run: &mut Run, call: Call) -> io::Result<()> {
    let state = run.state;
    let table = run.table;
    match reply_to(call, state, table, run.lent_mut()) {
        Some(reply) => {
            run.take_over(reply.state);
            show_answer(out, reply.answer)
        }
        None => write!(out, "{TOO_LONG}"),
    }
}

// Saves each block with a byte of its own.
pub fn saves(out: &mut impl Write, run: &mut Run, first: usize, end: usize) -> io::Result<()> {
    for x in first..end {
        let call = Call::Write {
            block: Block(x),
            size: 512,
            byte: (x % 100) as u8 + 1,
        };
        make(out, run, call)?;
    }
    Ok(())
}
