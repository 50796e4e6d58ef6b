// Pieces of blocks, read and shown.
use super::answers::show_answer;
use base::Refusal;
use layout::Block;
use std::io;
use std::io::Write;
use volume::{Reply, Told, Volume};

// How long a piece may be.
pub const MOST_PIECE: usize = 1_024;

pub const TOO_LONG: &str = ": a piece has at most 1,024 bytes";

// How many bytes from the start on are as the first one.
fn alike(piece: &[u8]) -> usize {
    piece
        .iter()
        .take_while(|&byte| piece.first() == Some(byte))
        .count()
}

// How many bytes from the start on are as the first one, and that one.
pub fn show_piece(out: &mut impl Write, piece: &[u8]) -> io::Result<()> {
    write!(out, ", {} bytes", alike(piece))?;
    match piece.first() {
        Some(first) => write!(out, " of {first}"),
        None => Ok(()),
    }
}

// Fills a piece, which holds 170 in each byte before, by a call.
pub fn read<F: FnOnce(&mut [u8]) -> Reply<Told>>(
    out: &mut impl Write,
    size: usize,
    call: F,
) -> io::Result<()>
    requires { F.IsAlwaysCallable call }
{
    let mut space = [170; MOST_PIECE];
    let Some(piece) = space.get_mut(..size) else {
        return write!(out, "{TOO_LONG}");
    };
    let reply = call(piece);
    show_answer(out, reply.answer)?;
    show_piece(out, piece)
}

// The byte that a block's bytes all are.
fn show_block(out: &mut impl Write, answer: Result<Told, Refusal>, piece: &[u8]) -> io::Result<()> {
    if let Err(refusal) = answer {
        return write!(out, " refused with {}", refusal.number());
    }
    match piece.first() {
        Some(first) if alike(piece) == piece.len() => write!(out, " {first}"),
        _ => write!(out, " mixed"),
    }
}

// Reads blocks of 512 bytes.
pub fn reads(
    out: &mut impl Write,
    state: Volume,
    medium: &[u8],
    first: usize,
    end: usize,
) -> io::Result<()> {
    let mut piece = [170; 512];
    write!(out, ":")?;
    for x in first..end {
        let reply = state.read(medium, Block(x), &mut piece);
        show_block(out, reply.answer, &piece)?;
    }
    Ok(())
}
