// Views, with shelves out of the medium.
use super::answers::show_view;
use super::pieces::show_piece;
use layout::Block;
use std::io;
use std::io::Write;
use volume::Volume;

// The byte of a medium after disk k-1. 0 where a number is above its limit: every view is refused then.
fn cut_after(k: usize, state: Volume) -> usize {
    if Volume::MOST_DISKS < k || Volume::MOST_ROWS < state.rows || Volume::MOST_SIZE < state.size {
        return 0;
    }
    512 + k * state.rows * state.size
}

// What a view tells, and the part that it shows.
fn view_shelves(
    out: &mut impl Write,
    state: Volume,
    first: &[u8],
    second: &[u8],
    block: Block,
    k: usize,
) -> io::Result<()> {
    show_view(
        out,
        shelves::view_answer(state, first.len(), second.len(), k, block),
    )?;
    show_piece(out, shelves::view(state, first, second, k, block))
}

// With the medium cut after disk k-1. One that ends before that is the first shelf.
pub fn view(
    out: &mut impl Write,
    state: Volume,
    medium: &[u8],
    block: Block,
    k: usize,
) -> io::Result<()> {
    match medium.split_at_checked(cut_after(k, state)) {
        Some((first, second)) => view_shelves(out, state, first, second, block, k),
        None => view_shelves(out, state, medium, b"", block, k),
    }
}

// With shelves of so many bytes of the medium: the first from byte 0 on, the second after disk k-1.
pub fn view_of_lengths(
    out: &mut impl Write,
    state: Volume,
    medium: &[u8],
    block: Block,
    k: usize,
    first: usize,
    second: usize,
) -> io::Result<()> {
    let front = medium.get(..first);
    let back = medium
        .get(cut_after(k, state)..)
        .and_then(|rest| rest.get(..second));
    match (front, back) {
        (Some(front), Some(back)) => view_shelves(out, state, front, back, block, k),
        _ => write!(out, ": the medium has not so many bytes"),
    }
}
