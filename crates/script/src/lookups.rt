// Address and holder of many blocks.
use layout::{Block, Part, Reason};
use std::io;
use std::io::Write;
use volume::Volume;

// What address and holder tell of a block.
#[derive(Clone, Copy, PartialEq, Eq)]
enum Kind {
    // Address refuses it.
    Refused,
    // Holder does not give it at its spot.
    NotHeld,
    SetOut,
    Added,
    Moved(Part),
}

const KINDS: [Kind; 7] = [
    Kind::Refused,
    Kind::NotHeld,
    Kind::SetOut,
    Kind::Added,
    Kind::Moved(Part::Head),
    Kind::Moved(Part::Body),
    Kind::Moved(Part::Tail),
];

impl From<Reason> for Kind {
    fn from(reason: Reason) -> Self {
        match reason {
            Reason::SetOut => Kind::SetOut,
            Reason::AddedBy(_) => Kind::Added,
            Reason::MovedBy(_, part) => Kind::Moved(part),
        }
    }
}

fn kind_of(state: Volume, block: Block) -> Kind {
    match state.address(block).answer {
        Err(_) => Kind::Refused,
        Ok(address) if state.holder(address.spot).answer == Ok(block) => Kind::from(address.reason),
        Ok(_) => Kind::NotHeld,
    }
}

fn was_moved_by(state: Volume, block: Block, growths: usize) -> bool {
    let answer = state.address(block).answer;
    answer.is_ok_and(|address| address.moves == growths)
}

// How many blocks below `end` are refused, not found again by holder, set out at format, added, and moved as head, body and tail.
pub fn addresses(out: &mut impl Write, state: Volume, end: usize) -> io::Result<()> {
    write!(out, ":")?;
    for kind in KINDS {
        let count = (0..end)
            .filter(|&x| kind_of(state, Block(x)) == kind)
            .count();
        write!(out, " {count}")?;
    }
    Ok(())
}

// How many blocks below `end` were moved by 0 growths, by 1, and so on up to 7. A block that is refused is not counted.
pub fn moves(out: &mut impl Write, state: Volume, end: usize) -> io::Result<()> {
    write!(out, ":")?;
    for growths in 0..8 {
        let count = (0..end)
            .filter(|&x| was_moved_by(state, Block(x), growths))
            .count();
        write!(out, " {count}")?;
    }
    Ok(())
}
