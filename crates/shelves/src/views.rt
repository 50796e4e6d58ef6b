// A block as a part of a shelf.
ghost use Rattle.std.specs.Prelude.{◌≡◌, ◌+◌, ◌≤◌, length, take, drop};
ghost use Rattle.shelves.specs.Views.{view_of};

use super::ViewStart;
use super::answers::view_answer;
use layout::Block;
use volume::Volume;

// The block of so many bytes that starts at a byte of a shelf.
fn part_at<'a>(shelf: &'a [u8], at: usize, size: usize) -> &'a [u8]
    requires { at + size ≤ length shelf.now }
    ensures { result.now ≡ take size (drop at shelf.now) }
{
    &shelf[at..at + size]
}

// Block x as a part of the shelf that has it; an empty part of the first where the view is refused.
pub fn view<'a>(v: Volume, first: &'a [u8], second: &'a [u8], k: usize, x: Block) -> &'a [u8]
    ensures { result.now ≡ view_of v first.now second.now k x.0 }
{
    match view_answer(v, first.len(), second.len(), k, x) {
        Err(_) => part_at(first, 0, 0),
        Ok(ViewStart::First(at)) => part_at(first, at, v.size),
        Ok(ViewStart::Second(at)) => part_at(second, at, v.size),
    }
}
