// Charts, in a page that holds 170 in each byte before the call.
use super::answers::{show_changed, show_used};
use base::Refusal;
use std::io;
use std::io::Write;

const MOST_PAGE: usize = 4_096;

// Puts a chart into a page of so many bytes, and shows it and which bytes changed.
pub fn chart<F: FnOnce(&mut [u8]) -> Result<usize, Refusal>>(
    out: &mut impl Write,
    len: usize,
    put: F,
) -> io::Result<()>
    requires { F.IsAlwaysCallable put }
{
    let untouched = [170; MOST_PAGE];
    let mut space = untouched;
    let Some(page) = space.get_mut(..len) else {
        return write!(out, ": a page has at most 4,096 bytes");
    };
    let answer = put(page);
    show_used(out, answer)?;
    show_changed(out, ", page", &untouched, page)?;
    match answer.ok().and_then(|used| page.get(..used)) {
        None | Some([]) => Ok(()),
        Some(text) => {
            writeln!(out)?;
            out.write_all(text)
        }
    }
}
