// States as sixteen numbers, in the order of the C header: Z, s, t, N[0] to N[7], growing, w, the recorded and the copied marks, each as a
// word, and what is pending, 1 for a record and 2 for blocks.
use std::io;
use std::io::Write;
use volume::{Pending, Volume};

fn pending_of(word: usize) -> Pending {
    Pending {
        records: word % 2 == 1,
        blocks: word / 2 % 2 == 1,
    }
}

fn pending_word(pending: Pending) -> usize {
    usize::from(pending.records) + 2 * usize::from(pending.blocks)
}

// The state of a line's numbers, if they are sixteen.
pub fn volume_of(numbers: &[usize]) -> Option<Volume> {
    let &[
        size,
        rows,
        growths,
        a,
        b,
        c,
        d,
        e,
        f,
        g,
        h,
        growing,
        window,
        recorded,
        copied,
        pending,
    ] = numbers
    else {
        return None;
    };
    Some(Volume {
        size,
        rows,
        growths,
        counts: [a, b, c, d, e, f, g, h],
        growing,
        window,
        recorded,
        copied,
        pending: pending_of(pending),
    })
}

pub fn state_numbers(v: Volume) -> [usize; 16] {
    let [a, b, c, d, e, f, g, h] = v.counts;
    [
        v.size,
        v.rows,
        v.growths,
        a,
        b,
        c,
        d,
        e,
        f,
        g,
        h,
        v.growing,
        v.window,
        v.recorded,
        v.copied,
        pending_word(v.pending),
    ]
}

fn show(out: &mut impl Write, v: Volume) -> io::Result<()> {
    write!(
        out,
        "; state Z {}, s {}, t {}, N",
        v.size, v.rows, v.growths
    )?;
    for count in v.counts {
        write!(out, " {count}")?;
    }
    write!(out, ", growing {}, w {}", v.growing, v.window)?;
    write!(out, ", recorded {}, copied {}", v.recorded, v.copied)?;
    write!(out, ", pending {}", pending_word(v.pending))
}

// The state after a call, if it is another one than before.
pub fn show_change(out: &mut impl Write, before: Volume, after: Volume) -> io::Result<()> {
    if state_numbers(before) == state_numbers(after) {
        return Ok(());
    }
    show(out, after)?;
    if !after.is_sound() {
        write!(out, ", not sound")?;
    }
    Ok(())
}
