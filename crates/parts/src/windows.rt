// Windows and marks of the newest growth, asked of the layout behind run-time tests: `grown` and `window_of` make them.
ghost use Rattle.std.specs.Prelude.{◌<◌, IfSome};
ghost use Rattle.layout.specs.History.{history, old_count, added_count};
ghost use Rattle.layout.specs.Windows.{windows};

use layout::History;
use std::io;
use std::io::Write;
use volume::Volume;
use window::Window;

// Counts as the eight of a state: zeros after the last.
fn eight(counts: &[usize]) -> Option<[usize; 8]> {
    let mut all = [0; 8];
    all.get_mut(..counts.len())?.copy_from_slice(counts);
    Some(all)
}

// The history of the first counts, so many, if it is within the limits and has a growth.
fn grown(counts: &[usize; 8], count: usize, rows: usize) -> Option<History<'_>>
    ensures { IfSome result (λ h. 0 < h.growths) }
{
    let growths = count.checked_sub(1)?;
    if growths == 0 || Volume::MOST_GROWTHS < growths {
        return None;
    }
    if rows < Volume::LEAST_ROWS || Volume::MOST_ROWS < rows {
        return None;
    }
    if Volume::MOST_DISKS < counts[growths] || !marks::counts_rise(counts, growths) {
        return None;
    }
    Some(History {
        counts,
        growths,
        rows,
    })
}

// A window of the newest growth, if there is one of that number.
fn window_of(h: History, number: usize) -> Option<Window>
    requires { 0 < h.growths }
    ensures { IfSome result (λ _. let all = history h.entry.growths h.entry.counts.now in number < windows (old_count all) (added_count all) h.entry.rows) }
{
    let growth = h.newest_growth();
    if window::window_count(growth, h.rows) <= number {
        return None;
    }
    Some(Window {
        growth,
        rows: h.rows,
        number,
    })
}

// Is j a mark of the window whose row exists, and also the mark of the spot of mark j.
fn mark_agrees(window: Window, j: usize) -> bool {
    let growth = window.growth;
    if growth.old * growth.added <= j {
        return false;
    }
    window.row_exists(j) && window::mark_of_spot(growth, window.spot_of_mark(j)) == j
}

// The marks of the window whose rows exist and that their spots lead back to.
fn marks_found(window: Window) -> usize {
    (0..64).filter(|&j| mark_agrees(window, j)).count()
}

// The windows of the newest growth, and the moves of the first and of the last. The numbers are the disk counts and the rows.
pub fn show_windows(out: &mut impl Write, numbers: &[usize]) -> io::Result<()> {
    let [counts @ .., rows] = numbers else {
        return Ok(());
    };
    let Some(all) = eight(counts) else {
        return Ok(());
    };
    let Some(h) = grown(&all, counts.len(), *rows) else {
        return write!(out, "no growth");
    };
    let windows = window::window_count(h.newest_growth(), h.rows);
    let Some(end) = windows.checked_sub(1) else {
        return Ok(());
    };
    let first = window::moves_of_window(h, 0);
    let last = window::moves_of_window(h, end);
    write!(
        out,
        "windows {windows}, moves of the first {first}, of the last {last}"
    )
}

// The moves of a window of the newest growth, and its marks that their spots lead back to. The numbers are the disk counts, the rows
// and the window's.
pub fn show_marks(out: &mut impl Write, numbers: &[usize]) -> io::Result<()> {
    let [counts @ .., rows, number] = numbers else {
        return Ok(());
    };
    let Some(all) = eight(counts) else {
        return Ok(());
    };
    let Some(h) = grown(&all, counts.len(), *rows) else {
        return write!(out, "no such window");
    };
    let Some(window) = window_of(h, *number) else {
        return write!(out, "no such window");
    };
    let moves = window::moves_of_window(h, *number);
    let found = marks_found(window);
    write!(out, "moves {moves}, marks found from their spots {found}")
}
