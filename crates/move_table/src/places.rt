// The entries of the table, and their places.
ghost use Rattle.std.specs.Prelude.{◌≡◌, get_or};
ghost use Rattle.move_table.specs.Entries.{entries, offset, place_of};

use super::table::MOVES;
use layout::GrowthDisks;

// The entry at a place, which is a disk; 0, which no entry is, where the table has ended.
pub fn disk_at(at: usize) -> usize
    ensures { result ≡ get_or entries at 0 }
{
    usize::from(MOVES.get(at).copied().unwrap_or(0))
}

// The place of the first entry of a growth's pair m, n.
fn first_of_pair(growth: GrowthDisks) -> usize
    ensures { result ≡ offset growth.old growth.added 0 }
{
    let GrowthDisks { old: m, added: n } = growth;
    let k = m + n;
    (k + 1) * k * (k - 1) * (k - 2) / 24 + m * (m - 1) * (m + 3 * n + 1) / 6
}

// The place of the entry of mark j of the growth from m disks by n, if there is such a mark.
pub fn offset(m: usize, n: usize, j: usize) -> Option<usize>
    ensures { result ≡ place_of m n j }
{
    let growth = GrowthDisks::new(m, n)?;
    if growth.old * growth.added <= j {
        return None;
    }
    Some(first_of_pair(growth) + j)
}
