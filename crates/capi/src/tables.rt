// The printed table of moves.
ghost use Rattle.std.specs.Prelude.{◌≡◌};
ghost use Rattle.capi.specs.Exported.{table_move_left};
ghost use Rattle.capi.specs.Figures.{table_move_figures};

use super::{TABLE_MOVE_FIGURES, WRONG_LENGTH};

#[tactic(auto, unfolding(crate::specs::Figures::table_move_figures))]
fn table_move_figures(place: Option<usize>) -> [usize; 2]
    ensures { result ≡ table_move_figures place }
{
    match place {
        Some(at) => [at, move_table::disk_at(at)],
        None => [0, 0],
    }
}

// The table's entry for a mark of the growth from m disks by n: its offset, and the new disk.
#[unsafe(no_mangle)]
pub extern "C" fn streterva_table_move(
    m: usize,
    n: usize,
    mark: usize,
    figures: &mut [usize],
) -> usize
    ensures value { result ≡ (table_move_left m n mark figures.old).number }
    ensures figures_after { figures.new ≡ (table_move_left m n mark figures.old).figures }
{
    if figures.len() != TABLE_MOVE_FIGURES {
        return WRONG_LENGTH;
    }
    figures.copy_from_slice(&table_move_figures(move_table::offset(m, n, mark)));
    0
}
