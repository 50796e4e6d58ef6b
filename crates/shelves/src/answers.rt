// The answer of a view: the tests, and where the block starts.
ghost use Rattle.std.specs.Prelude.{◌≡◌, ◌≤◌, ◌<◌, ◌^◌, true, IfOk, IfErr};
ghost use Rattle.base.specs.declared.Refusal.TheVariants.{BlockNotOpen};
ghost use Rattle.base.specs.Refusals.{refusal, checked};
ghost use Rattle.layout.specs.Tally.{open_blocks, live_spot_of};
ghost use Rattle.medium.specs.Medium.{place};
ghost use Rattle.shelves.specs.Shelves.{start_on_shelf};
ghost use Rattle.volume.specs.Sound.{sound};
ghost use Rattle.volume.specs.States.{tally_of};
ghost use Rattle.shelves.specs.Views.{shelves_table, view_answer};

use super::ViewStart;
use base::Refusal;
use layout::{Block, Spot};
use medium::Geometry;
use volume::Volume;

// Kept: the bytes of both shelves and k are three numbers, as `view_answer`, which others call, takes them.

// The tests of the state and of the shelves.
fn check_shelves(v: &Volume, first: usize, second: usize, k: usize) -> Result<(), Refusal>
    ensures { result ≡ checked (refusal (shelves_table v.now first second k)) }
{
    if !v.is_sound() {
        return Err(Refusal::NotSound);
    }
    let disks = v.disk_count();
    if k == 0 || disks < k {
        return Err(Refusal::OutsideLimits);
    }
    if second < (disks - k) * v.rows * v.size {
        return Err(Refusal::MediumTooShort);
    }
    let g = Geometry {
        size: v.size,
        rows: v.rows,
    };
    if first < g.bytes_needed(k) {
        return Err(Refusal::MediumTooShort);
    }
    Ok(())
}

// The shelf that has spot p, and where it starts there.
fn start_on_shelf(g: Geometry, k: usize, p: Spot) -> ViewStart
    requires size_nonzero { 0 < g.size }
    requires p_bound { place g p < 2 ^ 64 }
    ensures { result ≡ start_on_shelf g k p }
{
    let at = g.place_of(p);
    if p.disk < k {
        return ViewStart::First(at);
    }
    ViewStart::Second(at - g.bytes_needed(k))
}

// The live spot of block x, if it is open.
#[inline(always)]
fn open_spot(v: &Volume, x: Block) -> Result<Spot, Refusal>
    requires { sound v.now ≡ true }
    ensures refused { IfErr result (λ r. (r ≡ BlockNotOpen) × (open_blocks (tally_of v.now) ≤ x.0)) }
    ensures found { IfOk result (λ p. (p ≡ live_spot_of (tally_of v.now) x.0) × (x.0 < open_blocks (tally_of v.now))) }
{
    if v.open_blocks() <= x.0 {
        return Err(Refusal::BlockNotOpen);
    }
    Ok(v.live_spot(x))
}

// Where a view of block x starts, with shelves of so many bytes.
pub fn view_answer(
    v: Volume,
    first: usize,
    second: usize,
    k: usize,
    x: Block,
) -> Result<ViewStart, Refusal>
    ensures { result ≡ view_answer v first second k x.0 }
{
    check_shelves(&v, first, second, k)?;
    let g = Geometry {
        size: v.size,
        rows: v.rows,
    };
    // Kept: whether a growth runs is asked once. Asked for the open blocks and again for the spot, a view at rest takes more
    // instructions than its limit.
    if v.growing == 0 {
        let p = open_spot(&v, x)?;
        return Ok(start_on_shelf(g, k, p));
    }
    let p = open_spot(&v, x)?;
    Ok(start_on_shelf(g, k, p))
}
