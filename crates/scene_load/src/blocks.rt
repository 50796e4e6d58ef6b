// The blocks of one scene, on plain numbers.
ghost use Rattle.std.specs.Prelude.{◌≡◌, true, Ok, Err, IfOk, IfErr};
ghost use Rattle.volume.specs.Sound.{sound};
ghost use Rattle.scene_load.specs.Loads.{is_refused, AllOpen};
ghost use Rattle.scene_load.specs.Steps.{empty_load, with_blocks, with_scene, Usable, NoneWraps};

use super::LoadRefusal;
use layout::Block;
use volume::Volume;

const MOST_SCENES: usize = 65_536;

// Is the scene at this place refused, of a volume with so many open blocks?
fn is_refused(blocks: usize, place: usize, first: usize, count: usize) -> bool
    ensures { result ≡ is_refused blocks place (record { first = first; count = count }) }
{
    if MOST_SCENES <= place || blocks < count {
        return true;
    }
    count != 0 && blocks - count < first
}

// Adds the blocks of a scene to the numbers.
fn with_blocks(v: &Volume, served: &mut [usize; 16], first: usize, count: usize)
    requires sound_state { sound v.now ≡ true }
    requires all_open { AllOpen v.now (record { first = first; count = count }) }
    requires none_wraps { NoneWraps served.old count }
    ensures { served.new ≡ with_blocks v.now served.old (record { first = first; count = count }) }
{
    for j in 0..count {
        let spot = v.live_spot(Block(first + j));
        served[spot.disk] += 1;
    }
}

// The load of no scenes.
pub(crate) fn empty_load(v: Volume) -> Result<[usize; 16], LoadRefusal>
    ensures { result ≡ empty_load v }
{
    if !v.is_sound() {
        return Err(LoadRefusal::NotSound);
    }
    Ok([0; 16])
}

// Adds one scene more, at this place of the list, to the numbers. Where it is refused they stay as they were.
pub(crate) fn with_scene(
    v: &Volume,
    served: &mut [usize; 16],
    place: usize,
    first: usize,
    count: usize,
) -> Result<(), LoadRefusal>
    requires { Usable v.now served.old place }
    ensures refused { IfErr result (λ r. (with_scene v.now served.old place (record { first = first; count = count }) ≡ Err r) × (served.new ≡ served.old)) }
    ensures counted { IfOk result (λ _. with_scene v.now served.old place (record { first = first; count = count }) ≡ Ok served.new) }
{
    if is_refused(v.open_blocks(), place, first, count) {
        return Err(LoadRefusal::NoSuchScene(place));
    }
    with_blocks(v, served, first, count);
    Ok(())
}
