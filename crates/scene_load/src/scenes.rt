// The walk over a lent list of scenes. Thin: it reads each scene and hands its two numbers on.
ghost use Rattle.std.specs.Prelude.{◌≡◌};
ghost use Rattle.scene_load.specs.Loads.{load_of};

use super::blocks::{empty_load, with_scene};
use super::{LoadRefusal, Scene};
use volume::Volume;

// How many blocks of the listed scenes each disk serves.
pub fn load_of(v: Volume, scenes: &[Scene]) -> Result<[usize; 16], LoadRefusal>
    ensures { result ≡ load_of v scenes.now }
{
    let mut served = empty_load(v)?;
    for (place, scene) in scenes.iter().enumerate() {
        with_scene(&v, &mut served, place, scene.first, scene.count)?;
    }
    Ok(served)
}
