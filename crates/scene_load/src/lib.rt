// The load of a scene list: document 02, W2. How many blocks of a lent list of scenes each disk serves.
//
// `load_of` is offered to others and takes any input. What has a `requires` is seen in this crate alone.
#![tactic(auto)]

ghost use Rattle.std.specs.Prelude.{◌≡◌};
ghost use Rattle.scene_load.specs.Loads.{load_refusal_number};

mod blocks;
mod scenes;

use base::Refusal;
pub use scenes::load_of;

// A scene: a first block and a count of blocks.
#[repr(C)]
#[derive(Clone, Copy)]
pub struct Scene {
    pub first: usize,
    pub count: usize,
}

// Why a list is refused.
#[derive(Clone, Copy, PartialEq, Eq, Debug)]
pub enum LoadRefusal {
    // The state is not sound.
    NotSound,
    // A scene reaches past the open blocks, or stands too far back: the place of the first such scene, counted from 0.
    NoSuchScene(usize),
}

impl LoadRefusal {
    // Its number in document 02.
    pub fn number(self) -> usize
        ensures { result ≡ load_refusal_number self }
    {
        match self {
            LoadRefusal::NotSound => Refusal::NotSound.number(),
            LoadRefusal::NoSuchScene(_) => Refusal::NoSuchScene.number(),
        }
    }
}
