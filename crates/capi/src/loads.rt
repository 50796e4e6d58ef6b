// The load of a scene list. The walk over the lent scenes is `scene_load`'s; what is tested and put stands in functions on plain
// numbers, so that the exported one only calls.
ghost use Rattle.std.specs.Prelude.{◌≡◌, cond};
ghost use Rattle.scene_load.specs.Loads.{load_number, place_told, served_told};
ghost use Rattle.capi.specs.Exported.{wrong_length, state_fits, state_taken, load_left};
ghost use Rattle.capi.specs.Figures.{load_figures};

use super::words::{state_beside, state_of};
use super::{LOAD_FIGURES, WRONG_LENGTH};
use scene_load::{LoadRefusal, Scene};
use volume::Volume;

// The state of words, or the state of zeros where they are no state's.
fn state_or_zeros(words: &[usize]) -> Volume
    ensures { result ≡ state_taken words.now }
{
    state_of(words).unwrap_or(Volume::zeros())
}

// The number of a load. Kept: beside `figures::number`, since the refusals of a load are of a type of their own.
#[tactic(auto, unfolding(scene_load::specs::Loads::load_number))]
fn load_number(load: &Result<[usize; 16], LoadRefusal>) -> usize
    ensures { result ≡ load_number load.now }
{
    match load {
        Ok(_) => 0,
        Err(refusal) => refusal.number(),
    }
}

// The place that a load tells.
#[tactic(auto, unfolding(scene_load::specs::Loads::place_told))]
fn place_told(load: &Result<[usize; 16], LoadRefusal>) -> usize
    ensures { result ≡ place_told load.now }
{
    match load {
        Ok(_) | Err(LoadRefusal::NotSound) => 0,
        Err(LoadRefusal::NoSuchScene(place)) => *place,
    }
}

// Puts the figures of a load, and gives its number.
fn hand_load(
    state: &[usize],
    load: Result<[usize; 16], LoadRefusal>,
    figures: &mut [usize],
) -> usize
    ensures { (result ≡ cond (state_fits state.now 17 figures.old) (load_number load) wrong_length)
        × (figures.new ≡ cond (state_fits state.now 17 figures.old) (load_figures load) figures.old) }
{
    let Some(_) = state_beside(state, figures.len(), LOAD_FIGURES) else {
        return WRONG_LENGTH;
    };
    figures[0] = place_told(&load);
    figures[1..].copy_from_slice(&load.unwrap_or([0; 16]));
    load_number(&load)
}

// How many blocks of the listed scenes each disk serves.
#[unsafe(no_mangle)]
pub extern "C" fn streterva_load(state: &[usize], scenes: &[Scene], figures: &mut [usize]) -> usize
    ensures { (result ≡ (load_left state.now scenes.now figures.old).number)
        × (figures.new ≡ (load_left state.now scenes.now figures.old).figures) }
{
    let v = state_or_zeros(state);
    let load = scene_load::load_of(v, scenes);
    hand_load(state, load, figures)
}
