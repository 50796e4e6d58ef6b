// Answers as numbers and figures.
ghost use Rattle.std.specs.Prelude.{◌≡◌, [], ◌∷◌};
ghost use Rattle.std.proofs.Math.Option.{some};
ghost use Rattle.volume.specs.Answers.{number, calls_told, copied_block, copied_part, block_told};
ghost use Rattle.capi.specs.Figures.{part_number, did_number, advance_figures, reason_figures, address_figures, view_figures};

use base::Refusal;
use layout::{Address, Block, Part, Reason};
use shelves::ViewStart;
use volume::{Advanced, Told};

// The number of an answer: its refusal's, or 0 where the call was accepted.
// Kept: plain numbers, as all figures below: the C interface has them.
#[tactic(auto, unfolding(volume::specs::Answers::number))]
pub fn number<T>(answer: &Result<T, Refusal>) -> usize
    ensures { result ≡ number answer.now }
{
    match answer {
        Ok(_) => 0,
        Err(refusal) => refusal.number(),
    }
}

// The advance calls left that an answer reports.
#[tactic(auto, unfolding(volume::specs::Answers::calls_told))]
pub fn calls_told(answer: Result<Told, Refusal>) -> usize
    ensures { result ≡ calls_told answer }
{
    match answer {
        Err(_) | Ok(Told::Done) => 0,
        Ok(Told::CallsLeft(n)) => n,
        Ok(Told::Advanced(_, n)) => n,
    }
}

#[tactic(auto, unfolding(crate::specs::Figures::part_number))]
fn part_number(part: Part) -> usize
    ensures { result ≡ part_number (some part) }
{
    match part {
        Part::Head => 1,
        Part::Body => 2,
        Part::Tail => 3,
    }
}

#[tactic(auto, unfolding(crate::specs::Figures::did_number, crate::specs::Figures::part_number, volume::specs::Answers::copied_block, volume::specs::Answers::copied_part))]
fn did_figures(did: Advanced) -> [usize; 3]
    ensures { result ≡ did_number did ∷ copied_block did ∷ part_number (copied_part did) ∷ [] }
{
    match did {
        Advanced::Copied(x, part) => [1, x.0, part_number(part)],
        Advanced::Recorded => [2, 0, 0],
        Advanced::Finished => [3, 0, 0],
    }
}

// The figures of an advance.
#[tactic(auto, unfolding(crate::specs::Figures::did_told, crate::specs::Figures::part_number, volume::specs::Answers::calls_told, volume::specs::Answers::block_copied, volume::specs::Answers::part_copied))]
pub fn advance_figures(answer: Result<Told, Refusal>) -> [usize; 4]
    ensures { result ≡ advance_figures answer }
{
    match answer {
        Err(_) => [0, 0, 0, 0],
        Ok(Told::Done) => [0, 0, 0, 0],
        Ok(Told::CallsLeft(n)) => [n, 0, 0, 0],
        Ok(Told::Advanced(did, n)) => {
            let [what, block, part] = did_figures(did);
            [n, what, block, part]
        }
    }
}

#[tactic(auto, unfolding(crate::specs::Figures::reason_number, crate::specs::Figures::part_number, layout::specs::Reasons::growth_told, volume::specs::Answers::part_told))]
fn reason_figures(reason: Reason) -> [usize; 3]
    ensures { result ≡ reason_figures reason }
{
    match reason {
        Reason::SetOut => [1, 0, 0],
        Reason::AddedBy(growth) => [2, growth, 0],
        Reason::MovedBy(growth, part) => [3, growth, part_number(part)],
    }
}

// The figures of address.
#[tactic(auto, unfolding(crate::specs::Figures::address_figures))]
pub fn address_figures(answer: Result<Address, Refusal>) -> [usize; 6]
    ensures { result ≡ address_figures answer }
{
    match answer {
        Err(_) => [0, 0, 0, 0, 0, 0],
        Ok(found) => {
            let [why, growth, part] = reason_figures(found.reason);
            let spot = found.spot;
            [spot.disk, spot.row.0, why, growth, part, found.moves]
        }
    }
}

// The block that holder tells.
#[tactic(auto, unfolding(volume::specs::Answers::block_told))]
pub fn block_told(answer: Result<Block, Refusal>) -> usize
    ensures { result ≡ block_told answer }
{
    match answer {
        Ok(x) => x.0,
        Err(_) => 0,
    }
}

// The figures of view.
#[tactic(auto, unfolding(crate::specs::Figures::view_figures))]
pub fn view_figures(answer: Result<ViewStart, Refusal>) -> [usize; 2]
    ensures { result ≡ view_figures answer }
{
    match answer {
        Err(_) => [0, 0],
        Ok(ViewStart::First(at)) => [1, at],
        Ok(ViewStart::Second(at)) => [2, at],
    }
}
