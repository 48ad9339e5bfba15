//! What the search for delays finds in a model, and whether its proof holds.

ghost use Rattle.std.specs.Prelude.{◌≡◌, []};
ghost use Rattle.kripke_model.specs.Leaves.{IsModelLeaf};
ghost use Rattle.kripke_model.specs.Reading.{term_of};
ghost use Rattle.region_sets.specs.Sets.{Adds};

use delay_bounds::proof::{DelayProof, Longest, Shortest};
use delay_bounds::testing::delay_holds;
use delay_search::finding::delays;
use kripke_model::expressions::Expr;
use kripke_model::models::Ruled;
use region_sets::{SetRefusal, StateSets};
use std::alloc::Global;

/// A delay: so many steps, or no number; or there is no start.
#[derive(Clone, Copy, PartialEq, Eq)]
pub enum Delay {
    NoStart,
    Never,
    Steps(usize),
}

/// What was found.
#[derive(Clone, Copy)]
pub struct Found {
    pub shortest: Delay,
    pub longest: Delay,
    /// Whether the proof shows both.
    pub holds: bool,
}

fn shortest_in(proof: &DelayProof) -> Delay {
    match &proof.shortest {
        Shortest::NoStart { .. } => Delay::NoStart,
        Shortest::Never { .. } => Delay::Never,
        Shortest::Steps { back, .. } => Delay::Steps(back.len()),
    }
}

/// The longest delay of a proof, whose list of sets has a set more.
fn longest_in(proof: &DelayProof) -> Delay {
    match &proof.longest {
        Longest::NoStart { .. } => Delay::NoStart,
        Longest::Endless { .. } => Delay::Never,
        Longest::Steps { stay, .. } => Delay::Steps(stay.len().saturating_sub(1)),
    }
}

/// What is found of the two delays. No pin is left.
pub fn found_between<S: StateSets>(
    alloc: Global,
    sets: &mut S,
    model: &Ruled,
    from: &Expr,
    to: &Expr,
) -> Result<Found, SetRefusal>
    requires over { (S.seen sets.old).over ≡ model.now }
    requires from { IsModelLeaf model.now (term_of from.now) }
    requires to { IsModelLeaf model.now (term_of to.now) }
    ensures { Adds (S.seen sets.old) (S.seen sets.new) [] }
{
    let proof = delays(alloc, sets, model, from, to)?;
    let holds = delay_holds(sets, model, from, to, &proof);
    let shortest = shortest_in(&proof);
    let longest = longest_in(&proof);
    proof.release(sets);
    let holds = holds?;
    Ok(Found {
        shortest,
        longest,
        holds,
    })
}
