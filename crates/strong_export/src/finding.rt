//! The search for a strong path over diagrams, and the reply that tells what it gave.

ghost use Rattle.std.specs.Prelude.{◌≡◌, ◌≤◌, [], ℕ, All, IfOk, List, length};
ghost use Rattle.command_replies.specs.Strong.{ArePairs, StrongReply};
ghost use Rattle.fair_fixpoint.specs.Fairness.{AreConstraints};
ghost use Rattle.kripke_model.specs.Leaves.{IsModelLeaf};
ghost use Rattle.proof_text.specs.Written.{own_order};
ghost use Rattle.region_sets.specs.Ranks.{AreLive, regions, slots};
ghost use Rattle.region_sets.specs.Sets.{IsCall};
ghost use Rattle.smv_texts.specs.Replies.{IsReply};
ghost use Rattle.strong_export.specs.Finding.{IsFound, search_pins, strong_pins};
ghost use Rattle.strong_fair.specs.Strong.{Pair as Conditions};

use crate::writing::export_certificate;
use command_replies::{NodeCertificate, tell_none, tell_path};
use diagram_sets::DiagramSets;
use fair_fixpoint::constraints::{Constraints, constraint_sets};
use kripke_model::models::Ruled;
use kripke_model::states::Lasso;
use region_sets::{SetRefusal, StateSets};
use smv_texts::Reply;
use std::alloc::{AllocError, Global};
use strong_fair::certificate::Pair;
use strong_search::answer::StrongAnswer;
use strong_search::finding::strong;

/// What the search gave.
#[derive(Drop)]
pub enum Found {
    /// A strong path.
    Path(Lasso),
    /// There is none, as this shows.
    None(NodeCertificate),
}

/// A strong path, or a certificate that there is none, over the sets. No set is live after the call that was not before.
fn search(
    alloc: Global,
    sets: &mut DiagramSets,
    model: &Ruled,
    constraints: &Constraints,
    pairs: &[Pair],
) -> Result<Found, SetRefusal>
    requires over { (⟦<DiagramSets as StateSets>⟧.seen sets.old).over ≡ model.now }
    requires order { (⟦<DiagramSets as StateSets>⟧.seen sets.old).gauge.order
        ≡ own_order model.now }
    requires few { length pairs.now ≤ 16 }
    requires leaves { All (λ pair. IsModelLeaf model.now pair.p
        × IsModelLeaf model.now pair.q) pairs.now }
    requires live { AreLive (⟦<DiagramSets as StateSets>⟧.seen sets.old)
        (slots constraints.now.visits.items) }
    requires made { AreConstraints model.now
        (regions (⟦<DiagramSets as StateSets>⟧.seen sets.old) constraints.now.visits.items) }
    ensures call { IsCall (search_pins model.now) (⟦<DiagramSets as StateSets>⟧.seen sets.old)
        (⟦<DiagramSets as StateSets>⟧.seen sets.new) [] result }
    ensures found { IfOk result (IsFound model.now pairs.now) }
{
    match strong(alloc, sets, model, constraints, pairs)? {
        StrongAnswer::Loop(path) => Ok(Found::Path(path)),
        StrongAnswer::Closed(certificate) => {
            let over = export_certificate(alloc, sets, certificate)?;
            Ok(Found::None(over))
        }
    }
}

/// A strong path, or a certificate that there is none, over the sets, with the sets of the constraints, which are released. No
/// set is live after the call that was not before.
pub fn find_strong(
    alloc: Global,
    sets: &mut DiagramSets,
    model: &Ruled,
    pairs: &[Pair],
) -> Result<Found, SetRefusal>
    requires over { (⟦<DiagramSets as StateSets>⟧.seen sets.old).over ≡ model.now }
    requires order { (⟦<DiagramSets as StateSets>⟧.seen sets.old).gauge.order
        ≡ own_order model.now }
    requires few { length pairs.now ≤ 16 }
    requires leaves { All (λ pair. IsModelLeaf model.now pair.p
        × IsModelLeaf model.now pair.q) pairs.now }
    ensures call { IsCall (strong_pins model.now) (⟦<DiagramSets as StateSets>⟧.seen sets.old)
        (⟦<DiagramSets as StateSets>⟧.seen sets.new) [] result }
    ensures found { IfOk result (IsFound model.now pairs.now) }
{
    let constraints = constraint_sets(alloc, sets, model)?;
    let found = search(alloc, sets, model, &constraints, pairs);
    constraints.release(sets);
    found
}

/// The reply that tells what was found.
pub fn tell<'a>(alloc: Global, model: &Ruled, found: &Found) -> Result<Reply<'a>, AllocError>
    ensures { (limit : ℕ) (numbers : List (ℕ × ℕ)) (pairs : List Conditions)
        → ArePairs model.now numbers pairs → IsFound model.now pairs found.now
        → IfOk result (IsReply (StrongReply model.now limit numbers)) }
{
    match found {
        Found::Path(path) => tell_path(alloc, model, path),
        Found::None(certificate) => tell_none(alloc, certificate),
    }
}
