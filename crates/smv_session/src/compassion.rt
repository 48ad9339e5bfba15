// The reply where a strong path of a model is to be found within a node limit.
ghost use Rattle.std.specs.Prelude.{◌≡◌, ◌≤◌, [], ℕ, All, IfOk, List, MatchOption, Option, Some};
ghost use Rattle.std.specs.Prelude.{flat_map, length};
ghost use Rattle.command_words.specs.Asked.{work_asked};
ghost use Rattle.command_words.specs.Listed.{pairs_in};
ghost use Rattle.command_words.specs.Words.{Do, HasLimits};
ghost use Rattle.command_words.specs.declared.command.Job.{Job};
ghost use Rattle.kripke_model.specs.Leaves.{IsModelLeaf};
ghost use Rattle.kripke_model.specs.Reading.{term_of};
ghost use Rattle.smv_outside.specs.Contents.{Contents};
ghost use Rattle.smv_session.specs.Answers.{IsModelReply};
ghost use Rattle.smv_session.specs.Jobs.{NamesLeaves, both_of};
ghost use Rattle.smv_session.specs.Relation.{AreOver, IsBuiltFor};
ghost use Rattle.smv_session.specs.Source.{HasRuled};
ghost use Rattle.smv_texts.specs.Replies.{IsReply};
ghost use Rattle.spec_leaves.specs.Named.{IsFirstOther, NamesLeaf, spec_leaf as leaf_of_spec};
ghost use Rattle.command_replies.specs.Strong.{ArePairs, StrongReply};

use crate::bits::state_bits;
use crate::relation::{held_of, relation};
use crate::work::answer_stop;
use bit_encode::MAX_STATE_BITS;
use command_replies::unknown_strong;
use command_words::{SpecPairs, Work};
use diagram_sets::DiagramSets;
use diagram_sets::laws::state_count_law;
use kripke_model::expressions::Expr;
use kripke_model::models::Ruled;
use region_sets::{SetRefusal, StateSets};
use smv_texts::{Refusal, Reply, refuse};
use spec_leaves::named::{first_other, spec_leaf};
use std::alloc::{AllocError, Global};
use strong_export::finding::{find_strong, tell};
use strong_fair::certificate::Pair;
use trans_parts::Parts;

// ---- the pairs

/// The first of the numbers whose specification isn't there, or holds a path operator.
fn first_unnamed(model: &Ruled, pairs: &SpecPairs) -> Option<u32>
    ensures { MatchOption result (All (NamesLeaf model.now) (flat_map both_of (pairs_in pairs.now)))
        (IsFirstOther model.now (flat_map both_of (pairs_in pairs.now))) }
{
    for place in 0..pairs.len() {
        let (p, q) = pairs.get(place);
        if let Some(spec) = first_other(model, &[p, q]) {
            return Some(spec);
        }
    }
    None
}

/// A copy of the expression of specification j, which holds no path operator.
fn leaf_copy(alloc: Global, model: &Ruled, j: u32) -> Result<Expr, AllocError>
    requires { NamesLeaf model.now j }
    ensures leaf { IfOk result (λ expr. leaf_of_spec model.now j ≡ Some (term_of expr)) }
    ensures of_model { IfOk result (λ expr. IsModelLeaf model.now (term_of expr)) }
{
    let Some(expr) = spec_leaf(model, j) else {
        unreachable!()
    };
    expr.copy(alloc)
}

/// The pair of expressions of two specifications, which hold no path operator.
fn pair_of(alloc: Global, model: &Ruled, p: u32, q: u32) -> Result<Pair, AllocError>
    requires p { NamesLeaf model.now p }
    requires q { NamesLeaf model.now q }
    ensures p { IfOk result (λ pair. leaf_of_spec model.now p ≡ Some pair.p) }
    ensures q { IfOk result (λ pair. leaf_of_spec model.now q ≡ Some pair.q) }
    ensures of_model { IfOk result (λ pair. IsModelLeaf model.now pair.p
        × IsModelLeaf model.now pair.q) }
{
    let p = leaf_copy(alloc, model, p)?;
    let q = leaf_copy(alloc, model, q)?;
    Ok(Pair { p, q })
}

/// The pairs of expressions that the numbers name.
fn pairs_of(alloc: Global, model: &Ruled, numbers: &SpecPairs) -> Result<Vec<Pair>, AllocError>
    requires { All (NamesLeaf model.now) (flat_map both_of (pairs_in numbers.now)) }
    ensures are { IfOk result (λ pairs. ArePairs model.now (pairs_in numbers.now) pairs.items) }
    ensures of_model { IfOk result (λ pairs. All (λ pair. IsModelLeaf model.now pair.p
        × IsModelLeaf model.now pair.q) pairs.items) }
    ensures few { IfOk result (λ pairs. length pairs.items ≤ 16) }
{
    let mut pairs = Vec::new(alloc);
    for place in 0..numbers.len() {
        let (p, q) = numbers.get(place);
        pairs.push(pair_of(alloc, model, p, q)?)?;
    }
    Ok(pairs)
}

// ---- the replies

/// The reply for pairs of leaves, over the sets of a model without faults, which were only just built in a store of this
/// limit.
fn find_over<'a>(
    alloc: Global,
    model: &Ruled,
    limit: u32,
    sets: &mut DiagramSets,
    pairs: &[Pair],
) -> Result<Reply<'a>, AllocError>
    requires ready { IsBuiltFor model.now limit (⟦<DiagramSets as StateSets>⟧.seen sets.old) }
    requires few { length pairs.now ≤ 16 }
    requires leaves { All (λ pair. IsModelLeaf model.now pair.p
        × IsModelLeaf model.now pair.q) pairs.now }
    ensures { (numbers : List (ℕ × ℕ)) → ArePairs model.now numbers pairs.now
        → IfOk result (IsReply (StrongReply model.now limit numbers)) }
{
    state_count_law(model);
    match find_strong(alloc, sets, model, pairs) {
        Ok(found) => tell(alloc, model, &found),
        Err(SetRefusal::Full { held }) => unknown_strong(alloc, limit, held),
        Err(SetRefusal::Memory) => Err(AllocError),
    }
}

/// The same for the pairs that the numbers name, which hold no path operator.
fn find_named<'a>(
    alloc: Global,
    model: &Ruled,
    limit: u32,
    sets: &mut DiagramSets,
    numbers: &SpecPairs,
) -> Result<Reply<'a>, AllocError>
    requires ready { IsBuiltFor model.now limit (⟦<DiagramSets as StateSets>⟧.seen sets.old) }
    requires names { All (NamesLeaf model.now) (flat_map both_of (pairs_in numbers.now)) }
    ensures { IfOk result (IsReply (StrongReply model.now limit (pairs_in numbers.now))) }
{
    let pairs = pairs_of(alloc, model, numbers)?;
    find_over(alloc, model, limit, sets, &pairs)
}

/// The same for a model without faults whose relation these parts are, with the variables in declared order, in a store of
/// this limit.
fn find_for<'a>(
    alloc: Global,
    model: &Ruled,
    limit: u32,
    parts: Parts,
    numbers: &SpecPairs,
) -> Result<Reply<'a>, AllocError>
    requires parts { AreOver model.now limit parts }
    requires names { All (NamesLeaf model.now) (flat_map both_of (pairs_in numbers.now)) }
    ensures { IfOk result (IsReply (StrongReply model.now limit (pairs_in numbers.now))) }
{
    let mut sets = DiagramSets::new(alloc, parts);
    find_named(alloc, model, limit, &mut sets, numbers)
}

/// The reply where a strong path of the model is to be found, for the pairs of these specifications, which are counted
/// from 1.
pub(crate) fn answer_strong<'a>(
    alloc: Global,
    work: Work<'_>,
    model: &Ruled,
    pairs: &SpecPairs,
) -> Result<Reply<'a>, AllocError>
    requires limits { HasLimits (Do (work_asked work)) }
    requires job { work.job ≡ Job.Strong pairs.now }
    ensures { (contents : Option Contents) (bytes : List ℕ) → HasRuled bytes model.now
        → IfOk result (IsReply (IsModelReply (work_asked work.entry) contents bytes)) }
{
    let bits = state_bits(model);
    if bits > MAX_STATE_BITS {
        return refuse(alloc, &Refusal::TooManyBits { bits });
    }
    match first_unnamed(model, pairs) {
        Some(spec) => refuse(alloc, &Refusal::NoLeaf { spec }),
        None => answer_named(alloc, work, model, pairs),
    }
}

/// The same, where the specifications hold no path operator.
fn answer_named<'a>(
    alloc: Global,
    work: Work<'_>,
    model: &Ruled,
    pairs: &SpecPairs,
) -> Result<Reply<'a>, AllocError>
    requires limits { HasLimits (Do (work_asked work)) }
    requires job { work.job ≡ Job.Strong pairs.now }
    requires names { NamesLeaves (work_asked work).job model.now }
    ensures { (contents : Option Contents) (bytes : List ℕ) → HasRuled bytes model.now
        → IfOk result (IsReply (IsModelReply (work_asked work.entry) contents bytes)) }
{
    match relation(alloc, model, work.limit) {
        Ok(parts) => find_for(alloc, model, work.limit, parts, pairs),
        Err(refusal) => match held_of(model, work.limit, refusal) {
            Ok(held) => unknown_strong(alloc, work.limit, held),
            Err(stop) => answer_stop(alloc, work, model, stop),
        },
    }
}
