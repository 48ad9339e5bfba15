// The delays of a model within a node limit.
ghost use Rattle.std.specs.Prelude.{◌≡◌, ◌*◌, ◌+◌, [], ℕ, IfOk, List, Option};
ghost use Rattle.command_words.specs.Asked.{work_asked};
ghost use Rattle.command_words.specs.Words.{Do, HasLimits};
ghost use Rattle.command_words.specs.declared.command.Job.{Job};
ghost use Rattle.command_replies.specs.Delayed.{AreDelays, Delayed};
ghost use Rattle.command_replies.specs.SeenDelays.{delay_of};
ghost use Rattle.path_laws.specs.StateCount.{state_count};
ghost use Rattle.region_sets.specs.Sets.{IsCall};
ghost use Rattle.smv_outside.specs.Contents.{Contents};
ghost use Rattle.smv_session.specs.Answers.{IsModelReply};
ghost use Rattle.smv_session.specs.Jobs.{NamesLeaves};
ghost use Rattle.smv_session.specs.Relation.{AreOver, IsBuiltFor};
ghost use Rattle.smv_session.specs.Source.{HasRuled};
ghost use Rattle.smv_texts.specs.Replies.{IsReply};
ghost use Rattle.spec_leaves.specs.Named.{NamesLeaf};

use crate::bits::state_bits;
use crate::relation::{held_of, relation};
use crate::work::answer_stop;
use bit_encode::MAX_STATE_BITS;
use command_replies::{Delay, delayed, unknown_delays};
use command_words::Work;
use delay_search::finding::delays;
use diagram_sets::DiagramSets;
use diagram_sets::laws::state_count_law;
use kripke_model::models::Ruled;
use region_sets::{SetRefusal, StateSets};
use smv_texts::{Refusal, Reply, refuse};
use spec_leaves::named::{first_other, spec_leaf};
use std::alloc::{AllocError, Global};
use trans_parts::Parts;

/// The two delays.
#[derive(Clone, Copy)]
struct Found {
    shortest: Delay,
    longest: Delay,
}

/// The two delays, over the sets. No set is live after the call that was not before.
fn find_delays(
    alloc: Global,
    sets: &mut DiagramSets,
    model: &Ruled,
    from: u32,
    to: u32,
) -> Result<Found, SetRefusal>
    requires over { (⟦<DiagramSets as StateSets>⟧.seen sets.old).over ≡ model.now }
    requires from { NamesLeaf model.now from }
    requires to { NamesLeaf model.now to }
    ensures call { IsCall (6 * state_count model.now + 32)
        (⟦<DiagramSets as StateSets>⟧.seen sets.old) (⟦<DiagramSets as StateSets>⟧.seen sets.new)
        [] result }
    ensures found { IfOk result (λ found. AreDelays model.now from to (delay_of found.shortest)
        (delay_of found.longest)) }
{
    let (Some(start), Some(goal)) = (spec_leaf(model, from), spec_leaf(model, to)) else {
        unreachable!()
    };
    let proof = delays(alloc, sets, model, start, goal)?;
    let found = Found {
        shortest: Delay::shortest(&proof.shortest),
        longest: Delay::longest(&proof.longest),
    };
    proof.release(sets);
    Ok(found)
}

/// The reply over the sets of a model without faults, which were only just built in a store of this limit. Both
/// specifications, counted from 1, hold no path operator.
fn delay_over<'a>(
    alloc: Global,
    model: &Ruled,
    limit: u32,
    sets: &mut DiagramSets,
    from: u32,
    to: u32,
) -> Result<Reply<'a>, AllocError>
    requires ready { IsBuiltFor model.now limit (⟦<DiagramSets as StateSets>⟧.seen sets.old) }
    requires from { NamesLeaf model.now from }
    requires to { NamesLeaf model.now to }
    ensures { IfOk result (IsReply (Delayed model.now limit from to)) }
{
    state_count_law(model);
    match find_delays(alloc, sets, model, from, to) {
        Ok(found) => delayed(alloc, from, to, found.shortest, found.longest),
        Err(SetRefusal::Full { held }) => unknown_delays(alloc, from, to, limit, held),
        Err(SetRefusal::Memory) => Err(AllocError),
    }
}

/// The reply for a model without faults whose relation these parts are, with the variables in declared order,
/// in a store of this limit. Both specifications, counted from 1, hold no path operator.
fn delay<'a>(
    alloc: Global,
    model: &Ruled,
    limit: u32,
    parts: Parts,
    from: u32,
    to: u32,
) -> Result<Reply<'a>, AllocError>
    requires parts { AreOver model.now limit parts }
    requires from { NamesLeaf model.now from }
    requires to { NamesLeaf model.now to }
    ensures { IfOk result (IsReply (Delayed model.now limit from to)) }
{
    let mut sets = DiagramSets::new(alloc, parts);
    delay_over(alloc, model, limit, &mut sets, from, to)
}

/// The reply where the model's delays are to be found, from the states of specification `from` to those of specification
/// `to`, which are counted from 1.
pub(crate) fn answer_delays<'a>(
    alloc: Global,
    work: Work<'_>,
    model: &Ruled,
    from: u32,
    to: u32,
) -> Result<Reply<'a>, AllocError>
    requires limits { HasLimits (Do (work_asked work)) }
    requires job { work.job ≡ Job.Delay from to }
    ensures { (contents : Option Contents) (bytes : List ℕ) → HasRuled bytes model.now
        → IfOk result (IsReply (IsModelReply (work_asked work.entry) contents bytes)) }
{
    let bits = state_bits(model);
    if bits > MAX_STATE_BITS {
        return refuse(alloc, &Refusal::TooManyBits { bits });
    }
    match first_other(model, &[from, to]) {
        Some(spec) => refuse(alloc, &Refusal::NoLeaf { spec }),
        None => answer_named_delays(alloc, work, model, from, to),
    }
}

/// The same, where both specifications hold no path operator.
fn answer_named_delays<'a>(
    alloc: Global,
    work: Work<'_>,
    model: &Ruled,
    from: u32,
    to: u32,
) -> Result<Reply<'a>, AllocError>
    requires limits { HasLimits (Do (work_asked work)) }
    requires job { work.job ≡ Job.Delay from to }
    requires names { NamesLeaves (work_asked work).job model.now }
    ensures { (contents : Option Contents) (bytes : List ℕ) → HasRuled bytes model.now
        → IfOk result (IsReply (IsModelReply (work_asked work.entry) contents bytes)) }
{
    match relation(alloc, model, work.limit) {
        Ok(parts) => delay(alloc, model, work.limit, parts, from, to),
        Err(refusal) => match held_of(model, work.limit, refusal) {
            Ok(held) => unknown_delays(alloc, from, to, work.limit, held),
            Err(stop) => answer_stop(alloc, work, model, stop),
        },
    }
}
