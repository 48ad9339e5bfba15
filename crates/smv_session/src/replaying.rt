// The judgement of a trace file within a node limit.
ghost use Rattle.std.specs.Prelude.{◌≡◌, [], ℕ, IfOk, List};
ghost use Rattle.fair_fixpoint.specs.SatSets.{pin_bound};
ghost use Rattle.fair_rules.specs.FreePart.{constraint_nodes};
ghost use Rattle.path_laws.specs.StateCount.{state_count};
ghost use Rattle.region_sets.specs.Sets.{IsCall};
ghost use Rattle.smv_session.specs.Relation.{AreOver, IsBuiltFor};
ghost use Rattle.smv_texts.specs.Replies.{IsReply};
ghost use Rattle.command_replies.specs.Replayed.{Replayed};
ghost use Rattle.trace_check.specs.Judged.{JudgedAs};
ghost use Rattle.trace_files.specs.Spells.{IsTrace, Spells};

use command_replies::{refuse_trace, replayed, unanswered_trace};
use diagram_sets::DiagramSets;
use diagram_sets::laws::state_count_law;
use fair_fixpoint::constraints::constraint_sets;
use kripke_model::models::Ruled;
use region_sets::{SetRefusal, StateSets};
use smv_texts::Reply;
use std::alloc::{AllocError, Global};
use trace_check::judged::Judged;
use trace_check::judging::judge;
use trace_files::reading::read_trace;
use trace_files::trace::TraceFile;
use trans_parts::Parts;

/// What is found of the trace, over the sets. No set is live after the call that was not before.
fn judge_over(
    alloc: Global,
    sets: &mut DiagramSets,
    model: &Ruled,
    file: &TraceFile,
) -> Result<Judged, SetRefusal>
    requires over { (⟦<DiagramSets as StateSets>⟧.seen sets.old).over ≡ model.now }
    requires trace { IsTrace model.now file.now }
    ensures call { IsCall (pin_bound model.now (constraint_nodes model.now)
        (state_count model.now)) (⟦<DiagramSets as StateSets>⟧.seen sets.old)
        (⟦<DiagramSets as StateSets>⟧.seen sets.new) [] result }
    ensures judged { IfOk result (JudgedAs model.now file.now) }
{
    let constraints = constraint_sets(alloc, sets, model)?;
    let judged = judge(sets, model, &constraints, file);
    constraints.release(sets);
    Ok(judged)
}

/// The reply to a trace, over the sets of a model without faults, which were only just built in a store of this limit.
fn answer_over<'a>(
    alloc: Global,
    model: &Ruled,
    limit: u32,
    sets: &mut DiagramSets,
    file: &TraceFile,
) -> Result<Reply<'a>, AllocError>
    requires ready { IsBuiltFor model.now limit (⟦<DiagramSets as StateSets>⟧.seen sets.old) }
    requires trace { IsTrace model.now file.now }
    ensures { (bytes : List ℕ) → Spells model.now file.now bytes
        → IfOk result (IsReply (Replayed model.now limit bytes)) }
{
    state_count_law(model);
    match judge_over(alloc, sets, model, file) {
        Ok(judged) => replayed(alloc, file, judged),
        Err(SetRefusal::Full { held }) => unanswered_trace(alloc, file, limit, held),
        Err(SetRefusal::Memory) => Err(AllocError),
    }
}

/// The reply to a trace of a model without faults whose relation these parts are, with the variables in declared order,
/// in a store of this limit.
fn judge_file<'a>(
    alloc: Global,
    model: &Ruled,
    limit: u32,
    parts: Parts,
    file: &TraceFile,
) -> Result<Reply<'a>, AllocError>
    requires parts { AreOver model.now limit parts }
    requires trace { IsTrace model.now file.now }
    ensures { (bytes : List ℕ) → Spells model.now file.now bytes
        → IfOk result (IsReply (Replayed model.now limit bytes)) }
{
    let mut sets = DiagramSets::new(alloc, parts);
    answer_over(alloc, model, limit, &mut sets, file)
}

/// The reply to the bytes of a trace file, of a model without faults whose relation these parts are.
pub(crate) fn replay<'a>(
    alloc: Global,
    model: &Ruled,
    limit: u32,
    parts: Parts,
    bytes: &[u8],
) -> Result<Reply<'a>, AllocError>
    requires parts { AreOver model.now limit parts }
    ensures { IfOk result (IsReply (Replayed model.now limit bytes.now)) }
{
    match read_trace(alloc, model, bytes) {
        Ok(file) => judge_file(alloc, model, limit, parts, &file),
        Err(refusal) => refuse_trace(alloc, refusal),
    }
}
