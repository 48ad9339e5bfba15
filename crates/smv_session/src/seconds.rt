// Jobs with a second file, which is loaded where the model has no fault.
ghost use Rattle.std.specs.Prelude.{◌≡◌, ◌<◌, ◌≤◌, ◌^◌, ℕ, IfOk, List, Option};
ghost use Rattle.bit_encode.specs.Code.{state_bits};
ghost use Rattle.command_words.specs.Asked.{work_asked};
ghost use Rattle.command_words.specs.Words.{Do, HasLimits};
ghost use Rattle.command_words.specs.declared.command.Job.{Job};
ghost use Rattle.kripke_model.specs.Faults.{IsFaultless};
ghost use Rattle.kripke_model.specs.System.{System};
ghost use Rattle.command_replies.specs.Rechecked.{LeavesUnanswered, Rechecked};
ghost use Rattle.smv_outside.specs.Contents.{Contents};
ghost use Rattle.smv_session.specs.Answers.{IsModelReply};
ghost use Rattle.smv_session.specs.Foreseen.{ForeseesSecond, ForeseesText, IsForeseenAs};
ghost use Rattle.smv_session.specs.Foreseen.{RefusesLong};
ghost use Rattle.smv_session.specs.Jobs.{NamesLeaves, Undecides};
ghost use Rattle.smv_session.specs.Relation.{AreOver, IsNotBuilt};
ghost use Rattle.smv_session.specs.Source.{HasRuled, most_state_bits};
ghost use Rattle.smv_texts.specs.Replies as replies;
ghost use Rattle.smv_texts.specs.Replies.{IsReply};
ghost use Rattle.command_replies.specs.Replayed.{Replayed};

use crate::rechecking::recheck;
use crate::relation::{held_of, relation};
use crate::replaying::replay;
use crate::session::Foreseen;
use crate::work::answer_stop;
use command_replies::{refuse_proofs, refuse_trace, unanswered_model};
use command_words::Work;
use kripke_model::models::Ruled;
use proof_text::refusals::TextRefusal;
use smv_outside::{Files, LoadFault};
use smv_texts::{Fault, Reply};
use std::alloc::{AllocError, Global};
use trace_files::refusals::TraceRefusal;
use trans_parts::{BuildRefusal, Parts};

/// The greatest number of bytes of a proof file, and of a trace file.
const MOST_BYTES: usize = 1 << 26;

/// The reply where there is no relation: the limit was met, or the model is not taken.
fn answer_no_relation<'a>(
    alloc: Global,
    work: Work<'_>,
    model: &Ruled,
    refusal: BuildRefusal,
) -> Result<Reply<'a>, AllocError>
    requires refusal { IsNotBuilt model.now work.limit refusal }
    requires names { NamesLeaves (work_asked work).job model.now }
    requires undecides { (r : replies.Reply) → LeavesUnanswered model.now work.limit r
        → Undecides (work_asked work).job model.now work.limit r }
    ensures { (contents : Option Contents) (bytes : List ℕ) → HasRuled bytes model.now
        → IfOk result (IsReply (IsModelReply (work_asked work.entry) contents bytes)) }
{
    match held_of(model, work.limit, refusal) {
        Ok(held) => unanswered_model(alloc, work.limit, held),
        Err(stop) => answer_stop(alloc, work, model, stop),
    }
}

/// What is to be put where a proof file is to be tested.
pub(crate) fn answer_rechecked<'a, F: Files>(
    alloc: Global,
    work: Work<'a>,
    model: &Ruled,
    proofs: &'a str,
    files: &mut F,
) -> Result<Foreseen<'a>, AllocError>
    requires limits { HasLimits (Do (work_asked work)) }
    requires job { work.job ≡ Job.Recheck proofs }
    ensures contents { F.contents files.new ≡ F.contents files.old }
    ensures unsaved { (F.faults files.new).unsaved ≡ (F.faults files.old).unsaved }
    ensures foreseen { (bytes : List ℕ) → HasRuled bytes model.now
        → IfOk result (ForeseesText (work_asked work.entry) (F.contents files.old) bytes
        (F.faults files.old) (F.faults files.new)) }
{
    match relation(alloc, model, work.limit) {
        Ok(parts) => answer_proofs(alloc, work.limit, model, parts, proofs, files),
        Err(refusal) => Ok(Foreseen::Reply(answer_no_relation(alloc, work, model, refusal)?)),
    }
}

/// What is to be put for the proof file of a model without faults.
fn answer_proofs<'a, F: Files>(
    alloc: Global,
    limit: u32,
    model: &Ruled,
    parts: Parts,
    proofs: &str,
    files: &mut F,
) -> Result<Foreseen<'a>, AllocError>
    requires limit { limit < 2 ^ 31 }
    requires parts { AreOver model.now limit parts }
    requires faultless { IsFaultless model.now }
    requires few { state_bits model.now ≤ most_state_bits }
    ensures contents { F.contents files.new ≡ F.contents files.old }
    ensures unsaved { (F.faults files.new).unsaved ≡ (F.faults files.old).unsaved }
    ensures foreseen { IfOk result (ForeseesSecond (Rechecked model.now limit)
        (F.contents files.old) proofs.now (F.faults files.old) (F.faults files.new)) }
{
    match files.load(proofs, MOST_BYTES) {
        Ok(bytes) => Ok(Foreseen::Reply(recheck(alloc, model, limit, parts, &bytes)?)),
        Err(fault) => answer_proof_fault(alloc, fault),
    }
}

/// What is to be put where the proof file was not loaded.
fn answer_proof_fault<'a>(alloc: Global, fault: LoadFault) -> Result<Foreseen<'a>, AllocError>
    ensures { (m : System) (limit : ℕ)
        → IfOk result (IsForeseenAs (RefusesLong (Rechecked m limit)) fault) }
{
    match fault {
        LoadFault::Failed => Ok(Foreseen::Fault(Fault::LoadFailed)),
        LoadFault::NotThere => Ok(Foreseen::Fault(Fault::LoadMissing)),
        LoadFault::TooLong { .. } => Ok(Foreseen::Reply(refuse_proofs(
            alloc,
            TextRefusal::TooLong,
        )?)),
        LoadFault::Memory => Err(AllocError),
    }
}

/// What is to be put where a trace file is to be judged.
pub(crate) fn answer_replayed<'a, F: Files>(
    alloc: Global,
    work: Work<'a>,
    model: &Ruled,
    trace: &'a str,
    files: &mut F,
) -> Result<Foreseen<'a>, AllocError>
    requires limits { HasLimits (Do (work_asked work)) }
    requires job { work.job ≡ Job.Replay trace }
    ensures contents { F.contents files.new ≡ F.contents files.old }
    ensures unsaved { (F.faults files.new).unsaved ≡ (F.faults files.old).unsaved }
    ensures foreseen { (bytes : List ℕ) → HasRuled bytes model.now
        → IfOk result (ForeseesText (work_asked work.entry) (F.contents files.old) bytes
        (F.faults files.old) (F.faults files.new)) }
{
    match relation(alloc, model, work.limit) {
        Ok(parts) => answer_trace(alloc, work.limit, model, parts, trace, files),
        Err(refusal) => Ok(Foreseen::Reply(answer_no_relation(alloc, work, model, refusal)?)),
    }
}

/// What is to be put for the trace file of a model without faults.
fn answer_trace<'a, F: Files>(
    alloc: Global,
    limit: u32,
    model: &Ruled,
    parts: Parts,
    trace: &str,
    files: &mut F,
) -> Result<Foreseen<'a>, AllocError>
    requires parts { AreOver model.now limit parts }
    ensures contents { F.contents files.new ≡ F.contents files.old }
    ensures unsaved { (F.faults files.new).unsaved ≡ (F.faults files.old).unsaved }
    ensures foreseen { IfOk result (ForeseesSecond (Replayed model.now limit)
        (F.contents files.old) trace.now (F.faults files.old) (F.faults files.new)) }
{
    match files.load(trace, MOST_BYTES) {
        Ok(bytes) => Ok(Foreseen::Reply(replay(alloc, model, limit, parts, &bytes)?)),
        Err(fault) => answer_trace_fault(alloc, fault),
    }
}

/// What is to be put where the trace file was not loaded.
fn answer_trace_fault<'a>(alloc: Global, fault: LoadFault) -> Result<Foreseen<'a>, AllocError>
    ensures { (m : System) (limit : ℕ)
        → IfOk result (IsForeseenAs (RefusesLong (Replayed m limit)) fault) }
{
    match fault {
        LoadFault::Failed => Ok(Foreseen::Fault(Fault::LoadFailed)),
        LoadFault::NotThere => Ok(Foreseen::Fault(Fault::LoadMissing)),
        LoadFault::TooLong { .. } => Ok(Foreseen::Reply(refuse_trace(
            alloc,
            TraceRefusal::TooLong,
        )?)),
        LoadFault::Memory => Err(AllocError),
    }
}
