// Work over a model's text.
ghost use Rattle.std.specs.Prelude.{◌≡◌, ℕ, IfOk, List, Option, Some};
ghost use Rattle.command_words.specs.Asked.{work_asked};
ghost use Rattle.command_words.specs.Words.{Do, HasLimits};
ghost use Rattle.command_words.specs.declared.command.Job.{Job};
ghost use Rattle.smv_outside.specs.Contents.{Contents};
ghost use Rattle.smv_session.specs.Answers.{IsModelReply};
ghost use Rattle.smv_session.specs.Foreseen.{Foresees, ForeseesText, IsForeseenAs};
ghost use Rattle.smv_session.specs.Jobs.{NamesLeaves};
ghost use Rattle.smv_session.specs.Relation.{Stops};
ghost use Rattle.smv_session.specs.Source.{HasRuled};
ghost use Rattle.smv_texts.specs.Refusals as too_long;
ghost use Rattle.smv_texts.specs.Replies.{IsReply};
ghost use Rattle.smv_texts.specs.Told.{TellsRefusal};

use crate::compassion::answer_strong;
use crate::decision::decide;
use crate::delaying::answer_delays;
use crate::relation::Stop;
use crate::seconds::{answer_rechecked, answer_replayed};
use crate::session::Foreseen;
use crate::source::read_model;
use command_words::{Job, Source, Work};
use kripke_model::models::Ruled;
use smv_outside::{Files, LoadFault};
use smv_rings::gen_text;
use smv_texts::{Fault, Refusal, Reply, refuse, refuse_fault};
use std::alloc::{AllocError, Global};

/// The greatest number of bytes of a model's text.
const MOST_MODEL_BYTES: usize = 1 << 20;

/// What is to be put for work over the text of its source.
pub(crate) fn do_work<'a, F: Files>(
    alloc: Global,
    work: Work<'a>,
    files: &mut F,
) -> Result<Foreseen<'a>, AllocError>
    requires { HasLimits (Do (work_asked work)) }
    ensures contents { F.contents files.new ≡ F.contents files.old }
    ensures unsaved { (F.faults files.new).unsaved ≡ (F.faults files.old).unsaved }
    ensures foreseen { IfOk result (Foresees (Do (work_asked work.entry)) (F.contents files.old)
        (F.faults files.old) (F.faults files.new)) }
{
    match work.source {
        Source::File(name) => match files.load(name, MOST_MODEL_BYTES) {
            Ok(bytes) => answer_text(alloc, work, &bytes, files),
            Err(fault) => answer_fault(alloc, fault),
        },
        Source::Ring(n) => {
            let text = gen_text(alloc, n)?;
            answer_text(alloc, work, &text, files)
        }
    }
}

/// What is to be put where the source was not loaded.
fn answer_fault<'a>(alloc: Global, fault: LoadFault) -> Result<Foreseen<'a>, AllocError>
    ensures { IfOk result (IsForeseenAs (TellsRefusal (Some too_long.TooLong)) fault) }
{
    match fault {
        LoadFault::Failed => Ok(Foreseen::Fault(Fault::LoadFailed)),
        LoadFault::NotThere => Ok(Foreseen::Fault(Fault::LoadMissing)),
        LoadFault::TooLong { .. } => Ok(Foreseen::Reply(refuse(alloc, &Refusal::TooLong)?)),
        LoadFault::Memory => Err(AllocError),
    }
}

/// What is to be put for work over a model's text.
fn answer_text<'a, F: Files>(
    alloc: Global,
    work: Work<'a>,
    text: &[u8],
    files: &mut F,
) -> Result<Foreseen<'a>, AllocError>
    requires { HasLimits (Do (work_asked work)) }
    ensures contents { F.contents files.new ≡ F.contents files.old }
    ensures unsaved { (F.faults files.new).unsaved ≡ (F.faults files.old).unsaved }
    ensures foreseen { IfOk result (ForeseesText (work_asked work.entry) (F.contents files.old)
        text.now (F.faults files.old) (F.faults files.new)) }
{
    match read_model(alloc, text) {
        Ok(model) => answer_model(alloc, work, &model, files),
        Err(refusal) => Ok(Foreseen::Reply(refuse(alloc, &refusal)?)),
    }
}

/// What is to be put for work over a model that breaks no static rule.
fn answer_model<'a, F: Files>(
    alloc: Global,
    work: Work<'a>,
    model: &Ruled,
    files: &mut F,
) -> Result<Foreseen<'a>, AllocError>
    requires { HasLimits (Do (work_asked work)) }
    ensures contents { F.contents files.new ≡ F.contents files.old }
    ensures unsaved { (F.faults files.new).unsaved ≡ (F.faults files.old).unsaved }
    ensures foreseen { (bytes : List ℕ) → HasRuled bytes model.now
        → IfOk result (ForeseesText (work_asked work.entry) (F.contents files.old) bytes
        (F.faults files.old) (F.faults files.new)) }
{
    match work.job {
        Job::Decide { proofs } => Ok(Foreseen::Reply(answer_decided(alloc, work, model, proofs)?)),
        Job::Recheck { proofs } => answer_rechecked(alloc, work, model, proofs, files),
        Job::Delay { from, to } => Ok(Foreseen::Reply(answer_delays(
            alloc, work, model, from, to,
        )?)),
        Job::Replay { trace } => answer_replayed(alloc, work, model, trace, files),
        Job::Strong { pairs } => Ok(Foreseen::Reply(answer_strong(alloc, work, model, &pairs)?)),
    }
}

/// The reply to a model that is not taken.
pub(crate) fn answer_stop<'a>(
    alloc: Global,
    work: Work<'_>,
    model: &Ruled,
    stop: Stop,
) -> Result<Reply<'a>, AllocError>
    requires names { NamesLeaves (work_asked work).job model.now }
    requires stops { Stops model.now stop }
    ensures { (contents : Option Contents) (bytes : List ℕ) → HasRuled bytes model.now
        → IfOk result (IsReply (IsModelReply (work_asked work.entry) contents bytes)) }
{
    match stop {
        Stop::TooManyBits { bits } => refuse(alloc, &Refusal::TooManyBits { bits }),
        Stop::Fault(fault) => refuse_fault(alloc, model, &fault),
        Stop::Memory => Err(AllocError),
    }
}

/// The reply where the model's specifications are to be decided.
fn answer_decided<'a>(
    alloc: Global,
    work: Work<'a>,
    model: &Ruled,
    proofs: Option<&'a str>,
) -> Result<Reply<'a>, AllocError>
    requires limits { HasLimits (Do (work_asked work)) }
    requires job { work.job ≡ Job.Decide proofs }
    ensures { (contents : Option Contents) (bytes : List ℕ) → HasRuled bytes model.now
        → IfOk result (IsReply (IsModelReply (work_asked work.entry) contents bytes)) }
{
    match decide(alloc, model, work.limit, proofs) {
        Ok(reply) => Ok(reply),
        Err(stop) => answer_stop(alloc, work, model, stop),
    }
}
