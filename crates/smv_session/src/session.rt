// The program, over any files and any sink.
ghost use Rattle.std.specs.Prelude.{◌≡◌, IfOk, map, string_bytes};
ghost use Rattle.command_words.specs.Words.{command_of};
ghost use Rattle.smv_session.specs.Commands.{AcceptsProved};
ghost use Rattle.smv_session.specs.Commands.{DecidesAll, ExportsProofs, FindsDelays};
ghost use Rattle.smv_session.specs.Commands.{FindsStrongPaths, GeneratesText};
ghost use Rattle.smv_session.specs.Commands.{RechecksProofs, ReplaysTraces};
ghost use Rattle.smv_session.specs.Commands.{ReportsVerdicts, ShowsStates};
ghost use Rattle.smv_session.specs.Foreseen.{Foresees};
ghost use Rattle.smv_session.specs.Session.{session, PutsAnswer, AnswersUsage, RefusesModels};
ghost use Rattle.smv_session.specs.Session.{TakesModels, HasEvidence, HasStatusOfReply};
ghost use Rattle.smv_session.specs.Session.{KeepsContents, FaultHasCause, AnswersFaults};
ghost use Rattle.smv_session.specs.Session.{PutsFaultLine, FaultLinesHaveCause, CutsOffAnswer};
ghost use Rattle.smv_session.specs.Session.{MemoryChangesNothing};

use crate::finishing::finish;
use crate::laws::one_answer;
use crate::work::do_work;
use command_words::{Command, read_words};
use smv_outside::{Files, Sink};
use smv_rings::gen_text;
use smv_texts::{Ending, Fault, Reply, Status, usage_text};
use std::alloc::{AllocError, Global};

/// What is to be saved and put: a reply, or the line of a fault.
#[derive(Drop)]
pub(crate) enum Foreseen<'a> {
    Reply(Reply<'a>),
    Fault(Fault),
}

/// Does what the words ask for, saves the proofs where that is asked for, and then puts one text.
pub fn run<F: Files, S: Sink>(alloc: Global, words: &[String], files: &mut F, out: &mut S) -> Status
    ensures answer { PutsAnswer (session F.contents F.faults
        S.written S.faults words.now files.old files.new out.old out.new result) }
    ensures words { AnswersUsage (session F.contents F.faults
        S.written S.faults words.now files.old files.new out.old out.new result) }
    ensures refused_model { RefusesModels (session F.contents F.faults
        S.written S.faults words.now files.old files.new out.old out.new result) }
    ensures decided { TakesModels (session F.contents F.faults
        S.written S.faults words.now files.old files.new out.old out.new result) }
    ensures unknown { HasEvidence (session F.contents F.faults
        S.written S.faults words.now files.old files.new out.old out.new result) }
    ensures status { HasStatusOfReply (session F.contents F.faults
        S.written S.faults words.now files.old files.new out.old out.new result) }
    ensures contents { KeepsContents (session F.contents F.faults
        S.written S.faults words.now files.old files.new out.old out.new result) }
    ensures fault_has_cause { FaultHasCause (session F.contents F.faults
        S.written S.faults words.now files.old files.new out.old out.new result) }
    ensures faults_are_answered { AnswersFaults (session F.contents F.faults
        S.written S.faults words.now files.old files.new out.old out.new result) }
    ensures fault_line { PutsFaultLine (session F.contents F.faults
        S.written S.faults words.now files.old files.new out.old out.new result) }
    ensures fault_lines_have_cause { FaultLinesHaveCause (session F.contents F.faults
        S.written S.faults words.now files.old files.new out.old out.new result) }
    ensures cut_off { CutsOffAnswer (session F.contents F.faults
        S.written S.faults words.now files.old files.new out.old out.new result) }
    ensures memory { MemoryChangesNothing (session F.contents F.faults
        S.written S.faults words.now files.old files.new out.old out.new result) }
    ensures generated { GeneratesText (session F.contents F.faults
        S.written S.faults words.now files.old files.new out.old out.new result) }
    ensures verdicts { ReportsVerdicts (session F.contents F.faults
        S.written S.faults words.now files.old files.new out.old out.new result) }
    ensures states_and_traces { ShowsStates (session F.contents F.faults
        S.written S.faults words.now files.old files.new out.old out.new result) }
    ensures exported_proofs { ExportsProofs (session F.contents F.faults
        S.written S.faults words.now files.old files.new out.old out.new result) }
    ensures rechecked { RechecksProofs (session F.contents F.faults
        S.written S.faults words.now files.old files.new out.old out.new result) }
    ensures enough { DecidesAll (session F.contents F.faults
        S.written S.faults words.now files.old files.new out.old out.new result) }
    ensures proved { AcceptsProved (session F.contents F.faults
        S.written S.faults words.now files.old files.new out.old out.new result) }
    ensures delays { FindsDelays (session F.contents F.faults
        S.written S.faults words.now files.old files.new out.old out.new result) }
    ensures replayed { ReplaysTraces (session F.contents F.faults
        S.written S.faults words.now files.old files.new out.old out.new result) }
    ensures strong { FindsStrongPaths (session F.contents F.faults
        S.written S.faults words.now files.old files.new out.old out.new result) }
{
    one_answer();
    match foresee(alloc, words, files) {
        Ok(foreseen) => finish(foreseen, files, out),
        Err(_) => Status::Memory,
    }
}

/// What is to be saved and put. No contents change.
fn foresee<'a, F: Files>(
    alloc: Global,
    words: &'a [String],
    files: &mut F,
) -> Result<Foreseen<'a>, AllocError>
    ensures contents { F.contents files.new ≡ F.contents files.old }
    ensures unsaved { (F.faults files.new).unsaved ≡ (F.faults files.old).unsaved }
    ensures foreseen { IfOk result (Foresees (command_of (map string_bytes words.entry.now))
        (F.contents files.old) (F.faults files.old) (F.faults files.new)) }
{
    match read_words(alloc, words)? {
        Command::Usage => Ok(Foreseen::Reply(Reply::new(alloc, usage_text(), Ending::Usage)?)),
        Command::Print(n) => Ok(Foreseen::Reply(Reply {
            text: gen_text(alloc, n)?,
            ending: Ending::Clear,
            saves: None,
        })),
        Command::Do(work) => do_work(alloc, work, files),
    }
}
