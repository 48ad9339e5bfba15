// What is foreseen is saved and put. Memory is taken by the save alone.
ghost use Rattle.std.specs.Prelude.{◌≡◌, IsErrOf, OnOk};
ghost use Rattle.smv_outside.specs.Faults.{CountsSave};
ghost use Rattle.smv_session.specs.Foreseen.{FailsToSave, Finishes, IsPut, closing};
ghost use Rattle.smv_session.specs.declared.session.Foreseen.TheVariants as foreseen;
ghost use Rattle.smv_session.specs.Session.{Leaves};
ghost use Rattle.smv_texts.specs.Replies.{saved_of};
ghost use Rattle.smv_texts.specs.Statuses.{status_of};
ghost use Rattle.smv_texts.specs.Texts.{fault_line};
ghost use Rattle.smv_texts.specs.declared.status.Status.TheVariants.{OutsideFault};

use crate::session::Foreseen;
use smv_outside::{Files, SaveFault, Sink};
use smv_texts::{Fault, Reply, Saving, Status};

/// Saves the bytes under their name, if there are any.
fn save<F: Files>(saves: &Option<Saving<'_>>, files: &mut F) -> Result<(), SaveFault>
    ensures kept { OnOk result
        (Leaves (saved_of saves.now) (F.contents files.old) (F.contents files.new)) }
    ensures failed { IsErrOf result SaveFault.Failed
        → FailsToSave (saved_of saves.now) (F.contents files.old) (F.contents files.new) }
    ensures memory { IsErrOf result SaveFault.Memory → F.contents files.new ≡ F.contents files.old }
    ensures counts { CountsSave (F.faults files.old) (F.faults files.new) result }
{
    match saves {
        None => Ok(()),
        Some(saving) => files.save(saving.name, &saving.bytes),
    }
}

/// Puts the text of a reply.
fn put_reply<S: Sink>(reply: Reply<'_>, out: &mut S) -> Status
    ensures { IsPut (S.written out.old) (S.written out.new) (S.faults out.old) (S.faults out.new)
        reply.entry.text.items (status_of reply.entry.ending) result }
{
    match out.put(&reply.text) {
        Ok(()) => reply.ending.into_status(),
        Err(_) => Status::OutsideFault,
    }
}

/// Puts the line of a fault.
fn put_fault<S: Sink>(fault: Fault, out: &mut S) -> Status
    ensures { IsPut (S.written out.old) (S.written out.new) (S.faults out.old) (S.faults out.new)
        (fault_line fault) OutsideFault result }
{
    let _ = out.put(fault.line());
    Status::OutsideFault
}

/// Saves what a reply saves, and then puts its text.
fn finish_reply<F: Files, S: Sink>(reply: Reply<'_>, files: &mut F, out: &mut S) -> Status
    ensures { Finishes (closing F.contents F.faults S.written S.faults
        files.old files.new out.old out.new result) (foreseen.Reply reply.entry) }
{
    match save(&reply.saves, files) {
        Ok(()) => put_reply(reply, out),
        Err(SaveFault::Failed) => put_fault(Fault::SaveFailed, out),
        Err(SaveFault::Memory) => Status::Memory,
    }
}

/// Saves and puts what is foreseen.
pub(crate) fn finish<F: Files, S: Sink>(
    foreseen: Foreseen<'_>,
    files: &mut F,
    out: &mut S,
) -> Status
    ensures { Finishes (closing F.contents F.faults S.written S.faults
        files.old files.new out.old out.new result) foreseen.entry }
{
    match foreseen {
        Foreseen::Reply(reply) => finish_reply(reply, files, out),
        Foreseen::Fault(fault) => put_fault(fault, out),
    }
}
