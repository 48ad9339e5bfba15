// The reply to a trace file.
ghost use Rattle.std.specs.Prelude.{◌≡◌, ◌≢◌, ◌⊎◌, ◌++◌, ℕ, List, IfOk, OnOk};
ghost use Rattle.kripke_model.specs.System.{System};
ghost use Rattle.smv_texts.specs.Evidence.{IsMet};
ghost use Rattle.smv_texts.specs.Replies.{IsReply};
ghost use Rattle.command_replies.specs.Replayed.{Replayed, ends_judged, judged_text, replay_line};
ghost use Rattle.command_replies.specs.Replayed.{trace_reason, trace_refusal_line, unanswered_line};
ghost use Rattle.trace_check.specs.Judged.{JudgedAs};
ghost use Rattle.trace_files.specs.Refuses.{Refuses};
ghost use Rattle.trace_files.specs.Spells.{Spells};
ghost use Rattle.trace_files.specs.declared.refusals.TraceRefusal.TheVariants.{Memory as out_of_memory};

use bdd_nodes::Held;
use itoa::Integer;
use smv_texts::{Ending, Reply};
use std::alloc::{AllocError, Global};
use trace_check::judged::Judged;
use trace_files::refusals::TraceRefusal;
use trace_files::trace::TraceFile;
use value_texts::text::Text;

// Adds the word and the number behind it.
fn push_numbered<I: Integer>(text: &mut Text, word: &[u8], n: I) -> Result<(), AllocError>
    ensures { OnOk result (text.new ≡ text.old ++ (word.now ++ I.text n)) }
{
    text.push(word)?;
    text.push_number(n)
}

// What is found of the trace.
fn push_judged(text: &mut Text, judged: Judged) -> Result<(), AllocError>
    ensures { OnOk result (text.new ≡ text.old ++ judged_text judged) }
{
    match judged {
        Judged::Shape => text.push(b"rejected shape"),
        Judged::Initial => text.push(b"rejected initial"),
        Judged::Step { at } => push_numbered(text, b"rejected step ", at),
        Judged::Unfair { constraint } => push_numbered(text, b"rejected fair ", constraint),
        Judged::Property => text.push(b"rejected property"),
        Judged::Accepted => text.push(b"accepted"),
    }
}

// The line that tells what is found.
fn judged_line(alloc: Global, spec: u32, judged: Judged) -> Result<Vec<u8>, AllocError>
    ensures { IfOk result (λ text. text.items ≡ replay_line spec judged) }
{
    let mut text = Text::new(alloc);
    text.push(b"trace ")?;
    text.push_number(spec)?;
    text.push(b" ")?;
    push_judged(&mut text, judged)?;
    text.push(b"\n")?;
    Ok(text.into_bytes())
}

// The line that tells that the limit was met.
fn limit_line(alloc: Global, spec: u32, limit: u32) -> Result<Vec<u8>, AllocError>
    ensures { IfOk result (λ text. text.items ≡ unanswered_line spec limit) }
{
    let mut text = Text::new(alloc);
    text.push(b"trace ")?;
    text.push_number(spec)?;
    text.push(b" unanswered: node limit ")?;
    text.push_number(limit)?;
    text.push(b"\n")?;
    Ok(text.into_bytes())
}

// The number of the refusal, and the line that it tells.
fn push_reason(text: &mut Text, refusal: TraceRefusal) -> Result<(), AllocError>
    ensures told { OnOk result (text.new ≡ text.old ++ trace_reason refusal) }
    ensures memory { OnOk result (refusal ≢ out_of_memory) }
{
    match refusal {
        TraceRefusal::BadLine { line } => push_numbered(text, b"Q1 line ", line),
        TraceRefusal::Truncated { line } => push_numbered(text, b"Q2 line ", line),
        TraceRefusal::TooLong => text.push(b"Q3"),
        TraceRefusal::Memory => Err(AllocError),
    }
}

// The line that tells why a text is no trace. Want of memory is never told.
fn refusal_line(alloc: Global, refusal: TraceRefusal) -> Result<Vec<u8>, AllocError>
    ensures told { IfOk result (λ text. text.items ≡ trace_refusal_line refusal) }
    ensures memory { OnOk result (refusal ≢ out_of_memory) }
{
    let mut text = Text::new(alloc);
    text.push(b"refused ")?;
    push_reason(&mut text, refusal)?;
    text.push(b"\n")?;
    Ok(text.into_bytes())
}

// How a call ends that found this of a trace.
fn ending_of(judged: Judged) -> Ending
    ensures { result ≡ ends_judged judged }
{
    match judged {
        Judged::Accepted => Ending::Clear,
        _ => Ending::Failed,
    }
}

/// The reply where the trace is judged.
pub fn replayed<'a>(
    alloc: Global,
    file: &TraceFile,
    judged: Judged,
) -> Result<Reply<'a>, AllocError>
    ensures { (m : System) (limit : ℕ) (bytes : List ℕ) → Spells m file.now bytes
        → JudgedAs m file.now judged → IfOk result (IsReply (Replayed m limit bytes)) }
{
    Ok(Reply {
        text: judged_line(alloc, file.spec, judged)?,
        ending: ending_of(judged),
        saves: None,
    })
}

/// The reply where the text is no trace.
pub fn refuse_trace<'a>(alloc: Global, refusal: TraceRefusal) -> Result<Reply<'a>, AllocError>
    ensures { (m : System) (limit : ℕ) (bytes : List ℕ)
        → (refusal ≡ out_of_memory) ⊎ Refuses m bytes refusal
        → IfOk result (IsReply (Replayed m limit bytes)) }
{
    Ok(Reply {
        text: refusal_line(alloc, refusal)?,
        ending: Ending::ProofRefused,
        saves: None,
    })
}

/// The reply where the limit was met before the trace was judged.
pub fn unanswered_trace<'a>(
    alloc: Global,
    file: &TraceFile,
    limit: u32,
    held: Held,
) -> Result<Reply<'a>, AllocError>
    ensures { (m : System) (bytes : List ℕ) → Spells m file.now bytes → IsMet m limit held
        → IfOk result (IsReply (Replayed m limit bytes)) }
{
    Ok(Reply {
        text: limit_line(alloc, file.spec, limit)?,
        ending: Ending::Undecided {
            held: vec![in alloc; held]?,
        },
        saves: None,
    })
}
