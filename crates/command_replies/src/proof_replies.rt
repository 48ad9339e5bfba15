// The reply to a proof file.
ghost use Rattle.std.specs.Prelude.{◌≡◌, ◌⊎◌, ℕ, List, IfOk};
ghost use Rattle.kripke_model.specs.System.{System};
ghost use Rattle.command_replies.specs.Answered.{AreAnswered};
ghost use Rattle.command_replies.specs.Rechecked.{LeavesUnanswered, Rechecked};
ghost use Rattle.command_replies.specs.ProofReport as lines;
ghost use Rattle.proof_text.specs.Refuses.{Refuses};
ghost use Rattle.proof_text.specs.Spells.{Spells};
ghost use Rattle.proof_text.specs.declared.refusals.TextRefusal.TheVariants.{Memory as out_of_memory};
ghost use Rattle.smv_texts.specs.Evidence.{IsMet};
ghost use Rattle.smv_texts.specs.Replies.{IsReply};

use crate::answers::Answers;
use crate::numbers::push_numbered;
use crate::proof_report::report_text;
use crate::reasons::refusal_text;
use bdd_nodes::Held;
use proof_text::file::ProofFile;
use proof_text::refusals::TextRefusal;
use smv_texts::{Ending, Reply};
use std::alloc::{AllocError, Global};
use value_texts::text::Text;

/// The reply where each block of the file was tested.
pub fn rechecked<'a>(
    alloc: Global,
    file: &ProofFile,
    answers: Answers,
) -> Result<Reply<'a>, AllocError>
    ensures { (m : System) (limit : ℕ) (bytes : List ℕ) → Spells m file.now bytes
        → AreAnswered m limit file.now.order file.now.blocks answers
        → IfOk result (IsReply (Rechecked m limit bytes)) }
{
    let text = report_text(alloc, &file.blocks, &answers.answers)?;
    Ok(Reply {
        text,
        ending: answers.into_ending(),
        saves: None,
    })
}

/// The reply where the text is no proof file.
pub fn refuse_proofs<'a>(alloc: Global, refusal: TextRefusal) -> Result<Reply<'a>, AllocError>
    ensures { (m : System) (limit : ℕ) (bytes : List ℕ)
        → (refusal ≡ out_of_memory) ⊎ Refuses m bytes refusal
        → IfOk result (IsReply (Rechecked m limit bytes)) }
{
    Ok(Reply {
        text: refusal_text(alloc, refusal)?,
        ending: Ending::ProofRefused,
        saves: None,
    })
}

fn model_text(alloc: Global, limit: u32) -> Result<Vec<u8>, AllocError>
    ensures { IfOk result (λ text. text.items ≡ lines.unanswered_model limit) }
{
    let mut text = Text::new(alloc);
    push_numbered(&mut text, b"model unanswered: node limit ", limit)?;
    text.push(b"\n")?;
    Ok(text.into_bytes())
}

/// The reply where the limit was met before the model was known to have no fault.
pub fn unanswered_model<'a>(alloc: Global, limit: u32, held: Held) -> Result<Reply<'a>, AllocError>
    ensures { (m : System) → IsMet m limit held
        → IfOk result (IsReply (LeavesUnanswered m limit)) }
{
    Ok(Reply {
        text: model_text(alloc, limit)?,
        ending: Ending::Undecided {
            held: vec![in alloc; held]?,
        },
        saves: None,
    })
}
