// Why a proof file is refused, as it is told.
ghost use Rattle.std.specs.Prelude.{◌≡◌, ◌≢◌, ◌++◌, IfOk, OnOk};
ghost use Rattle.command_replies.specs.ProofReport.{proof_reason, proof_refusal_line};
ghost use Rattle.proof_text.specs.declared.refusals.TextRefusal.TheVariants.{Memory as out_of_memory};

use crate::numbers::push_numbered;
use proof_text::refusals::TextRefusal;
use std::alloc::{AllocError, Global};
use value_texts::text::Text;

// The number of the refusal, and the line that it tells.
fn push_reason(text: &mut Text, refusal: TextRefusal) -> Result<(), AllocError>
    ensures told { OnOk result (text.new ≡ text.old ++ proof_reason refusal) }
    ensures memory { OnOk result (refusal ≢ out_of_memory) }
{
    match refusal {
        TextRefusal::BadLine { line } => push_numbered(text, b"P1 line ", line),
        TextRefusal::Truncated { line } => push_numbered(text, b"P2 line ", line),
        TextRefusal::BadOrder => text.push(b"P3 line 2"),
        TextRefusal::BadNode { line } => push_numbered(text, b"P4 line ", line),
        TextRefusal::TooLong => text.push(b"P5"),
        TextRefusal::Memory => Err(AllocError),
    }
}

/// The line that tells why a text is no proof file. Want of memory is never told.
pub(crate) fn refusal_text(alloc: Global, refusal: TextRefusal) -> Result<Vec<u8>, AllocError>
    ensures told { IfOk result (λ text. text.items ≡ proof_refusal_line refusal) }
    ensures memory { OnOk result (refusal ≢ out_of_memory) }
{
    let mut text = Text::new(alloc);
    text.push(b"refused ")?;
    push_reason(&mut text, refusal)?;
    text.push(b"\n")?;
    Ok(text.into_bytes())
}
