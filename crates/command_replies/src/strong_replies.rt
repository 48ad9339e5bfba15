// The reply to what is asked of strong fairness.
ghost use Rattle.std.specs.Prelude.{◌≡◌, ℕ, IfOk, List};
ghost use Rattle.kripke_model.specs.System.{System};
ghost use Rattle.smv_texts.specs.Evidence.{IsMet};
ghost use Rattle.smv_texts.specs.Replies.{IsReply};
ghost use Rattle.command_replies.specs.SeenRows.{certificate_of};
ghost use Rattle.command_replies.specs.Strong.{IsNoneFor, IsPathFor, LeavesStrong, StrongReply};
ghost use Rattle.command_replies.specs.Strong as texts;

use crate::certificate::NodeCertificate;
use crate::certificate_lines::push_certificate;
use bdd_nodes::Held;
use kripke_model::models::Ruled;
use kripke_model::states::Lasso;
use smv_texts::{Ending, Reply, push_lasso};
use std::alloc::{AllocError, Global};
use value_texts::text::Text;

// The text that tells a strong path.
fn yes_text(alloc: Global, model: &Ruled, path: &Lasso) -> Result<Vec<u8>, AllocError>
    ensures { IfOk result (λ text. text.items ≡ texts.yes_text model.now path.now) }
{
    let mut text = Text::new(alloc);
    text.push(b"strong yes\n")?;
    push_lasso(&mut text, model, path)?;
    Ok(text.into_bytes())
}

// The text that tells that there is none.
fn no_text(alloc: Global, certificate: &NodeCertificate) -> Result<Vec<u8>, AllocError>
    ensures { IfOk result (λ text. text.items
        ≡ texts.no_text certificate.now.nodes.items (certificate_of certificate.now)) }
{
    let mut text = Text::new(alloc);
    text.push(b"strong no\n")?;
    push_certificate(&mut text, certificate)?;
    Ok(text.into_bytes())
}

// The line that tells that the limit was met.
fn unknown_text(alloc: Global, limit: u32) -> Result<Vec<u8>, AllocError>
    ensures { IfOk result (λ text. text.items ≡ texts.unknown_line limit) }
{
    let mut text = Text::new(alloc);
    text.push(b"strong unknown: node limit ")?;
    text.push_number(limit)?;
    text.push(b"\n")?;
    Ok(text.into_bytes())
}

/// The reply where there is a strong path, which is told.
pub fn tell_path<'a>(alloc: Global, model: &Ruled, path: &Lasso) -> Result<Reply<'a>, AllocError>
    ensures { (limit : ℕ) (numbers : List (ℕ × ℕ)) → IsPathFor model.now numbers path.now
        → IfOk result (IsReply (StrongReply model.now limit numbers)) }
{
    Ok(Reply {
        text: yes_text(alloc, model, path)?,
        ending: Ending::Clear,
        saves: None,
    })
}

/// The reply where there is no strong path, as the certificate shows, which is told.
pub fn tell_none<'a>(alloc: Global, certificate: &NodeCertificate) -> Result<Reply<'a>, AllocError>
    ensures { (m : System) (limit : ℕ) (numbers : List (ℕ × ℕ))
        → IsNoneFor m numbers certificate.now.nodes.items (certificate_of certificate.now)
        → IfOk result (IsReply (StrongReply m limit numbers)) }
{
    Ok(Reply {
        text: no_text(alloc, certificate)?,
        ending: Ending::Failed,
        saves: None,
    })
}

/// The reply where the limit was met.
pub fn unknown_strong<'a>(alloc: Global, limit: u32, held: Held) -> Result<Reply<'a>, AllocError>
    ensures { (m : System) → IsMet m limit held → IfOk result (IsReply (LeavesStrong m limit)) }
{
    Ok(Reply {
        text: unknown_text(alloc, limit)?,
        ending: Ending::Undecided {
            held: vec![in alloc; held]?,
        },
        saves: None,
    })
}
