// The reply to what is asked of delays.
ghost use Rattle.std.specs.Prelude.{◌≡◌, ◌++◌, ℕ, IfOk, OnOk};
ghost use Rattle.command_replies.specs.Delayed.{AreDelays, Delayed, LeavesDelays};
ghost use Rattle.command_replies.specs.Delayed.{delays_line, ends_text, unknown_line};
ghost use Rattle.command_replies.specs.SeenDelays.{delay_of};
ghost use Rattle.kripke_model.specs.System.{System};
ghost use Rattle.smv_texts.specs.Evidence.{IsMet};
ghost use Rattle.smv_texts.specs.Replies.{IsReply};

use crate::delay::Delay;
use bdd_nodes::Held;
use smv_texts::{Ending, Reply};
use std::alloc::{AllocError, Global};
use value_texts::text::Text;

// The numbers of the two specifications.
fn push_ends(text: &mut Text, from: u32, to: u32) -> Result<(), AllocError>
    ensures { OnOk result (text.new ≡ text.old ++ ends_text from to) }
{
    text.push(b"from ")?;
    text.push_number(from)?;
    text.push(b" to ")?;
    text.push_number(to)
}

// The line that tells the two delays.
fn delays_text(
    alloc: Global,
    from: u32,
    to: u32,
    shortest: Delay,
    longest: Delay,
) -> Result<Vec<u8>, AllocError>
    ensures { IfOk result (λ text. text.items
        ≡ delays_line from to (delay_of shortest) (delay_of longest)) }
{
    let mut text = Text::new(alloc);
    push_ends(&mut text, from, to)?;
    text.push(b" shortest ")?;
    shortest.push_shortest(&mut text)?;
    text.push(b" longest ")?;
    longest.push_longest(&mut text)?;
    text.push(b"\n")?;
    Ok(text.into_bytes())
}

// The line that tells that the limit was met.
fn unknown_text(alloc: Global, from: u32, to: u32, limit: u32) -> Result<Vec<u8>, AllocError>
    ensures { IfOk result (λ text. text.items ≡ unknown_line from to limit) }
{
    let mut text = Text::new(alloc);
    push_ends(&mut text, from, to)?;
    text.push(b" unknown: node limit ")?;
    text.push_number(limit)?;
    text.push(b"\n")?;
    Ok(text.into_bytes())
}

/// The reply where both delays are found, from the states of specification `from` to those of specification `to`, which
/// are counted from 1.
pub fn delayed<'a>(
    alloc: Global,
    from: u32,
    to: u32,
    shortest: Delay,
    longest: Delay,
) -> Result<Reply<'a>, AllocError>
    ensures { (m : System) (limit : ℕ)
        → AreDelays m from to (delay_of shortest) (delay_of longest)
        → IfOk result (IsReply (Delayed m limit from to)) }
{
    Ok(Reply {
        text: delays_text(alloc, from, to, shortest, longest)?,
        ending: Ending::Clear,
        saves: None,
    })
}

/// The reply where the limit was met.
pub fn unknown_delays<'a>(
    alloc: Global,
    from: u32,
    to: u32,
    limit: u32,
    held: Held,
) -> Result<Reply<'a>, AllocError>
    ensures { (m : System) → IsMet m limit held
        → IfOk result (IsReply (LeavesDelays m limit from to)) }
{
    Ok(Reply {
        text: unknown_text(alloc, from, to, limit)?,
        ending: Ending::Undecided {
            held: vec![in alloc; held]?,
        },
        saves: None,
    })
}
