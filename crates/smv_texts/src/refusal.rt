// Why a model's text is refused, and the line that tells it.
ghost use Rattle.std.specs.Prelude.{◌≡◌, ◌++◌, IfOk, IsSomeAnd, None, OnOk};
ghost use Rattle.smv_texts.specs.Refusals.{reason};
ghost use Rattle.smv_texts.specs.Told.{TellsRefusal, told};

use crate::reasons::{push_flat_reason, push_on_line, push_static_reason};
use crate::{Ending, Reply};
use kripke_model::refusals::{FlatRefusal, StaticRefusal};
use std::alloc::{AllocError, Global};
use value_texts::text::Text;

/// Why a model's text is refused, or that memory ran out.
#[derive(Debug, Drop)]
pub enum Refusal {
    TooLong,
    BadByte { line: u32 },
    NumberTooLarge { line: u32 },
    /// No program begins with the tokens up to the one on this line.
    NoProgram { line: u32 },
    /// No program within the depth does.
    TooDeep { line: u32 },
    /// Its program has no flat model.
    NotFlat(FlatRefusal),
    /// Its flat model breaks a static rule.
    BreaksRule(StaticRefusal),
    /// The states of its model have so many bits, which are too many.
    TooManyBits { bits: u32 },
    /// The words name a specification by this number, counted from 1, that isn't there or holds a path operator.
    NoLeaf { spec: u32 },
    Memory,
}

/// What is put where a model's text is refused.
pub fn refuse<'a>(alloc: Global, refusal: &Refusal) -> Result<Reply<'a>, AllocError>
    ensures { IfOk result (TellsRefusal (told refusal.now)) }
{
    let mut text = Text::new(alloc);
    text.push(b"refused ")?;
    push_reason(&mut text, refusal)?;
    text.push(b"\n")?;
    Ok(Reply {
        text: text.into_bytes(),
        ending: Ending::ModelRefused,
        saves: None,
    })
}

fn push_reason(text: &mut Text, refusal: &Refusal) -> Result<(), AllocError>
    ensures { OnOk result (IsSomeAnd (told refusal.now) (λ r. text.new ≡ text.old ++ reason r)) }
{
    match refusal {
        Refusal::TooLong => text.push(b"E3"),
        Refusal::BadByte { line } => push_on_line(text, b"E1", *line),
        Refusal::NumberTooLarge { line } => push_on_line(text, b"E2", *line),
        Refusal::NoProgram { line } => push_on_line(text, b"E4", *line),
        Refusal::TooDeep { line } => push_on_line(text, b"E5", *line),
        Refusal::NotFlat(refusal) => push_flat_reason(text, *refusal),
        Refusal::BreaksRule(refusal) => push_static_reason(text, *refusal),
        Refusal::TooManyBits { bits } => {
            text.push(b"E22 bits ")?;
            text.push_number(*bits)
        }
        Refusal::NoLeaf { spec } => {
            text.push(b"E24 spec ")?;
            text.push_number(*spec)
        }
        Refusal::Memory => Err(AllocError),
    }
}
