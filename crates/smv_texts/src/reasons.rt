// The numbers of refusals, and what stands behind them.
ghost use Rattle.std.specs.Prelude.{◌≡◌, ◌++◌, OnOk, IsSomeAnd};
ghost use Rattle.smv_texts.specs.Reasons.{flat_reason, limit_word, on_line};
ghost use Rattle.smv_texts.specs.Refusals.{reason};
ghost use Rattle.smv_texts.specs.Told.{told_flat, told_static};

use kripke_model::refusals::{FlatRefusal, StaticRefusal, Which};
use std::alloc::AllocError;
use value_texts::text::Text;

/// Adds the number of a refusal, and the line that it tells.
pub(crate) fn push_on_line(text: &mut Text, number: &[u8], line: u32) -> Result<(), AllocError>
    ensures { OnOk result (text.new ≡ text.old ++ on_line number.now line) }
{
    text.push(number)?;
    text.push(b" line ")?;
    text.push_number(line)
}

fn push_limit_word(text: &mut Text, which: Which) -> Result<(), AllocError>
    ensures { OnOk result (text.new ≡ text.old ++ limit_word which) }
{
    match which {
        Which::Variables => text.push(b"variables"),
        Which::Values => text.push(b"values"),
        Which::Instances => text.push(b"instances"),
        Which::Depth => text.push(b"depth"),
        Which::Specifications => text.push(b"specifications"),
        Which::Constraints => text.push(b"constraints"),
        Which::Nodes => text.push(b"nodes"),
        Which::Nesting => text.push(b"nesting"),
    }
}

fn push_limit(text: &mut Text, line: u32, which: Which, counted: u64) -> Result<(), AllocError>
    ensures { OnOk result (text.new ≡ text.old ++ flat_reason (FlatRefusal.Limit line which
        counted)) }
{
    push_on_line(text, b"E16", line)?;
    text.push(b" ")?;
    push_limit_word(text, which)?;
    text.push(b" ")?;
    text.push_number(counted)
}

/// Adds why a program has no flat model.
pub(crate) fn push_flat_reason(text: &mut Text, refusal: FlatRefusal) -> Result<(), AllocError>
    ensures { OnOk result (IsSomeAnd (told_flat refusal) (λ r. text.new ≡ text.old ++ reason r)) }
{
    match refusal {
        FlatRefusal::NoMain => text.push(b"E6"),
        FlatRefusal::DuplicateName { line } => push_on_line(text, b"E7", line),
        FlatRefusal::UnknownName { line } => push_on_line(text, b"E8", line),
        FlatRefusal::RecursiveModule { line } => push_on_line(text, b"E9", line),
        FlatRefusal::ArgumentCount { line } => push_on_line(text, b"E10", line),
        FlatRefusal::CircularDefine { line } => push_on_line(text, b"E11", line),
        FlatRefusal::NameIsConstant { line } => push_on_line(text, b"E12", line),
        FlatRefusal::BadIndex { line } => push_on_line(text, b"E13", line),
        FlatRefusal::BadType { line } => push_on_line(text, b"E14", line),
        FlatRefusal::NotAssignable { line } => push_on_line(text, b"E15", line),
        FlatRefusal::Limit {
            line,
            which,
            counted,
        } => push_limit(text, line, which, counted),
        FlatRefusal::Memory => Err(AllocError),
    }
}

/// Adds which static rule a flat model breaks.
pub(crate) fn push_static_reason(text: &mut Text, refusal: StaticRefusal) -> Result<(), AllocError>
    ensures { OnOk result (IsSomeAnd (told_static refusal) (λ r. text.new ≡ text.old ++ reason r)) }
{
    match refusal {
        StaticRefusal::AssignedTwice { line } => push_on_line(text, b"E17", line),
        StaticRefusal::CurrentBesideOther { line } => push_on_line(text, b"E18", line),
        StaticRefusal::CircularAssignment { line } => push_on_line(text, b"E19", line),
        StaticRefusal::NextNotAllowed { line } => push_on_line(text, b"E20", line),
        StaticRefusal::FormulaNotAllowed { line } => push_on_line(text, b"E21", line),
        StaticRefusal::Memory => Err(AllocError),
    }
}
