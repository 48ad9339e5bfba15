// The fault of a model's item, and the line that tells it.
ghost use Rattle.std.specs.Prelude.{◌≡◌, ◌++◌, IfOk, None, OnOk};
ghost use Rattle.smv_texts.specs.Reasons.{after_text, fault_reason, given_text, here_text, kind_word};
ghost use Rattle.smv_texts.specs.Refusals.{Faults, refusal_line};
ghost use Rattle.smv_texts.specs.Report.{numbered};
ghost use Rattle.smv_texts.specs.declared.ending.Ending.TheVariants.{ModelRefused};

use crate::reasons::push_on_line;
use crate::{Ending, Reply};
use kripke_model::expressions::FaultKind;
use kripke_model::models::{FlatVar, Ruled};
use kripke_model::states::State;
use std::alloc::{AllocError, Global};
use value_texts::text::Text;
use value_texts::values::{push_value, value_at};

/// The first item of a model that faults, at its least pair of states.
#[derive(Drop)]
pub struct ItemFault {
    pub kind: FaultKind,
    pub line: u32,
    pub here: State,
    /// The second state, where the item has `next`.
    pub after: Option<State>,
}

fn kind_word(kind: FaultKind) -> &'static [u8]
    ensures { result.now ≡ kind_word kind }
{
    match kind {
        FaultKind::ManyValues => b"ManyValues",
        FaultKind::NotNumber => b"NotNumber",
        FaultKind::NotBoolean => b"NotBoolean",
        FaultKind::ZeroDivisor => b"ZeroDivisor",
        FaultKind::Overflow => b"Overflow",
        FaultKind::OutOfType => b"OutOfType",
    }
}

// A value of variable x between these bytes.
fn push_given(
    text: &mut Text,
    front: &[u8],
    behind: &[u8],
    model: &Ruled,
    state: &State,
    x: usize,
    var: &FlatVar,
) -> Result<(), AllocError>
    ensures { OnOk result (text.new ≡ text.old ++ given_text front.now behind.now model.now
        state.now x var.now) }
{
    text.push(front)?;
    text.push(var.name.as_bytes())?;
    text.push(behind)?;
    push_value(text, model, x, value_at(state, x))
}

// The values of all variables at a state, each between these bytes.
fn push_values(
    text: &mut Text,
    front: &[u8],
    behind: &[u8],
    model: &Ruled,
    state: &State,
) -> Result<(), AllocError>
    ensures { OnOk result (text.new ≡ text.old ++ numbered (given_text front.now behind.now
        model.now state.now) 0 model.now.vars) }
{
    let vars = model.vars();
    for (x, var) in vars.iter().enumerate() {
        push_given(text, front, behind, model, state, x, var)?;
    }
    Ok(())
}

fn push_here(text: &mut Text, model: &Ruled, state: &State) -> Result<(), AllocError>
    ensures { OnOk result (text.new ≡ text.old ++ here_text model.now state.now) }
{
    push_values(text, b" ", b"=", model, state)
}

// The values at the next state, if one is told.
fn push_after(text: &mut Text, model: &Ruled, after: &Option<State>) -> Result<(), AllocError>
    ensures { OnOk result (text.new ≡ text.old ++ after_text model.now after.now) }
{
    match after {
        None => Ok(()),
        Some(state) => push_values(text, b" next(", b")=", model, state),
    }
}

fn push_fault(text: &mut Text, model: &Ruled, fault: &ItemFault) -> Result<(), AllocError>
    ensures { OnOk result (text.new ≡ text.old ++ fault_reason model.now fault.now.kind
        fault.now.line fault.now.here fault.now.after) }
{
    push_on_line(text, b"E23", fault.line)?;
    text.push(b" ")?;
    text.push(kind_word(fault.kind))?;
    push_here(text, model, &fault.here)?;
    push_after(text, model, &fault.after)
}

/// What is put where an item of the model faults.
pub fn refuse_fault<'a>(
    alloc: Global,
    model: &Ruled,
    fault: &ItemFault,
) -> Result<Reply<'a>, AllocError>
    ensures text { IfOk result
        (λ reply. reply.text.items ≡ refusal_line (Faults model.now fault.now.kind fault.now.line
        fault.now.here fault.now.after)) }
    ensures ending { IfOk result (λ reply. reply.ending ≡ ModelRefused) }
    ensures saves { IfOk result (λ reply. reply.saves ≡ None) }
{
    let mut text = Text::new(alloc);
    text.push(b"refused ")?;
    push_fault(&mut text, model, fault)?;
    text.push(b"\n")?;
    Ok(Reply {
        text: text.into_bytes(),
        ending: Ending::ModelRefused,
        saves: None,
    })
}
