// The report of a check, line by line.
ghost use Rattle.std.specs.Prelude.{◌≡◌, ◌<◌, ◌≤◌, ◌+◌, ◌++◌, decimal, drop, length, map, Some, IfOk, OnOk};
ghost use Rattle.smv_texts.specs.Outcomes.{finding_of, outcome_of};
ghost use Rattle.smv_texts.specs.Report as lines;

use crate::outcome::{Finding, Outcome, false_count, true_count, unknown_count};
use kripke_model::models::{FlatVar, Ruled};
use kripke_model::states::{Lasso, State};
use std::alloc::{AllocError, Global};
use value_texts::text::Text;
use value_texts::values::{push_value, value_at};

/// The report of one finding for each specification of the model, in order.
pub fn report_text(
    alloc: Global,
    model: &Ruled,
    findings: &[Finding],
) -> Result<Vec<u8>, AllocError>
    requires { length findings.now ≤ length model.now.specs }
    ensures { IfOk result
        (λ text. text.items ≡ lines.report model.now (map finding_of findings.now)) }
{
    let mut text = Text::new(alloc);
    push_findings(&mut text, model, findings)?;
    push_total(&mut text, findings)?;
    Ok(text.into_bytes())
}

fn push_findings(text: &mut Text, model: &Ruled, findings: &[Finding]) -> Result<(), AllocError>
    requires { length findings.now ≤ length model.now.specs }
    ensures { OnOk result (text.new ≡ text.old
        ++ lines.numbered (lines.finding_lines model.now) 0 (map finding_of findings.now)) }
{
    for (place, finding) in findings.iter().enumerate() {
        push_finding(text, model, place, finding)?;
    }
    Ok(())
}

// What is found of the specification of this place.
fn push_finding(
    text: &mut Text,
    model: &Ruled,
    place: usize,
    finding: &Finding,
) -> Result<(), AllocError>
    requires there { place < length model.now.specs }
    requires countable { place < 18446744073709551615 }
    ensures { OnOk result (text.new ≡ text.old
        ++ lines.finding_lines model.now place (finding_of finding.now)) }
{
    push_spec(text, model, place)?;
    push_verdict(text, &finding.outcome)?;
    text.push(b"\n")?;
    push_below(text, model, place, finding)
}

// What stands below the verdict.
fn push_below(
    text: &mut Text,
    model: &Ruled,
    place: usize,
    finding: &Finding,
) -> Result<(), AllocError>
    requires { place < 18446744073709551615 }
    ensures { OnOk result (text.new ≡ text.old
        ++ (lines.witness_lines model.now (outcome_of finding.now.outcome)
        ++ lines.left_out_lines (place + 1) finding.now.left_out)) }
{
    push_witness(text, model, &finding.outcome)?;
    push_left_out(text, place, finding.left_out)
}

// The length that the proof file would have with the proof, where that was left out.
fn push_left_out(text: &mut Text, place: usize, left_out: Option<usize>) -> Result<(), AllocError>
    requires { place < 18446744073709551615 }
    ensures { OnOk result (text.new ≡ text.old ++ lines.left_out_lines (place + 1) left_out) }
{
    match left_out {
        None => Ok(()),
        Some(size) => {
            text.push(b"proof ")?;
            text.push_number(place + 1)?;
            text.push(b" left out: length ")?;
            text.push_number(size)?;
            text.push(b"\n")
        }
    }
}

fn push_spec(text: &mut Text, model: &Ruled, place: usize) -> Result<(), AllocError>
    requires { place < length model.now.specs }
    ensures { OnOk result (text.new ≡ text.old ++ lines.spec_text model.now place) }
{
    let specs = model.specs();
    let spec = &specs[place];
    text.push(b"spec ")?;
    text.push_number(place + 1)?;
    text.push(b" line ")?;
    text.push_number(spec.line)?;
    text.push(b" ")
}

fn push_verdict(text: &mut Text, outcome: &Outcome) -> Result<(), AllocError>
    ensures { OnOk result (text.new ≡ text.old ++ lines.verdict_text (outcome_of outcome.now)) }
{
    match outcome {
        Outcome::True => text.push(b"true"),
        Outcome::False { .. } => text.push(b"false"),
        Outcome::Unknown(limit) => {
            text.push(b"unknown: node limit ")?;
            text.push_number(*limit)
        }
    }
}

// What stands below a false verdict.
fn push_witness(text: &mut Text, model: &Ruled, outcome: &Outcome) -> Result<(), AllocError>
    ensures { OnOk result (text.new ≡ text.old ++ lines.witness_lines model.now
        (outcome_of outcome.now)) }
{
    match outcome {
        Outcome::True | Outcome::Unknown(_) => Ok(()),
        Outcome::False { state, path } => {
            push_state(text, model, 0, state)?;
            match path {
                None => Ok(()),
                Some(path) => push_path(text, model, path),
            }
        }
    }
}

// What of a path is told below its first state.
fn push_path(text: &mut Text, model: &Ruled, path: &Lasso) -> Result<(), AllocError>
    ensures { OnOk result (text.new ≡ text.old ++ lines.path_lines model.now (Some path.now)) }
{
    push_further(text, model, path)?;
    push_loop(text, path)
}

// The state at which a path goes on after the last.
fn push_loop(text: &mut Text, path: &Lasso) -> Result<(), AllocError>
    ensures { OnOk result (text.new ≡ text.old ++ lines.loop_line path.now) }
{
    text.push(b"loop ")?;
    text.push_number(path.stem.len())?;
    text.push(b"\n")
}

// The states of a path, from state 0 on.
fn push_all(text: &mut Text, model: &Ruled, path: &Lasso) -> Result<(), AllocError>
    ensures { OnOk result (text.new ≡ text.old ++ lines.numbered (lines.state_lines model.now) 0
        (path.now.stem ++ path.now.cycle)) }
{
    push_states(text, model, 0, &path.stem)?;
    push_states(text, model, path.stem.len(), &path.cycle)
}

/// Adds the lines of a whole path: its states with their numbers, and the one at which it goes on after the last.
pub fn push_lasso(text: &mut Text, model: &Ruled, path: &Lasso) -> Result<(), AllocError>
    ensures { OnOk result (text.new ≡ text.old ++ lines.lasso_lines model.now path.now) }
{
    push_all(text, model, path)?;
    push_loop(text, path)
}

// The states of a path from the second on. The first is in the stem, or in the cycle where the stem has none.
fn push_further(text: &mut Text, model: &Ruled, path: &Lasso) -> Result<(), AllocError>
    ensures { OnOk result (text.new ≡ text.old ++ lines.numbered (lines.state_lines model.now) 1
        (drop 1 (path.now.stem ++ path.now.cycle))) }
{
    if path.stem.is_empty() {
        return push_states(text, model, 1, after_first(&path.cycle));
    }
    push_states(text, model, 1, after_first(&path.stem))?;
    push_states(text, model, path.stem.len(), &path.cycle)
}

fn after_first(states: &[State]) -> &[State]
    ensures { result.now ≡ drop 1 states.now }
{
    match states.split_first() {
        Some((_, rest)) => rest,
        None => states,
    }
}

// The states, with numbers from `first` on.
fn push_states(
    text: &mut Text,
    model: &Ruled,
    first: usize,
    states: &[State],
) -> Result<(), AllocError>
    requires { first + length states.now ≤ 18446744073709551615 }
    ensures { OnOk result (text.new ≡ text.old ++ lines.numbered (lines.state_lines model.now) first
        states.now) }
{
    for (place, state) in states.iter().enumerate() {
        push_state(text, model, first + place, state)?;
    }
    Ok(())
}

// The state's number, and each variable with its value.
fn push_state(
    text: &mut Text,
    model: &Ruled,
    number: usize,
    state: &State,
) -> Result<(), AllocError>
    ensures { OnOk result (text.new ≡ text.old ++ lines.state_lines model.now number state.now) }
{
    text.push(b"state ")?;
    text.push_number(number)?;
    text.push(b"\n")?;
    push_variables(text, model, state)
}

fn push_variables(text: &mut Text, model: &Ruled, state: &State) -> Result<(), AllocError>
    ensures { OnOk result (text.new ≡ text.old ++ lines.numbered (lines.variable_line model.now
        state.now) 0 model.now.vars) }
{
    let vars = model.vars();
    for (x, var) in vars.iter().enumerate() {
        push_variable(text, model, state, x, var)?;
    }
    Ok(())
}

fn push_variable(
    text: &mut Text,
    model: &Ruled,
    state: &State,
    x: usize,
    var: &FlatVar,
) -> Result<(), AllocError>
    ensures { OnOk result (text.new ≡ text.old ++ lines.variable_line model.now state.now x
        var.now) }
{
    text.push(b"  ")?;
    text.push(var.name.as_bytes())?;
    text.push(b" = ")?;
    push_value(text, model, x, value_at(state, x))?;
    text.push(b"\n")
}

fn push_count(text: &mut Text, word: &[u8], n: usize) -> Result<(), AllocError>
    ensures { OnOk result (text.new ≡ text.old ++ word.now ++ decimal n) }
{
    text.push(word)?;
    text.push_number(n)
}

// How many specifications there are, and how many of each verdict.
fn push_total(text: &mut Text, findings: &[Finding]) -> Result<(), AllocError>
    ensures { OnOk result (text.new ≡ text.old ++ lines.total_line (map finding_of findings.now)) }
{
    push_count(text, b"total ", findings.len())?;
    push_count(text, b" true ", true_count(findings))?;
    push_count(text, b" false ", false_count(findings))?;
    push_count(text, b" unknown ", unknown_count(findings))?;
    text.push(b"\n")
}
