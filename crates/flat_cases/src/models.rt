//! What is asked of flat models.

ghost use Rattle.kripke_model.specs.Flat.{IsFlat};

use crate::questions::ModelPart;
use crate::words::{push_gap, push_none, push_number, push_word};
use case_text::fault::Fault;
use case_text::telling::Telling;
use kripke_model::Name;
use kripke_model::expressions::{Expr, Value};
use kripke_model::models::{Assign, FlatModel, FlatVar, Item, Part};
use smv_instantiate::names::VariableNames;
use std::alloc::{AllocError, Global};

/// Adds the name of a variable by its number.
fn push_variable(model: &FlatModel, number: u32, answer: &mut Telling) {
    match model.vars.get(number as usize) {
        Some(var) => push_word(answer, var.name.as_str()),
        None => answer.fail(Fault::Unasked),
    }
}

/// Adds the name of a process, or of a symbolic constant, by its number.
fn push_name(names: &[Name], number: u32, answer: &mut Telling) {
    match names.get(number as usize) {
        Some(name) => push_word(answer, name.as_str()),
        None => answer.fail(Fault::Unasked),
    }
}

fn push_names(names: &[Name], answer: &mut Telling) {
    for name in names {
        push_word(answer, name.as_str());
    }
}

fn push_variables(model: &FlatModel, answer: &mut Telling) {
    for var in &model.vars {
        push_word(answer, var.name.as_str());
    }
}

fn push_sizes(model: &FlatModel, answer: &mut Telling) {
    for var in &model.vars {
        push_number(answer, var.values.len());
    }
}

fn push_value(model: &FlatModel, value: Value, answer: &mut Telling) {
    match value {
        Value::Number(number) => write!(answer, " {number}"),
        Value::Symbol(place) => push_name(&model.symbols, place, answer),
    }
}

/// Adds a variable with its line and its values.
fn push_declared(model: &FlatModel, var: &FlatVar, answer: &mut Telling) {
    push_gap(answer, ", ");
    write!(answer, "{} line {}:", var.name.as_str(), var.line);
    for value in &var.values {
        push_value(model, *value, answer);
    }
}

fn push_all_declared(model: &FlatModel, answer: &mut Telling) {
    for var in &model.vars {
        push_declared(model, var, answer);
    }
}

/// The number of the variable of this name.
fn number_of(alloc: Global, model: &FlatModel, name: &str) -> Result<Option<u32>, AllocError>
    requires { IsFlat model.now }
{
    let names = VariableNames::of(alloc, &model.vars)?;
    let name = Name::new(String::from_str(alloc, name)?);
    Ok(names.number(&name))
}

/// Adds the number of the variable of this name.
fn push_number_of(alloc: Global, model: &FlatModel, name: &str, answer: &mut Telling)
    requires { IsFlat model.now }
{
    match number_of(alloc, model, name) {
        Ok(Some(number)) => write!(answer, "{number}"),
        Ok(None) => {}
        Err(error) => answer.fail(Fault::Memory(error)),
    }
}

fn push_assigned(model: &FlatModel, answer: &mut Telling) {
    for assign in &model.assigns {
        push_variable(model, assign.var, answer);
    }
}

fn push_movers(model: &FlatModel, answer: &mut Telling) {
    for assign in &model.assigns {
        push_name(&model.processes, assign.process, answer);
    }
}

fn part_word(part: Part) -> &'static str {
    match part {
        Part::Init => "init",
        Part::Now => "now",
        Part::Next => "next",
    }
}

/// Adds an assignment with its variable, its process and its line.
fn push_assignment(model: &FlatModel, assign: &Assign, answer: &mut Telling) {
    push_gap(answer, ", ");
    answer.add(part_word(assign.part));
    push_variable(model, assign.var, answer);
    answer.add(" in");
    push_name(&model.processes, assign.process, answer);
    write!(answer, " line {}", assign.line);
}

fn push_assignments(model: &FlatModel, answer: &mut Telling) {
    for assign in &model.assigns {
        push_assignment(model, assign, answer);
    }
}

fn push_running(model: &FlatModel, answer: &mut Telling) {
    for item in &model.constraints {
        match &item.expr {
            Expr::Running(process) => push_number(answer, *process as usize),
            _ => push_word(answer, "other"),
        }
    }
}

fn push_lines(items: &[Item], answer: &mut Telling) {
    for item in items {
        push_number(answer, item.line as usize);
    }
}

/// Adds a part of the flat model; a dash where there is nothing of it.
pub fn push_model(
    alloc: Global,
    model: &FlatModel,
    part: ModelPart,
    name: &str,
    answer: &mut Telling,
)
    requires { IsFlat model.now }
{
    match part {
        ModelPart::Flat => push_word(answer, "flat"),
        ModelPart::Count => push_number(answer, model.vars.len()),
        ModelPart::Variables => push_variables(model, answer),
        ModelPart::Sizes => push_sizes(model, answer),
        ModelPart::Declared => push_all_declared(model, answer),
        ModelPart::Number => push_number_of(alloc, model, name, answer),
        ModelPart::Symbols => push_names(&model.symbols, answer),
        ModelPart::Selector => push_word(answer, if model.selector { "yes" } else { "no" }),
        ModelPart::Processes => push_names(&model.processes, answer),
        ModelPart::Assigned => push_assigned(model, answer),
        ModelPart::Movers => push_movers(model, answer),
        ModelPart::Assignments => push_assignments(model, answer),
        ModelPart::Running => push_running(model, answer),
        ModelPart::Specs => push_lines(&model.specs, answer),
        ModelPart::Invars => push_lines(&model.invars, answer),
    }
    push_none(answer);
}
