//! What is asked of the instances and paths of programs. Instances are numbered in instantiation order, and
//! abbreviations are the entries of all instances in that order: parameters, variables, instances and definitions.

ghost use Rattle.smv_instances.specs.Program.{Program as Plain};
ghost use Rattle.smv_instances.specs.Built.{AreInstances};
ghost use Rattle.smv_names.specs.Ready.{AreTargets, HasTargets};

use crate::questions::PathPart;
use crate::refusals::push_refusal;
use crate::words::{push_none, push_number, push_word};
use case_text::fault::Fault;
use case_text::telling::Telling;
use graph_order::Order;
use smv_instances::Instances;
use smv_names::resolving::Targets;
use smv_names::tables::{Tables, tables_of};
use smv_names::targets::Target;
use smv_names::uses::order_of_uses;
use smv_parser::{Condition, Expr, ExprKind, Path, Program, SectionKind};
use std::alloc::{AllocError, Global};

/// The expression of the last section of the last module, which is a specification.
fn last_spec(program: &Program) -> Option<&Expr> {
    let source = program.modules.last()?;
    let section = source.sections.last()?;
    match &section.kind {
        SectionKind::Condition(Condition::Spec, expr) => Some(expr),
        _ => None,
    }
}

/// The path that the last specification is.
fn last_path(program: &Program) -> Result<&Path, Fault> {
    match last_spec(program).map(|expr| &expr.kind) {
        Some(ExprKind::Path(path)) => Ok(path),
        _ => Err(Fault::Unasked),
    }
}

/// Adds how many instances there are, and the numbers of those that are processes.
fn push_instances(instances: &Instances<'_>, answer: &mut Telling) {
    push_number(answer, instances.rows.len());
    push_word(answer, "processes");
    for number in instances.processes() {
        push_number(answer, *number);
    }
}

/// Adds what a path denotes.
fn push_target(found: &Option<Target<'_>>, answer: &mut Telling) {
    match found {
        None => answer.add("nothing"),
        Some(Target::Stored { home, indexes, .. }) => {
            write!(answer, "stored in {home} indexes {}", indexes.len());
        }
        Some(Target::Reading { home, .. }) => write!(answer, "read in {home}"),
        Some(Target::Instance(number)) => write!(answer, "instance {number}"),
        Some(Target::Constant(place)) => write!(answer, "constant {place}"),
    }
}

/// What the path of the last specification denotes in `main`.
fn denoted<'p>(
    alloc: Global,
    program: &'p Program,
    instances: &Instances<'p>,
) -> Result<Option<Target<'p>>, Fault>
    requires { (p : Plain) × AreInstances p instances.now }
{
    let path = last_path(program)?;
    if instances.len() == 0 {
        return Err(Fault::Unasked);
    }
    let targets = Targets::build(alloc, instances)?;
    Ok(targets.resolve(alloc, instances, 0, path)?)
}

fn push_denoted<'p>(
    alloc: Global,
    program: &'p Program,
    instances: &Instances<'p>,
    answer: &mut Telling,
)
    requires { (p : Plain) × AreInstances p instances.now }
{
    match denoted(alloc, program, instances) {
        Ok(found) => push_target(&found, answer),
        Err(fault) => answer.fail(fault),
    }
}

/// The numbers, the sizes and the ends of the abbreviations.
fn tables_by<'p>(
    alloc: Global,
    instances: &Instances<'p>,
    targets: &Targets<'p>,
) -> Result<Tables, AllocError>
    requires { (p : Plain) × AreTargets p instances.now targets.now }
{
    let order = order_of_uses(alloc, instances, targets)?;
    tables_of(alloc, instances, targets, &order)
}

/// The definition that the path names in `main`.
fn node_of<'p>(
    alloc: Global,
    program: &'p Program,
    instances: &Instances<'p>,
    targets: &Targets<'p>,
) -> Result<usize, Fault>
    requires { HasTargets instances.now targets.now 0 }
{
    let path = last_path(program)?;
    match targets.named(alloc, instances, 0, path)? {
        Some(node) => Ok(node),
        None => Err(Fault::Unasked),
    }
}

/// The definition that the path of the last specification names in `main`, and the tables that it is in.
fn known<'p>(
    alloc: Global,
    program: &'p Program,
    instances: &Instances<'p>,
) -> Result<(usize, Tables), Fault>
    requires { (p : Plain) × AreInstances p instances.now }
{
    if instances.len() == 0 {
        return Err(Fault::Unasked);
    }
    let targets = Targets::build(alloc, instances)?;
    let node = node_of(alloc, program, instances, &targets)?;
    Ok((node, tables_by(alloc, instances, &targets)?))
}

/// Adds the number of a definition, a dash where it has none, and its size.
fn push_node(tables: &Tables, node: usize, answer: &mut Telling) {
    match tables.numbers.get(node) {
        Some(Some(number)) => write!(answer, "{number}"),
        _ => answer.add("-"),
    }
    match tables.sizes.get(node) {
        Some(size) => write!(answer, " nodes {} depth {}", size.nodes, size.nesting),
        None => answer.fail(Fault::Unasked),
    }
}

fn push_known<'p>(
    alloc: Global,
    program: &'p Program,
    instances: &Instances<'p>,
    answer: &mut Telling,
)
    requires { (p : Plain) × AreInstances p instances.now }
{
    match known(alloc, program, instances) {
        Ok((node, tables)) => push_node(&tables, node, answer),
        Err(fault) => answer.fail(fault),
    }
}

/// The abbreviations in their order.
fn order_by<'p>(alloc: Global, instances: &Instances<'p>) -> Result<Order, AllocError>
    requires { (p : Plain) × AreInstances p instances.now }
{
    let targets = Targets::build(alloc, instances)?;
    order_of_uses(alloc, instances, &targets)
}

/// Adds the numbers of the abbreviations, each with `!` where it is circular.
fn push_numbers(found: &Order, answer: &mut Telling) {
    for node in &found.order {
        push_number(answer, *node);
        if found.circular.get(*node) == Some(&true) {
            answer.add("!");
        }
    }
}

fn push_order<'p>(alloc: Global, instances: &Instances<'p>, answer: &mut Telling)
    requires { (p : Plain) × AreInstances p instances.now }
{
    match order_by(alloc, instances) {
        Ok(found) => push_numbers(&found, answer),
        Err(error) => answer.fail(Fault::Memory(error)),
    }
}

fn all_tables<'p>(alloc: Global, instances: &Instances<'p>) -> Result<Tables, AllocError>
    requires { (p : Plain) × AreInstances p instances.now }
{
    let targets = Targets::build(alloc, instances)?;
    tables_by(alloc, instances, &targets)
}

/// Adds the end of each chain: the number of an abbreviation, or a dash.
fn push_chains(ends: &[usize], answer: &mut Telling) {
    for end in ends {
        if *end < ends.len() {
            push_number(answer, *end);
        } else {
            push_word(answer, "-");
        }
    }
}

fn push_ends<'p>(alloc: Global, instances: &Instances<'p>, answer: &mut Telling)
    requires { (p : Plain) × AreInstances p instances.now }
{
    match all_tables(alloc, instances) {
        Ok(tables) => push_chains(&tables.ends, answer),
        Err(error) => answer.fail(Fault::Memory(error)),
    }
}

/// Adds what is asked of the program of instances.
fn push_part<'p>(
    alloc: Global,
    program: &'p Program,
    instances: &Instances<'p>,
    part: PathPart,
    answer: &mut Telling,
)
    requires { (p : Plain) × AreInstances p instances.now }
{
    match part {
        PathPart::Instances => push_instances(instances, answer),
        PathPart::Denotes => push_denoted(alloc, program, instances, answer),
        PathPart::Known => push_known(alloc, program, instances, answer),
        PathPart::Order => push_order(alloc, instances, answer),
        PathPart::Ends => push_ends(alloc, instances, answer),
    }
    push_none(answer);
}

/// Adds what is asked of the program, or why its declarations are refused.
pub fn push_paths(alloc: Global, program: &Program, part: PathPart, answer: &mut Telling) {
    match Instances::build(alloc, program) {
        Ok(instances) => push_part(alloc, program, &instances, part, answer),
        Err(refusal) => push_refusal(answer, refusal),
    }
}
