//! What a path denotes, as far as it is known what the formal parameters lead to.

ghost use Rattle.std.specs.Prelude.{◌≡◌, ℕ, List, Some, None, IfOk, IfSome, IfNone, IsTrue, false};
ghost use Rattle.smv_instances.specs.Program.{Expr as Body, Path as Written, Plain as Stored, Program as Plain};
ghost use Rattle.smv_instances.specs.Plain.{plain_expr, plain_type};
ghost use Rattle.smv_instances.specs.Instances.{Scope, module_of};
ghost use Rattle.smv_instances.specs.Numbered.{IsFound, scope_at};
ghost use Rattle.smv_instances.specs.Built.{AreInstances, HasInstance, IsEntryOf};
ghost use Rattle.smv_names.specs.declared.states.States.{States};
ghost use Rattle.smv_names.specs.Denotes.{bare, meaning};
ghost use Rattle.smv_names.specs.Expands.{is_array};
ghost use Rattle.smv_names.specs.Written.{extended, followed, is_path, plain_path};
ghost use Rattle.smv_names.specs.Nodes.{AreNodes};
ghost use Rattle.smv_names.specs.Targets.{LeadsTo, Resolves};
ghost use Rattle.smv_names.specs.Passed.{AreStates, Deciding, Finding, IsParameter, Walking, state_at};
ghost use Rattle.smv_names.specs.Ready.{AreStarted, AreTargets, HasMeaning, HasStarted, HasTargets, IsNamed, LeadsInto, NamesNode};

use crate::resolving::Targets;
use crate::states::{Parameter, State};
use crate::targets::{Bracket, Target};
use kripke_model::Name;
use smv_instances::{Found, Instances};
use smv_parser::{Expr, ExprKind, Path, PathPart, Plain as Type, PlainKind};
use std::alloc::{AllocError, Global};

/// What comes of a look at a name or a path.
#[derive(Drop)]
pub enum Outcome<'p> {
    Found(Target<'p>),
    Nothing,
    /// It leads nowhere but through a formal parameter of which it isn't known where it leads.
    Needs(Parameter),
}

/// The expression without the parentheses around it.
pub fn bare_of(expr: &Expr) -> &Expr
    ensures { plain_expr result.now ≡ bare (plain_expr expr.now) }
{
    let mut inner = expr;
    while let ExprKind::Parens(next) = &inner.kind {
        inner = next;
    }
    inner
}

/// Whether what a module declares stands for something: a formal parameter needs an actual one.
fn stands(instances: &Instances<'_>, i: usize, found: Found<'_>) -> bool
    requires { HasInstance instances.now i }
    ensures something { (p : Plain) (s : Scope) (x : List ℕ) → AreInstances p instances.now
        → scope_at p i ≡ Some s → IsFound p s x found.entry → IsTrue result → HasMeaning p s x }
    ensures nothing { (p : Plain) (s : Scope) (x : List ℕ) → AreInstances p instances.now
        → scope_at p i ≡ Some s → IsFound p s x found.entry → result ≡ false
        → meaning p s x ≡ None }
{
    match found {
        Found::Stored(_) => true,
        Found::Instance(_) => true,
        Found::Defined(_) => true,
        Found::Parameter(place) => match instances.actual(i, place) {
            Some(_) => true,
            None => false,
        },
    }
}

/// What the instance's module declares under a name, if it stands for something there, and the place
/// of its entry.
fn found_at<'p>(instances: &Instances<'p>, i: usize, name: &Name) -> Option<(usize, Found<'p>)>
    requires { HasInstance instances.now i }
    ensures some { (p : Plain) (s : Scope) → AreInstances p instances.now → scope_at p i ≡ Some s
        → IfSome result (λ f. IsEntryOf (module_of s) name.now f.0 × IsFound p s name.now f.1
        × HasMeaning p s name.now) }
    ensures none { (p : Plain) (s : Scope) → AreInstances p instances.now → scope_at p i ≡ Some s
        → IfNone result (meaning p s name.now ≡ None) }
{
    let place = instances.entry_at(i, name)?;
    let found = instances.found_at(i, place);
    if stands(instances, i, found) {
        return Some((place, found));
    }
    None
}

/// What a formal parameter leads to, where it is known.
fn known_outcome<'p>(known: &Option<Target<'p>>) -> Result<Outcome<'p>, AllocError>
    ensures { (p : Plain) (states : States) (s : Scope) (x : List ℕ) → LeadsTo p s x known.now
        → IfOk result (Finding p states s x) }
{
    match known {
        None => Ok(Outcome::Nothing),
        Some(target) => Ok(Outcome::Found(target.copy()?)),
    }
}

/// What a formal parameter leads to.
fn parameter<'p>(targets: &Targets<'p>, at: Parameter) -> Result<Outcome<'p>, AllocError>
    requires { (known : State) × (state_at targets.now.states at ≡ Some known) }
    ensures { (p : Plain) (s : Scope) (x : List ℕ) → AreStates p targets.now.states
        → IsParameter p at s x → IfOk result (Finding p targets.now.states s x) }
{
    match targets.states.get(at) {
        State::Unseen | State::Waiting => Ok(Outcome::Needs(at)),
        State::Decided(known) => known_outcome(known),
    }
}

/// The number of the abbreviation of this name, if the instance's module declares the name.
pub fn entry_node(
    instances: &Instances<'_>,
    targets: &Targets<'_>,
    i: usize,
    name: &Name,
) -> Option<usize>
    requires { HasStarted instances.now targets.now i }
    ensures { (p : Plain) (s : Scope) → AreStarted p instances.now targets.now
        → scope_at p i ≡ Some s → IsNamed p s name.now result }
{
    let k = instances.entry_at(i, name)?;
    Some(targets.nodes.node(i, k))
}

/// What a defined symbol leads to, whose entry stands at the place.
fn defined<'p>(targets: &Targets<'p>, i: usize, place: usize, right: &'p Expr) -> Outcome<'p>
    requires { (p : Plain) × (s : Scope) × (x : List ℕ) × AreNodes p targets.now.nodes
        × (scope_at p i ≡ Some s) × IsEntryOf (module_of s) x place }
    ensures { (p : Plain) (s : Scope) (x : List ℕ) → AreNodes p targets.now.nodes
        → scope_at p i ≡ Some s → IsEntryOf (module_of s) x place
        → IsFound p s x (Found.Defined right.entry) → Finding p targets.now.states s x result }
{
    Outcome::Found(Target::Reading {
        home: i,
        right,
        node: targets.nodes.node(i, place),
    })
}

/// What a name of an instance leads to, which its module declares as found, at the place.
fn outcome_of<'p>(
    alloc: Global,
    targets: &Targets<'p>,
    i: usize,
    name: &'p Name,
    place: usize,
    found: Found<'p>,
) -> Result<Outcome<'p>, AllocError>
    requires { (p : Plain) × (s : Scope) × AreNodes p targets.now.nodes
        × AreStates p targets.now.states × (scope_at p i ≡ Some s)
        × IsEntryOf (module_of s) name.now place × IsFound p s name.now found }
    ensures { (p : Plain) (s : Scope) → AreNodes p targets.now.nodes
        → AreStates p targets.now.states → scope_at p i ≡ Some s
        → IsEntryOf (module_of s) name.now place → IsFound p s name.now found.entry
        → IfOk result (Finding p targets.now.states s name.now) }
{
    match found {
        Found::Parameter(formal) => {
            parameter(
                targets,
                Parameter {
                    instance: i,
                    place: formal,
                },
            )
        }
        Found::Stored(plain) => Ok(Outcome::Found(Target::Stored {
            home: i,
            name,
            plain,
            indexes: Vec::new(alloc),
        })),
        Found::Instance(number) => Ok(Outcome::Found(Target::Instance(number))),
        Found::Defined(right) => Ok(defined(targets, i, place, right)),
    }
}

/// What a path of one name denotes.
pub fn first<'p>(
    alloc: Global,
    instances: &Instances<'p>,
    targets: &Targets<'p>,
    i: usize,
    name: &'p Name,
) -> Result<Outcome<'p>, AllocError>
    requires { HasStarted instances.now targets.now i }
    ensures { (p : Plain) (s : Scope) (line : ℕ) → AreStarted p instances.now targets.now
        → scope_at p i ≡ Some s
        → IfOk result (Walking p targets.now.states s (Written.Here line name.now)) }
{
    match found_at(instances, i, name) {
        Some((place, found)) => outcome_of(alloc, targets, i, name, place, found),
        None => match instances.symbol(name) {
            Some(place) => Ok(Outcome::Found(Target::Constant(place))),
            None => Ok(Outcome::Nothing),
        },
    }
}

/// What a name leads to behind a path that denotes the target.
fn field<'p>(
    alloc: Global,
    instances: &Instances<'p>,
    targets: &Targets<'p>,
    front: Target<'p>,
    name: &'p Name,
) -> Result<Outcome<'p>, AllocError>
    requires { (p : Plain) × (s : Scope) × (q : Written) × AreStarted p instances.now targets.now
        × Resolves p s q (Some front) }
    ensures { (p : Plain) (s : Scope) (q : Written) → AreStarted p instances.now targets.now
        → Resolves p s q (Some front.entry)
        → IfOk result (Walking p targets.now.states s (Written.Field q name.now)) }
{
    let Target::Instance(number) = front else {
        return Ok(Outcome::Nothing);
    };
    match found_at(instances, number, name) {
        Some((place, found)) => outcome_of(alloc, targets, number, name, place, found),
        None => Ok(Outcome::Nothing),
    }
}

/// The bounds and the elements of an array, if the type is one.
fn array_of(plain: &Type) -> Option<(u32, u32, &Type)>
    ensures some { IfSome result (λ a. plain_type plain.now ≡ Stored.Array a.0 a.1
        (plain_type a.2.now)) }
    ensures none { IfNone result (is_array (plain_type plain.now) ≡ false) }
{
    match &plain.kind {
        PlainKind::Boolean | PlainKind::Enumeration(_) | PlainKind::Range(_, _) => None,
        PlainKind::Array(low, high, element) => Some((*low, *high, element)),
    }
}

/// What an index, read in the instance i, selects behind a path that denotes the target.
fn element<'p>(i: usize, front: Target<'p>, index: &'p Expr) -> Result<Outcome<'p>, AllocError>
    ensures { (p : Plain) (states : States) (s : Scope) (q : Written) → scope_at p i ≡ Some s
        → Resolves p s q (Some front.entry)
        → IfOk result (Walking p states s (Written.Index q (plain_expr index.now))) }
{
    let Target::Stored {
        home,
        name,
        plain,
        mut indexes,
    } = front
    else {
        return Ok(Outcome::Nothing);
    };
    let Some((low, high, inner)) = array_of(plain) else {
        return Ok(Outcome::Nothing);
    };
    indexes.push(Bracket {
        low,
        high,
        scope: i,
        index,
    })?;
    Ok(Outcome::Found(Target::Stored {
        home,
        name,
        plain: inner,
        indexes,
    }))
}

/// A path with one part more.
pub fn follow<'p>(
    alloc: Global,
    instances: &Instances<'p>,
    targets: &Targets<'p>,
    i: usize,
    front: Outcome<'p>,
    part: &'p PathPart,
) -> Result<Outcome<'p>, AllocError>
    requires { (p : Plain) × (s : Scope) × (q : Written) × AreStarted p instances.now targets.now
        × (scope_at p i ≡ Some s) × Walking p targets.now.states s q front }
    ensures { (p : Plain) (s : Scope) (q : Written) → AreStarted p instances.now targets.now
        → scope_at p i ≡ Some s → Walking p targets.now.states s q front.entry
        → IfOk result (Walking p targets.now.states s (extended q part.now)) }
{
    match front {
        Outcome::Nothing => Ok(Outcome::Nothing),
        Outcome::Needs(at) => Ok(Outcome::Needs(at)),
        Outcome::Found(target) => match part {
            PathPart::Field(name) => field(alloc, instances, targets, target, name),
            PathPart::Index(index) => element(i, target, index),
        },
    }
}

/// What a name with some parts after it, read in the instance i, denotes.
pub fn walk_parts<'p>(
    alloc: Global,
    instances: &Instances<'p>,
    targets: &Targets<'p>,
    i: usize,
    name: &'p Name,
    parts: &'p [PathPart],
) -> Result<Outcome<'p>, AllocError>
    requires { HasStarted instances.now targets.now i }
    ensures { (p : Plain) (s : Scope) (line : ℕ) → AreStarted p instances.now targets.now
        → scope_at p i ≡ Some s
        → IfOk result (Walking p targets.now.states s (followed (Written.Here line name.now)
        parts.now)) }
{
    let mut outcome = first(alloc, instances, targets, i, name)?;
    for part in parts {
        outcome = follow(alloc, instances, targets, i, outcome, part)?;
    }
    Ok(outcome)
}

/// What a path, read in the instance i, denotes.
pub fn walk<'p>(
    alloc: Global,
    instances: &Instances<'p>,
    targets: &Targets<'p>,
    i: usize,
    path: &'p Path,
) -> Result<Outcome<'p>, AllocError>
    requires { HasStarted instances.now targets.now i }
    ensures { (p : Plain) (s : Scope) → AreStarted p instances.now targets.now
        → scope_at p i ≡ Some s
        → IfOk result (Walking p targets.now.states s (plain_path path.now)) }
{
    walk_parts(alloc, instances, targets, i, &path.first, &path.parts)
}

/// The path that an expression is, if it is one.
pub fn path_of(expr: &Expr) -> Option<&Path>
    ensures some { IfSome result (λ q. plain_expr expr.now ≡ Body.At (plain_path q.now)) }
    ensures none { IfNone result (is_path (plain_expr expr.now) ≡ false) }
{
    match &expr.kind {
        ExprKind::Path(path) => Some(path),
        ExprKind::Number(_)
        | ExprKind::Truth(_)
        | ExprKind::Running
        | ExprKind::Next(_)
        | ExprKind::Parens(_)
        | ExprKind::Braces(_)
        | ExprKind::Case(_)
        | ExprKind::Until(_, _, _)
        | ExprKind::Prefix(_, _)
        | ExprKind::Binary(_, _, _) => None,
    }
}

/// What a formal parameter leads to, by its actual parameter.
pub fn actual_outcome<'p>(
    alloc: Global,
    instances: &Instances<'p>,
    targets: &Targets<'p>,
    at: Parameter,
) -> Result<Outcome<'p>, AllocError>
    requires { (p : Plain) × (known : State) × AreStarted p instances.now targets.now
        × (state_at targets.now.states at ≡ Some known) }
    ensures { (p : Plain) → AreStarted p instances.now targets.now
        → IfOk result (Deciding p targets.now.states at) }
{
    let Some((around, actual)) = instances.actual(at.instance, at.place) else {
        return Ok(Outcome::Nothing);
    };
    let right = bare_of(actual);
    match path_of(right) {
        Some(path) => walk(alloc, instances, targets, around, path),
        None => Ok(Outcome::Found(Target::Reading {
            home: around,
            right,
            node: targets.nodes.node(at.instance, at.place),
        })),
    }
}

/// The number of the instance that the target is, if it is one.
pub fn instance_number(target: &Target<'_>) -> Option<usize>
    ensures { (p : Plain) (s : Scope) (q : Written) → Resolves p s q (Some target.now)
        → LeadsInto p s q result }
{
    match target {
        Target::Instance(number) => Some(*number),
        Target::Stored { .. } => None,
        Target::Reading { .. } => None,
        Target::Constant(_) => None,
    }
}

/// The number of the instance that a name with some parts after it denotes, if it denotes one.
fn instance_by<'p>(
    alloc: Global,
    instances: &Instances<'p>,
    targets: &Targets<'p>,
    i: usize,
    name: &'p Name,
    parts: &'p [PathPart],
) -> Result<Option<usize>, AllocError>
    requires { HasTargets instances.now targets.now i }
    ensures { (p : Plain) (s : Scope) (line : ℕ) → AreTargets p instances.now targets.now
        → scope_at p i ≡ Some s
        → IfOk result (LeadsInto p s (followed (Written.Here line name.now) parts.now)) }
{
    match walk_parts(alloc, instances, targets, i, name, parts)? {
        Outcome::Found(target) => Ok(instance_number(&target)),
        Outcome::Nothing => Ok(None),
        Outcome::Needs(_) => Ok(None),
    }
}

/// The number of the abbreviation that a name with some parts after it, read in the instance i, names.
pub fn named_by<'p>(
    alloc: Global,
    instances: &Instances<'p>,
    targets: &Targets<'p>,
    i: usize,
    name: &'p Name,
    parts: &'p [PathPart],
) -> Result<Option<usize>, AllocError>
    requires { HasTargets instances.now targets.now i }
    ensures { (p : Plain) (s : Scope) (line : ℕ) → AreTargets p instances.now targets.now
        → scope_at p i ≡ Some s
        → IfOk result (NamesNode p s (followed (Written.Here line name.now) parts.now)) }
{
    let Some((last, front)) = parts.split_last() else {
        return Ok(entry_node(instances, targets, i, name));
    };
    let PathPart::Field(field) = last else {
        return Ok(None);
    };
    match instance_by(alloc, instances, targets, i, name, front)? {
        Some(number) => Ok(entry_node(instances, targets, number, field)),
        None => Ok(None),
    }
}
