//! Expressions with their paths replaced by what they denote. A name of a program may stand for another expression;
//! the recursion goes along those expressions only where it makes a node of the term, and so no deeper than the term is.

ghost use Rattle.std.specs.Prelude.{◌≡◌, ℕ, ◌≤◌, IfOk, Some, None};
ghost use Rattle.kripke_model.specs.Reading.{arms_in, term_of, terms_in};
ghost use Rattle.kripke_model.specs.Size.{nesting};
ghost use Rattle.kripke_model.specs.Term.{Arms as FlatArms, Term, Terms};
ghost use Rattle.smv_instances.specs.Program.{Expr as Body, Path as Written, Program as Plain};
ghost use Rattle.smv_instances.specs.Plain.{plain_expr, plain_type};
ghost use Rattle.smv_instances.specs.Instances.{Scope};
ghost use Rattle.kripke_model.specs.Evaluation.{truth_value as value_of_truth};
ghost use Rattle.smv_instances.specs.Numbered.{scope_at};
ghost use Rattle.smv_names.specs.Expands.{Expands, is_array as is_array_type};
ghost use Rattle.smv_names.specs.Paths.{ArePaths};
ghost use Rattle.smv_names.specs.Targets.{IsText, Resolves};
ghost use Rattle.smv_names.specs.Written.{plain_path};
ghost use Rattle.smv_instantiate.specs.Expansion.{ArmsStandFor, CanExpand, DenotesNoText, ElementsStandFor, EndsPath, IsNode, IsNodeOf, IsSelected, IsWrittenAt, StandsFor, plain_arms, plain_exprs};
ghost use Rattle.smv_instantiate.specs.Written.{IsWrittenExpr};

use crate::firsts::{first_at, offset};
use crate::operators::{binary, binary_operator, is_every, next_of, prefixed, until};
use crate::types::number_value;
use kripke_model::expressions::{Arm as FlatArm, Expr as FlatExpr, Value};
use smv_instances::Instances;
use smv_names::checks::index_values;
use smv_names::texts::text_at;
use smv_names::walk::{bare_of, path_of};
use smv_names::{Paths, Target};
use smv_parser::{Arm, Expr, ExprKind, Path, Plain as Type, PlainKind};
use std::alloc::{AllocError, Global};

// ---- variables

fn is_array(plain: &Type) -> bool
    ensures { result ≡ is_array_type (plain_type plain.now) }
{
    match &plain.kind {
        PlainKind::Array(_, _, _) => true,
        PlainKind::Boolean | PlainKind::Enumeration(_) | PlainKind::Range(_, _) => false,
    }
}

/// The flat variable that a target is, if it is one.
fn cell<'p>(
    alloc: Global,
    instances: &Instances<'p>,
    paths: &Paths<'p>,
    firsts: &[Option<u32>],
    target: &Target<'p>,
) -> Result<Option<u32>, AllocError>
    requires { (p : Plain) × (s : Scope) × (q : Written) × (i : ℕ)
        × CanExpand p instances.now paths.now firsts.now × (scope_at p i ≡ Some s)
        × Resolves p s q (Some target.now) }
    ensures { (p : Plain) (s : Scope) (q : Written) (i : ℕ)
        → CanExpand p instances.now paths.now firsts.now → scope_at p i ≡ Some s
        → Resolves p s q (Some target.now) → IfOk result (IsSelected p s q) }
{
    let Target::Stored {
        home,
        name,
        plain,
        indexes,
    } = target
    else {
        return Ok(None);
    };
    if is_array(*plain) {
        return Ok(None);
    }
    match index_values(alloc, instances, &paths.targets, &paths.numbers, indexes)? {
        None => Ok(None),
        Some(values) => {
            let first = first_at(instances, &paths.targets, firsts, *home, *name);
            Ok(Some(first + offset(indexes, &values)))
        }
    }
}

/// The flat variable that a path, read in the instance i, selects, if it selects one.
pub fn selected<'p>(
    alloc: Global,
    instances: &Instances<'p>,
    paths: &Paths<'p>,
    firsts: &[Option<u32>],
    i: usize,
    path: &'p Path,
) -> Result<Option<u32>, AllocError>
    requires { (p : Plain) × (s : Scope) × CanExpand p instances.now paths.now firsts.now
        × (scope_at p i ≡ Some s) }
    ensures { (p : Plain) (s : Scope) → CanExpand p instances.now paths.now firsts.now
        → scope_at p i ≡ Some s → IfOk result (IsSelected p s (plain_path path.now)) }
{
    match paths.targets.resolve(alloc, instances, i, path)? {
        Some(target) => cell(alloc, instances, paths, firsts, &target),
        None => Ok(None),
    }
}

// ---- chains of definitions

/// Where an expression is written.
#[derive(Clone, Copy)]
pub struct End<'p> {
    /// The number of the instance in which it is read.
    pub home: usize,
    pub right: &'p Expr,
}

/// The end of the chain of definitions that begins with an abbreviation, which has a text.
fn node_end<'p>(instances: &Instances<'p>, paths: &Paths<'p>, node: usize) -> End<'p>
    requires { (p : Plain) × (s : Scope) × (e : Body) × ArePaths p instances.now paths.now
        × IsText p node s e }
    ensures { (p : Plain) (s : Scope) (e : Body) → ArePaths p instances.now paths.now
        → IsText p node s e → IsWrittenAt p s e result }
{
    match text_at(instances, &paths.targets, paths.ends[node]) {
        Some((home, right)) => End { home, right },
        None => unreachable!(),
    }
}

/// The end of the chain of definitions that begins with a target, if that is an expression.
fn target_end<'p>(
    instances: &Instances<'p>,
    paths: &Paths<'p>,
    target: &Target<'p>,
) -> Option<End<'p>>
    requires { (p : Plain) × (s : Scope) × (q : Written) × ArePaths p instances.now paths.now
        × Resolves p s q (Some target.now) }
    ensures { (p : Plain) (s : Scope) (q : Written) → ArePaths p instances.now paths.now
        → Resolves p s q (Some target.now) → EndsPath p s q result }
{
    match target {
        Target::Reading { node, .. } => Some(node_end(instances, paths, *node)),
        Target::Stored { .. } => None,
        Target::Instance(_) => None,
        Target::Constant(_) => None,
    }
}

/// The end of the chain of definitions that begins with a path, if that denotes an expression.
fn path_end<'p>(
    alloc: Global,
    instances: &Instances<'p>,
    paths: &Paths<'p>,
    i: usize,
    path: &'p Path,
) -> Result<Option<End<'p>>, AllocError>
    requires { (p : Plain) × (s : Scope) × ArePaths p instances.now paths.now
        × (scope_at p i ≡ Some s) }
    ensures { (p : Plain) (s : Scope) → ArePaths p instances.now paths.now → scope_at p i ≡ Some s
        → IfOk result (EndsPath p s (plain_path path.now)) }
{
    match paths.targets.resolve(alloc, instances, i, path)? {
        Some(target) => Ok(target_end(instances, paths, &target)),
        None => Ok(None),
    }
}

/// Where the node of an expression's term is written: without parentheses, and no path to another expression.
fn node_of<'p>(
    alloc: Global,
    instances: &Instances<'p>,
    paths: &Paths<'p>,
    i: usize,
    expr: &'p Expr,
) -> Result<End<'p>, AllocError>
    requires { (p : Plain) × (s : Scope) × ArePaths p instances.now paths.now
        × (scope_at p i ≡ Some s) }
    ensures { (p : Plain) (s : Scope) → ArePaths p instances.now paths.now → scope_at p i ≡ Some s
        → IfOk result (IsNodeOf p s (plain_expr expr.now)) }
{
    let right = bare_of(expr);
    match path_of(right) {
        None => Ok(End { home: i, right }),
        Some(path) => match path_end(alloc, instances, paths, i, path)? {
            None => Ok(End { home: i, right }),
            Some(end) => Ok(End {
                home: end.home,
                right: bare_of(end.right),
            }),
        },
    }
}

// ---- leaves

fn truth_value(truth: bool) -> Value
    ensures { result ≡ value_of_truth truth }
{
    if truth {
        Value::Number(1)
    } else {
        Value::Number(0)
    }
}

/// What a target that is no expression stands for.
fn target_leaf<'p>(
    alloc: Global,
    instances: &Instances<'p>,
    paths: &Paths<'p>,
    firsts: &[Option<u32>],
    target: &Target<'p>,
) -> Result<FlatExpr, AllocError>
    requires { (p : Plain) × (s : Scope) × (q : Written) × (i : ℕ) × (t : Term)
        × CanExpand p instances.now paths.now firsts.now × (scope_at p i ≡ Some s)
        × Resolves p s q (Some target.now) × Expands p s (Body.At q) t × DenotesNoText p s q }
    ensures { (p : Plain) (s : Scope) (q : Written) (i : ℕ) (t : Term)
        → CanExpand p instances.now paths.now firsts.now → scope_at p i ≡ Some s
        → Resolves p s q (Some target.now) → Expands p s (Body.At q) t → DenotesNoText p s q
        → IfOk result (λ e. term_of e ≡ t) }
{
    if let Target::Constant(place) = target {
        return Ok(FlatExpr::Const(Value::Symbol(*place as u32)));
    }
    match cell(alloc, instances, paths, firsts, target)? {
        Some(x) => Ok(FlatExpr::Var(x)),
        None => unreachable!(),
    }
}

/// What a path that denotes no expression stands for, read in the instance i.
fn leaf<'p>(
    alloc: Global,
    instances: &Instances<'p>,
    paths: &Paths<'p>,
    firsts: &[Option<u32>],
    i: usize,
    path: &'p Path,
) -> Result<FlatExpr, AllocError>
    requires { (p : Plain) × (s : Scope) × (t : Term)
        × CanExpand p instances.now paths.now firsts.now × (scope_at p i ≡ Some s)
        × Expands p s (Body.At (plain_path path.now)) t × DenotesNoText p s (plain_path path.now) }
    ensures { (p : Plain) (s : Scope) (t : Term) → CanExpand p instances.now paths.now firsts.now
        → scope_at p i ≡ Some s → Expands p s (Body.At (plain_path path.now)) t
        → DenotesNoText p s (plain_path path.now) → IfOk result (λ e. term_of e ≡ t) }
{
    match paths.targets.resolve(alloc, instances, i, path)? {
        Some(target) => target_leaf(alloc, instances, paths, firsts, &target),
        None => unreachable!(),
    }
}

// ---- nodes

/// The flat expression of one that stands for a term of at most this depth.
#[cycle(expansion)]
fn expand_within<'p>(
    alloc: Global,
    instances: &Instances<'p>,
    paths: &Paths<'p>,
    firsts: &[Option<u32>],
    i: usize,
    expr: &'p Expr,
    depth: u32,
) -> Result<FlatExpr, AllocError>
    requires { (p : Plain) × (s : Scope) × (t : Term)
        × CanExpand p instances.now paths.now firsts.now × (scope_at p i ≡ Some s)
        × StandsFor p s (plain_expr expr.now) depth t }
    ensures { (p : Plain) (s : Scope) (t : Term) → CanExpand p instances.now paths.now firsts.now
        → scope_at p i ≡ Some s → StandsFor p s (plain_expr expr.now) depth t
        → IfOk result (λ e. term_of e ≡ t) }
{
    let node = node_of(alloc, instances, paths, i, expr)?;
    expand_node(
        alloc, instances, paths, firsts, node.home, node.right, depth,
    )
}

/// The flat expressions of the elements of braces.
#[cycle(expansion)]
fn expand_elements<'p>(
    alloc: Global,
    instances: &Instances<'p>,
    paths: &Paths<'p>,
    firsts: &[Option<u32>],
    i: usize,
    elements: &'p [Expr],
    depth: u32,
) -> Result<Vec<FlatExpr>, AllocError>
    requires { (p : Plain) × (s : Scope) × (ts : Terms)
        × CanExpand p instances.now paths.now firsts.now × (scope_at p i ≡ Some s)
        × ElementsStandFor p s (plain_exprs elements.now) depth ts }
    ensures { (p : Plain) (s : Scope) (ts : Terms) → CanExpand p instances.now paths.now firsts.now
        → scope_at p i ≡ Some s → ElementsStandFor p s (plain_exprs elements.now) depth ts
        → IfOk result (λ es. terms_in es.items ≡ ts) }
{
    let mut expanded = Vec::new(alloc);
    for element in elements {
        expanded.push(expand_within(alloc, instances, paths, firsts, i, element, depth)?)?;
    }
    Ok(expanded)
}

/// The flat arms of a `case`.
#[cycle(expansion)]
fn expand_arms<'p>(
    alloc: Global,
    instances: &Instances<'p>,
    paths: &Paths<'p>,
    firsts: &[Option<u32>],
    i: usize,
    arms: &'p [Arm],
    depth: u32,
) -> Result<Vec<FlatArm>, AllocError>
    requires { (p : Plain) × (s : Scope) × (ts : FlatArms)
        × CanExpand p instances.now paths.now firsts.now × (scope_at p i ≡ Some s)
        × ArmsStandFor p s (plain_arms arms.now) depth ts }
    ensures { (p : Plain) (s : Scope) (ts : FlatArms)
        → CanExpand p instances.now paths.now firsts.now → scope_at p i ≡ Some s
        → ArmsStandFor p s (plain_arms arms.now) depth ts
        → IfOk result (λ es. arms_in es.items ≡ ts) }
{
    let mut expanded = Vec::new(alloc);
    for arm in arms {
        let guard = expand_within(alloc, instances, paths, firsts, i, &arm.guard, depth)?;
        let right = expand_within(alloc, instances, paths, firsts, i, &arm.right, depth)?;
        expanded.push(FlatArm { guard, right })?;
    }
    Ok(expanded)
}

/// The flat expression of one without parentheses around it that is no path to another one.
#[cycle(expansion)]
fn expand_node<'p>(
    alloc: Global,
    instances: &Instances<'p>,
    paths: &Paths<'p>,
    firsts: &[Option<u32>],
    i: usize,
    expr: &'p Expr,
    depth: u32,
) -> Result<FlatExpr, AllocError>
    requires { (p : Plain) × (s : Scope) × (t : Term)
        × CanExpand p instances.now paths.now firsts.now × (scope_at p i ≡ Some s)
        × StandsFor p s (plain_expr expr.now) depth t × IsNode p s (plain_expr expr.now) }
    ensures { (p : Plain) (s : Scope) (t : Term) → CanExpand p instances.now paths.now firsts.now
        → scope_at p i ≡ Some s → StandsFor p s (plain_expr expr.now) depth t
        → IsNode p s (plain_expr expr.now) → IfOk result (λ e. term_of e ≡ t) }
{
    let below = depth - 1;
    match &expr.kind {
        ExprKind::Number(n) => Ok(FlatExpr::Const(number_value(*n))),
        ExprKind::Truth(truth) => Ok(FlatExpr::Const(truth_value(*truth))),
        ExprKind::Running => Ok(FlatExpr::Running(instances.process(i) as u32)),
        ExprKind::Path(path) => leaf(alloc, instances, paths, firsts, i, path),
        ExprKind::Parens(_) => unreachable!(),
        ExprKind::Next(inner) => {
            let inner = expand_within(alloc, instances, paths, firsts, i, inner, below)?;
            next_of(alloc, inner)
        }
        ExprKind::Prefix(op, inner) => {
            let inner = expand_within(alloc, instances, paths, firsts, i, inner, below)?;
            prefixed(alloc, *op, inner)
        }
        ExprKind::Binary(op, left, right) => {
            let left = expand_within(alloc, instances, paths, firsts, i, left, below)?;
            let right = expand_within(alloc, instances, paths, firsts, i, right, below)?;
            binary(alloc, binary_operator(*op), left, right)
        }
        ExprKind::Until(every, left, right) => {
            let left = expand_within(alloc, instances, paths, firsts, i, left, below)?;
            let right = expand_within(alloc, instances, paths, firsts, i, right, below)?;
            until(alloc, is_every(*every), left, right)
        }
        ExprKind::Braces(elements) => {
            let elements = expand_elements(alloc, instances, paths, firsts, i, elements, below)?;
            Ok(FlatExpr::Braces(elements))
        }
        ExprKind::Case(arms) => {
            let arms = expand_arms(alloc, instances, paths, firsts, i, arms, below)?;
            Ok(FlatExpr::Case(arms))
        }
    }
}

/// The flat expression of one that is read in the instance i and stands for a term of at most this depth.
pub fn expand<'p>(
    alloc: Global,
    instances: &Instances<'p>,
    paths: &Paths<'p>,
    firsts: &[Option<u32>],
    i: usize,
    expr: &'p Expr,
    depth: u32,
) -> Result<FlatExpr, AllocError>
    requires { (p : Plain) × (s : Scope) × (t : Term)
        × CanExpand p instances.now paths.now firsts.now × (scope_at p i ≡ Some s)
        × IsWrittenExpr (plain_expr expr.now) × Expands p s (plain_expr expr.now) t
        × (nesting t ≤ depth) }
    ensures { (p : Plain) (s : Scope) (t : Term) → CanExpand p instances.now paths.now firsts.now
        → scope_at p i ≡ Some s → IsWrittenExpr (plain_expr expr.now)
        → Expands p s (plain_expr expr.now) t → nesting t ≤ depth
        → IfOk result (λ e. term_of e ≡ t) }
{
    expand_within(alloc, instances, paths, firsts, i, expr, depth)
}
