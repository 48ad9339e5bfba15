//! The sizes of what expressions stand for.

ghost use Rattle.std.specs.Prelude.{◌≡◌, Some, IfOk, length, map};
ghost use Rattle.smv_parser.specs.Tree as tree;
ghost use Rattle.smv_parser.specs.View.{tree_of, arm_pair};
ghost use Rattle.smv_instances.specs.Abstract as abstract;
ghost use Rattle.smv_instances.specs.Program.{Expr as PlainExpr, Path as Written, Program as Plain};
ghost use Rattle.smv_instances.specs.Plain.{plain_expr};
ghost use Rattle.smv_instances.specs.Instances.{Scope, all_entries};
ghost use Rattle.smv_instances.specs.Numbered.{scope_at};
ghost use Rattle.smv_names.specs.Abbreviations.{mentions, element_mentions, arm_mentions};
ghost use Rattle.smv_names.specs.Written.{plain_path};
ghost use Rattle.smv_names.specs.Ready.{AreTargets, NamesNode};
ghost use Rattle.smv_names.specs.Values.{IsSizeOf, AreSizesOf, AreArmSizesOf};
ghost use Rattle.smv_names.specs.Asking.{CanAsk};
ghost use Rattle.smv_names.specs.Known.{AreSizesIn};

use crate::resolving::Targets;
use crate::sizes::Size;
use smv_instances::Instances;
use smv_parser::{Arm, Expr, ExprKind, Path};
use std::alloc::{AllocError, Global};

/// The size of a path that names the abbreviation with this number, or no expression.
pub(crate) fn size_named(sizes: &[Size], named: Option<usize>) -> Size
    requires { (p : Plain) × (s : Scope) × (q : Written) × NamesNode p s q named
        × (length sizes.now ≡ length (all_entries p)) }
    ensures { (p : Plain) (s : Scope) (q : Written) → NamesNode p s q named
        → AreSizesIn p sizes.now s (mentions (PlainExpr.At q))
        → IsSizeOf p s (PlainExpr.At q) result }
{
    match named {
        Some(node) => sizes[node],
        None => Size::leaf(),
    }
}

/// The size of what a path names: that of the abbreviation, or a leaf where it has no text.
fn path_size<'p>(
    alloc: Global,
    instances: &Instances<'p>,
    targets: &Targets<'p>,
    sizes: &[Size],
    i: usize,
    path: &'p Path,
) -> Result<Size, AllocError>
    requires { CanAsk instances.now targets.now (length sizes.now) i }
    ensures { (p : Plain) (s : Scope) → AreTargets p instances.now targets.now
        → scope_at p i ≡ Some s
        → AreSizesIn p sizes.now s (mentions (PlainExpr.At (plain_path path.now)))
        → IfOk result (IsSizeOf p s (PlainExpr.At (plain_path path.now))) }
{
    let named = targets.named(alloc, instances, i, path)?;
    Ok(size_named(sizes, named))
}

/// The size of what an expression, read in the instance i, stands for, from those of the
/// abbreviations.
#[cycle(size)]
pub fn size<'p>(
    alloc: Global,
    instances: &Instances<'p>,
    targets: &Targets<'p>,
    sizes: &[Size],
    i: usize,
    expr: &'p Expr,
) -> Result<Size, AllocError>
    requires { CanAsk instances.now targets.now (length sizes.now) i }
    ensures { (p : Plain) (s : Scope) → AreTargets p instances.now targets.now
        → scope_at p i ≡ Some s → AreSizesIn p sizes.now s (mentions (plain_expr expr.now))
        → IfOk result (IsSizeOf p s (plain_expr expr.now)) }
{
    match &expr.kind {
        ExprKind::Number(_) => Ok(Size::leaf()),
        ExprKind::Truth(_) => Ok(Size::leaf()),
        ExprKind::Running => Ok(Size::leaf()),
        ExprKind::Path(path) => path_size(alloc, instances, targets, sizes, i, path),
        ExprKind::Parens(inner) => size(alloc, instances, targets, sizes, i, inner),
        ExprKind::Next(inner) => {
            let part = size(alloc, instances, targets, sizes, i, inner)?;
            Ok(part.around())
        }
        ExprKind::Prefix(_, inner) => {
            let part = size(alloc, instances, targets, sizes, i, inner)?;
            Ok(part.around())
        }
        ExprKind::Braces(elements) => {
            let parts = elements_size(alloc, instances, targets, sizes, i, elements)?;
            Ok(parts.around())
        }
        ExprKind::Case(arms) => {
            let parts = arms_size(alloc, instances, targets, sizes, i, arms)?;
            Ok(parts.around())
        }
        ExprKind::Until(_, left, right) => {
            let first = size(alloc, instances, targets, sizes, i, left)?;
            let second = size(alloc, instances, targets, sizes, i, right)?;
            Ok(first.beside(second).around())
        }
        ExprKind::Binary(_, left, right) => {
            let first = size(alloc, instances, targets, sizes, i, left)?;
            let second = size(alloc, instances, targets, sizes, i, right)?;
            Ok(first.beside(second).around())
        }
    }
}

/// The size of some expressions together.
#[cycle(size)]
fn elements_size<'p>(
    alloc: Global,
    instances: &Instances<'p>,
    targets: &Targets<'p>,
    sizes: &[Size],
    i: usize,
    elements: &'p [Expr],
) -> Result<Size, AllocError>
    requires { CanAsk instances.now targets.now (length sizes.now) i }
    ensures { (p : Plain) (s : Scope) → AreTargets p instances.now targets.now
        → scope_at p i ≡ Some s
        → AreSizesIn p sizes.now s
        (element_mentions (abstract.exprs (tree.trees_of (map tree_of elements.now))))
        → IfOk result (AreSizesOf p s (abstract.exprs (tree.trees_of (map tree_of elements.now)))) }
{
    let mut total = Size::none();
    for element in elements {
        let part = size(alloc, instances, targets, sizes, i, element)?;
        total = total.beside(part);
    }
    Ok(total)
}

/// The size of the arms of a `case` together.
#[cycle(size)]
fn arms_size<'p>(
    alloc: Global,
    instances: &Instances<'p>,
    targets: &Targets<'p>,
    sizes: &[Size],
    i: usize,
    arms: &'p [Arm],
) -> Result<Size, AllocError>
    requires { CanAsk instances.now targets.now (length sizes.now) i }
    ensures { (p : Plain) (s : Scope) → AreTargets p instances.now targets.now
        → scope_at p i ≡ Some s
        → AreSizesIn p sizes.now s
        (arm_mentions (abstract.arms (tree.arms_of (map arm_pair arms.now))))
        → IfOk result (AreArmSizesOf p s (abstract.arms (tree.arms_of (map arm_pair arms.now)))) }
{
    let mut total = Size::none();
    for arm in arms {
        let guard = size(alloc, instances, targets, sizes, i, &arm.guard)?;
        let right = size(alloc, instances, targets, sizes, i, &arm.right)?;
        total = total.beside(guard.beside(right));
    }
    Ok(total)
}
