//! The numbers that expressions stand for, where they are arithmetic on numbers alone.

ghost use Rattle.std.specs.Prelude.{◌≡◌, ◌<◌, Some, IfOk, length};
ghost use Rattle.smv_instances.specs.Program.{Program as Plain};
ghost use Rattle.smv_instances.specs.Plain.{plain_expr};
ghost use Rattle.smv_instances.specs.Instances.{Scope, all_entries, instances as all_instances};
ghost use Rattle.smv_instances.specs.Numbered.{scope_at};
ghost use Rattle.smv_instances.specs.Program.{Expr as PlainExpr, Path as Written};
ghost use Rattle.smv_names.specs.Abbreviations.{mentions};
ghost use Rattle.smv_names.specs.Written.{plain_path};
ghost use Rattle.smv_names.specs.Ready.{AreTargets, NamesNode};
ghost use Rattle.smv_names.specs.Values.{IsNumber};
ghost use Rattle.smv_names.specs.Asking.{CanAsk};
ghost use Rattle.smv_names.specs.Known.{AreNumbersIn};

use crate::arithmetic::operate;
use crate::resolving::Targets;
use smv_instances::Instances;
use smv_parser::{Expr, ExprKind, Path};
use std::alloc::{AllocError, Global};

/// The number of a path that names the abbreviation with this number, or no expression.
pub fn number_named(numbers: &[Option<i64>], named: Option<usize>) -> Option<i64>
    requires { (p : Plain) × (s : Scope) × (q : Written) × NamesNode p s q named
        × (length numbers.now ≡ length (all_entries p)) }
    ensures { (p : Plain) (s : Scope) (q : Written) → NamesNode p s q named
        → AreNumbersIn p numbers.now s (mentions (PlainExpr.At q))
        → IsNumber p s (PlainExpr.At q) result }
{
    match named {
        Some(node) => numbers[node],
        None => None,
    }
}

/// The number of what a path names, if that is an expression that has one.
fn path_number<'p>(
    alloc: Global,
    instances: &Instances<'p>,
    targets: &Targets<'p>,
    numbers: &[Option<i64>],
    i: usize,
    path: &'p Path,
) -> Result<Option<i64>, AllocError>
    requires { CanAsk instances.now targets.now (length numbers.now) i }
    ensures { (p : Plain) (s : Scope) → AreTargets p instances.now targets.now
        → scope_at p i ≡ Some s
        → AreNumbersIn p numbers.now s (mentions (PlainExpr.At (plain_path path.now)))
        → IfOk result (IsNumber p s (PlainExpr.At (plain_path path.now))) }
{
    let named = targets.named(alloc, instances, i, path)?;
    Ok(number_named(numbers, named))
}

/// The number of an expression that is read in the instance i, if it has one, from those of the
/// abbreviations.
pub fn number<'p>(
    alloc: Global,
    instances: &Instances<'p>,
    targets: &Targets<'p>,
    numbers: &[Option<i64>],
    i: usize,
    expr: &'p Expr,
) -> Result<Option<i64>, AllocError>
    requires { CanAsk instances.now targets.now (length numbers.now) i }
    ensures { (p : Plain) (s : Scope) → AreTargets p instances.now targets.now
        → scope_at p i ≡ Some s → AreNumbersIn p numbers.now s (mentions (plain_expr expr.now))
        → IfOk result (IsNumber p s (plain_expr expr.now)) }
{
    match &expr.kind {
        ExprKind::Number(n) => Ok(Some(i64::from(*n))),
        ExprKind::Truth(truth) => Ok(Some(if *truth { 1 } else { 0 })),
        ExprKind::Path(path) => path_number(alloc, instances, targets, numbers, i, path),
        ExprKind::Parens(inner) => number(alloc, instances, targets, numbers, i, inner),
        ExprKind::Binary(op, left, right) => {
            let Some(x) = number(alloc, instances, targets, numbers, i, left)? else {
                return Ok(None);
            };
            let Some(y) = number(alloc, instances, targets, numbers, i, right)? else {
                return Ok(None);
            };
            Ok(operate(*op, x, y))
        }
        ExprKind::Running => Ok(None),
        ExprKind::Next(_) => Ok(None),
        ExprKind::Braces(_) => Ok(None),
        ExprKind::Case(_) => Ok(None),
        ExprKind::Until(_, _, _) => Ok(None),
        ExprKind::Prefix(_, _) => Ok(None),
    }
}
