//! The paths that are written in an expression.

ghost use Rattle.std.specs.Prelude.{◌≡◌, ◌++◌, flat_map, map, IfOk};
ghost use Rattle.smv_parser.specs.Tree as tree;
ghost use Rattle.smv_parser.specs.View.{tree_of, arm_pair};
ghost use Rattle.smv_instances.specs.Abstract as abstract;
ghost use Rattle.smv_instances.specs.Plain.{plain_expr};
ghost use Rattle.smv_names.specs.Abbreviations.{actual_mentions, mentions as mentions_of, element_mentions, arm_mentions, index_mentions};
ghost use Rattle.smv_names.specs.Mentions.{plain_mention, part_mentions};
ghost use Rattle.smv_names.specs.Written.{plain_path};

use crate::walk::{bare_of, path_of};
use smv_parser::{Arm, Expr, ExprKind, Path, PathPart};
use std::alloc::AllocError;

/// A path that is written in an expression.
#[derive(Clone, Copy)]
pub struct Mention<'p> {
    pub path: &'p Path,
    /// Whether a value is wanted there.
    pub wanted: bool,
}

/// Adds the paths of an expression, in text order.
#[cycle(mentions)]
pub fn push_mentions<'p>(expr: &'p Expr, mentions: &mut Vec<Mention<'p>>) -> Result<(), AllocError>
    ensures { IfOk result (λ _. map plain_mention mentions.new.items
        ≡ map plain_mention mentions.old.items ++ mentions_of (plain_expr expr.now)) }
{
    match &expr.kind {
        ExprKind::Number(_) => Ok(()),
        ExprKind::Truth(_) => Ok(()),
        ExprKind::Running => Ok(()),
        ExprKind::Path(path) => {
            mentions.push(Mention { path, wanted: true })?;
            push_index_mentions(path, mentions)
        }
        ExprKind::Next(inner) => push_mentions(inner, mentions),
        ExprKind::Parens(inner) => push_mentions(inner, mentions),
        ExprKind::Braces(elements) => push_elements(elements, mentions),
        ExprKind::Case(arms) => push_arms(arms, mentions),
        ExprKind::Until(_, left, right) => {
            push_mentions(left, mentions)?;
            push_mentions(right, mentions)
        }
        ExprKind::Prefix(_, inner) => push_mentions(inner, mentions),
        ExprKind::Binary(_, left, right) => {
            push_mentions(left, mentions)?;
            push_mentions(right, mentions)
        }
    }
}

/// Adds the paths of some expressions.
#[cycle(mentions)]
fn push_elements<'p>(
    elements: &'p [Expr],
    mentions: &mut Vec<Mention<'p>>,
) -> Result<(), AllocError>
    ensures { IfOk result (λ _. map plain_mention mentions.new.items
        ≡ map plain_mention mentions.old.items ++ element_mentions
        (abstract.exprs (tree.trees_of (map tree_of elements.now)))) }
{
    for element in elements {
        push_mentions(element, mentions)?;
    }
    Ok(())
}

/// Adds the paths of the arms of a `case`.
#[cycle(mentions)]
fn push_arms<'p>(arms: &'p [Arm], mentions: &mut Vec<Mention<'p>>) -> Result<(), AllocError>
    ensures { IfOk result (λ _. map plain_mention mentions.new.items
        ≡ map plain_mention mentions.old.items ++ arm_mentions
        (abstract.arms (tree.arms_of (map arm_pair arms.now)))) }
{
    for arm in arms {
        push_mentions(&arm.guard, mentions)?;
        push_mentions(&arm.right, mentions)?;
    }
    Ok(())
}

/// Adds the paths in the indexes of a path.
#[cycle(mentions)]
pub fn push_index_mentions<'p>(
    path: &'p Path,
    mentions: &mut Vec<Mention<'p>>,
) -> Result<(), AllocError>
    ensures { IfOk result (λ _. map plain_mention mentions.new.items
        ≡ map plain_mention mentions.old.items ++ index_mentions (plain_path path.now)) }
{
    for part in &path.parts {
        push_part(part, mentions)?;
    }
    Ok(())
}

/// Adds the paths in a part of a path.
#[cycle(mentions)]
fn push_part<'p>(part: &'p PathPart, mentions: &mut Vec<Mention<'p>>) -> Result<(), AllocError>
    ensures { IfOk result (λ _. map plain_mention mentions.new.items
        ≡ map plain_mention mentions.old.items ++ part_mentions part.now) }
{
    match part {
        PathPart::Field(_) => Ok(()),
        PathPart::Index(index) => push_mentions(index, mentions),
    }
}

/// Adds the paths of an actual parameter. One that is a path alone may denote an instance or an array.
fn push_actual<'p>(actual: &'p Expr, mentions: &mut Vec<Mention<'p>>) -> Result<(), AllocError>
    ensures { IfOk result (λ _. map plain_mention mentions.new.items
        ≡ map plain_mention mentions.old.items ++ actual_mentions (plain_expr actual.now)) }
{
    let inner = bare_of(actual);
    match path_of(inner) {
        Some(path) => {
            mentions.push(Mention {
                path,
                wanted: false,
            })?;
            push_index_mentions(path, mentions)
        }
        None => push_mentions(inner, mentions),
    }
}

/// Adds the paths of actual parameters.
pub fn push_actuals<'p>(
    actuals: &'p [Expr],
    mentions: &mut Vec<Mention<'p>>,
) -> Result<(), AllocError>
    ensures { IfOk result (λ _. map plain_mention mentions.new.items
        ≡ map plain_mention mentions.old.items ++ flat_map actual_mentions
        (map plain_expr actuals.now)) }
{
    for actual in actuals {
        push_actual(actual, mentions)?;
    }
    Ok(())
}
