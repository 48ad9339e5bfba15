//! The reader of expressions.

ghost use Rattle.std.specs.Prelude.{◌≡◌, ◌≤◌, ◌<◌, ◌+◌, ◌∷◌, ℕ, List, length, map, max, IfOk, IfSome, IfNone, Some, None, true};
ghost use Rattle.reader_laws.specs.Reading.{both, enclosed, first_is};
ghost use Rattle.smv_lexer.specs.Text.{Placed};
ghost use Rattle.smv_lexer.specs.View.{views};
ghost use Rattle.smv_parser.specs.Gives.{Gives};
ghost use Rattle.smv_lexer.specs.View as tokens;
ghost use Rattle.smv_parser.specs.Reading as reading;
ghost use Rattle.smv_parser.specs.Reading.{Stops, arms_pair_of, begins_expression, begins_part, constant_form, leads, opens, operand, pair_of, read, tail, value_of};
ghost use Rattle.smv_parser.specs.Tests.{is_sign, lead_of, operator_of};
ghost use Rattle.smv_parser.specs.Tree;
ghost use Rattle.smv_parser.specs.Tree.{arms_of, part_depth, parts_of};
ghost use Rattle.smv_parser.specs.View.{arm_pair, form, part_of, path_of, tree_of};
ghost use Rattle.smv_parser.specs.Words.{level_of};

use crate::expressions::{Arm, BinaryOperator, Expr, ExprKind, Path, PathPart};
use crate::reader::{
    Failure, after_key, after_name, after_sign, begins_with_sign, first_line, token_is_sign,
};
use crate::tokens::{Lead, level, right_level, token_lead, token_number, token_operator};
use smv_lexer::{Keyword, Sign, Token};
use std::alloc::Global;

/// An expression with its depth.
#[derive(Drop)]
pub struct Measured {
    pub expr: Expr,
    pub depth: u32,
    ghost depth_is: { depth ≡ Tree.depth (tree_of expr) },
}

/// Expressions with the depth of the deepest.
#[derive(Drop)]
pub struct MeasuredList {
    pub items: Vec<Expr>,
    pub depth: u32,
    ghost depth_is: { depth ≡ Tree.trees_depth (Tree.trees_of (map tree_of items.items)) },
}

/// Arms with the depth of the deepest.
#[derive(Drop)]
pub struct MeasuredArms {
    pub items: Vec<Arm>,
    pub depth: u32,
    ghost depth_is: { depth ≡ Tree.arms_depth (arms_of (map arm_pair items.items)) },
}

/// What follows the first name of a path, with the depth of the deepest index, and 0 where there is none.
#[derive(Drop)]
pub struct MeasuredPath {
    pub items: Vec<PathPart>,
    pub depth: u32,
    ghost depth_is: { depth ≡ Tree.parts_depth (parts_of (map part_of items.items)) },
}

/// A path with its depth.
#[derive(Drop)]
pub struct WholePath {
    pub path: Path,
    pub depth: u32,
    ghost depth_is: { depth ≡ Tree.path_depth (path_of path) },
}

/// The value of a number's token, and 0 where it is none.
fn number(token: &Token) -> u32
    ensures { result ≡ value_of (tokens.view token.now) }
{
    match token_number(token) {
        Some(value) => value,
        None => 0,
    }
}

fn deeper(left: u32, right: u32) -> u32
    ensures { result ≡ max left right }
{
    left.max(right)
}

/// Whether the first token begins an operand.
fn begins_operand(tokens: &[Token]) -> bool
    ensures { result ≡ first_is begins_expression (views tokens.now) }
{
    match tokens.split_first() {
        None => false,
        Some((token, _)) => is_lead(token_lead(token)),
    }
}

fn is_lead(lead: Lead) -> bool
    ensures { result ≡ leads lead }
{
    match lead {
        Lead::Other => false,
        Lead::Name
        | Lead::Number
        | Lead::Truth(_)
        | Lead::Running
        | Lead::Next
        | Lead::Parens
        | Lead::Braces
        | Lead::Case
        | Lead::Until(_)
        | Lead::Prefix(_) => true,
    }
}

/// Whether the first token goes on with a path.
fn goes_on_path(tokens: &[Token]) -> bool
    ensures { result ≡ first_is begins_part (views tokens.now) }
{
    match tokens.split_first() {
        None => false,
        Some((token, _)) => {
            token_is_sign(token, Sign::Dot) || token_is_sign(token, Sign::OpenBracket)
        }
    }
}

/// Whether a token that leads so has expressions after it.
fn opens_parts(lead: Lead) -> bool
    ensures { result ≡ opens lead }
{
    match lead {
        Lead::Name | Lead::Number | Lead::Truth(_) | Lead::Running | Lead::Other => false,
        Lead::Next | Lead::Parens | Lead::Braces | Lead::Case | Lead::Until(_) | Lead::Prefix(_) =>
            true,
    }
}

/// The operand that is this one token.
fn constant(token: &Token) -> Option<ExprKind>
    ensures some { IfSome result (λ k. constant_form (tokens.view token.now) ≡ Some (form k)) }
    ensures none { IfNone result (constant_form (tokens.view token.now) ≡ None) }
{
    match token_lead(token) {
        Lead::Number => Some(ExprKind::Number(number(token))),
        Lead::Truth(value) => Some(ExprKind::Truth(value)),
        Lead::Running => Some(ExprKind::Running),
        Lead::Name
        | Lead::Other
        | Lead::Next
        | Lead::Parens
        | Lead::Braces
        | Lead::Case
        | Lead::Until(_)
        | Lead::Prefix(_) => None,
    }
}

/// The operator that comes next, if it has at least this level, with the tokens after it.
fn next_operator(tokens: &[Token], least: u32) -> Option<(BinaryOperator, &[Token])>
    ensures some { IfSome result
        (λ x. (t : Placed) × (views tokens.now ≡ t ∷ views x.1.now) × (operator_of t ≡ Some x.0)
        × (least ≤ level_of x.0)) }
    ensures none { IfNone result (Stops least (views tokens.now)) }
{
    let (token, rest) = tokens.split_first()?;
    let operator = token_operator(token)?;
    if level(operator) >= least {
        Some((operator, rest))
    } else {
        None
    }
}

/// An expression and the sign that closes it.
#[cycle(reading)]
fn read_closed(
    alloc: Global,
    tokens: &[Token],
    sign: Sign,
    most: u32,
) -> Result<(Measured, &[Token]), Failure>
    requires some { 1 ≤ most }
    requires bounded { most < 1000 }
    ensures reads { Gives (λ x. tree_of x.0.expr) (λ x. views x.1.now) result
        (enclosed (is_sign sign) (read most 1) (views tokens.now)) }
    ensures depth { IfOk result (λ x. x.0.depth ≤ most) }
    ensures shorter { IfOk result (λ x. length x.1.now < length tokens.now) }
{
    let (part, rest) = read_expression(alloc, tokens, 1, most)?;
    let rest = after_sign(rest, sign)?;
    Ok((part, rest))
}

/// The expressions between braces, with a comma between two.
#[cycle(reading)]
fn read_list(
    alloc: Global,
    tokens: &[Token],
    most: u32,
) -> Result<(MeasuredList, &[Token]), Failure>
    requires some { 1 ≤ most }
    requires bounded { most < 1000 }
    ensures reads { Gives (λ x. pair_of (map tree_of x.0.items.items)) (λ x. views x.1.now) result
        (reading.read_list (read most) most (views tokens.now)) }
    ensures some { IfOk result (λ x. 1 ≤ length x.0.items.items) }
    ensures depth { IfOk result (λ x. x.0.depth ≤ most) }
    ensures shorter { IfOk result (λ x. length x.1.now < length tokens.now) }
{
    let (first, mut rest) = read_expression(alloc, tokens, 1, most)?;
    let mut items = Vec::new(alloc);
    let mut depth = first.depth;
    items.push(first.expr)?;
    while begins_with_sign(rest, Sign::Comma) {
        let after = after_sign(rest, Sign::Comma)?;
        let (next, after) = read_expression(alloc, after, 1, most)?;
        items.push(next.expr)?;
        depth = depth.max(next.depth);
        rest = after;
    }
    Ok((MeasuredList { items, depth }, rest))
}

/// The two expressions of an arm.
#[cycle(reading)]
fn read_arm(
    alloc: Global,
    tokens: &[Token],
    most: u32,
) -> Result<(Measured, Measured, &[Token]), Failure>
    requires some { 1 ≤ most }
    requires bounded { most < 1000 }
    ensures reads { Gives (λ x. (tree_of x.0.expr, tree_of x.1.expr)) (λ x. views x.2.now) result
        (reading.read_arm (read most) most (views tokens.now)) }
    ensures depth { IfOk result (λ x. (x.0.depth ≤ most) × (x.1.depth ≤ most)) }
    ensures shorter { IfOk result (λ x. length x.2.now < length tokens.now) }
{
    let (guard, rest) = read_closed(alloc, tokens, Sign::Colon, most)?;
    let (right, rest) = read_closed(alloc, rest, Sign::Semicolon, most)?;
    Ok((guard, right, rest))
}

/// The arms of a `case`, at least one.
#[cycle(reading)]
fn read_arms(
    alloc: Global,
    tokens: &[Token],
    most: u32,
) -> Result<(MeasuredArms, &[Token]), Failure>
    requires some { 1 ≤ most }
    requires bounded { most < 1000 }
    ensures reads { Gives (λ x. arms_pair_of (map arm_pair x.0.items.items))
        (λ x. views x.1.now) result
        (both (reading.read_arm (read most) most) (reading.read_arms (read most) most)
        (views tokens.now)) }
    ensures some { IfOk result (λ x. 1 ≤ length x.0.items.items) }
    ensures depth { IfOk result (λ x. x.0.depth ≤ most) }
    ensures shorter { IfOk result (λ x. length x.1.now < length tokens.now) }
{
    let (guard, right, mut rest) = read_arm(alloc, tokens, most)?;
    let mut items = Vec::new(alloc);
    let mut depth = deeper(guard.depth, right.depth);
    items.push(Arm {
        guard: guard.expr,
        right: right.expr,
    })?;
    while begins_operand(rest) {
        let (next, value, after) = read_arm(alloc, rest, most)?;
        items.push(Arm {
            guard: next.expr,
            right: value.expr,
        })?;
        depth = depth.max(deeper(next.depth, value.depth));
        rest = after;
    }
    Ok((MeasuredArms { items, depth }, rest))
}

/// The two expressions of an until, behind the opening bracket.
#[cycle(reading)]
fn read_until(
    alloc: Global,
    tokens: &[Token],
    most: u32,
) -> Result<(Measured, Measured, &[Token]), Failure>
    requires some { 1 ≤ most }
    requires bounded { most < 1000 }
    ensures reads { Gives (λ x. (tree_of x.0.expr, tree_of x.1.expr)) (λ x. views x.2.now) result
        (reading.read_until (read most) most (views tokens.now)) }
    ensures depth { IfOk result (λ x. (x.0.depth ≤ most) × (x.1.depth ≤ most)) }
    ensures shorter { IfOk result (λ x. length x.2.now < length tokens.now) }
{
    let (left, rest) = read_expression(alloc, tokens, 1, most)?;
    let rest = after_key(rest, Keyword::Until)?;
    let (right, rest) = read_closed(alloc, rest, Sign::CloseBracket, most)?;
    Ok((left, right, rest))
}

/// A dot and a name, or an index of at most depth `most`; with the depth of the index, and 0 for a name.
#[cycle(reading)]
fn read_part(
    alloc: Global,
    tokens: &[Token],
    most: u32,
) -> Result<(PathPart, u32, &[Token]), Failure>
    requires { most < 1000 }
    ensures reads { Gives (λ x. part_of x.0) (λ x. views x.2.now) result
        (reading.read_part (read most) most (views tokens.now)) }
    ensures depth { IfOk result (λ x. (x.1 ≡ part_depth (part_of x.0)) × (x.1 ≤ most)) }
    ensures shorter { IfOk result (λ x. length x.2.now < length tokens.now) }
{
    let Some((token, rest)) = tokens.split_first() else {
        return Err(Failure::Syntax(0));
    };
    if token_is_sign(token, Sign::Dot) {
        let (name, rest) = after_name(alloc, rest)?;
        return Ok((PathPart::Field(name), 0, rest));
    }
    if !token_is_sign(token, Sign::OpenBracket) {
        return Err(Failure::Syntax(tokens.len()));
    }
    if most == 0 {
        return Err(Failure::TooDeep(tokens.len()));
    }
    let (index, rest) = read_closed(alloc, rest, Sign::CloseBracket, most)?;
    Ok((PathPart::Index(index.expr), index.depth, rest))
}

/// What follows the first name of a path, each index of at most depth `most`.
#[cycle(reading)]
fn read_parts(
    alloc: Global,
    tokens: &[Token],
    most: u32,
) -> Result<(MeasuredPath, &[Token]), Failure>
    requires { most < 1000 }
    ensures reads { Gives (λ x. map part_of x.0.items.items) (λ x. views x.1.now) result
        (reading.read_parts (read most) most (views tokens.now)) }
    ensures depth { IfOk result (λ x. x.0.depth ≤ most) }
    ensures within { IfOk result (λ x. length x.1.now ≤ length tokens.now) }
{
    let mut items = Vec::new(alloc);
    let mut depth: u32 = 0;
    let mut rest = tokens;
    while goes_on_path(rest) {
        let (part, its_depth, after) = read_part(alloc, rest, most)?;
        items.push(part)?;
        depth = depth.max(its_depth);
        rest = after;
    }
    Ok((MeasuredPath { items, depth }, rest))
}

/// A path whose indexes have at most depth `most`.
#[cycle(reading)]
pub fn read_path(
    alloc: Global,
    tokens: &[Token],
    most: u32,
) -> Result<(WholePath, &[Token]), Failure>
    requires { most < 1000 }
    ensures reads { Gives (λ x. path_of x.0.path) (λ x. views x.1.now) result
        (reading.read_path (read most) most (views tokens.now)) }
    ensures depth { IfOk result (λ x. x.0.depth ≤ most + 1) }
    ensures shorter { IfOk result (λ x. length x.1.now < length tokens.now) }
{
    let line = first_line(tokens);
    let (first, rest) = after_name(alloc, tokens)?;
    let (parts, rest) = read_parts(alloc, rest, most)?;
    let depth = parts.depth + 1;
    let path = Path {
        first,
        parts: parts.items,
        line,
    };
    Ok((WholePath { path, depth }, rest))
}

/// What an operand has after its first token, where that opens something. The parts have at most depth `most`.
#[cycle(reading)]
fn read_opened<'t>(
    alloc: Global,
    token: &Token,
    rest: &'t [Token],
    most: u32,
) -> Result<(Measured, &'t [Token]), Failure>
    requires opening { opens (lead_of (tokens.view token.now)) ≡ true }
    requires some { 1 ≤ most }
    requires bounded { most < 1000 }
    ensures reads { Gives (λ x. tree_of x.0.expr) (λ x. views x.1.now) result
        (tail (read most) most (lead_of (tokens.view token.now)) (tokens.view token.now)
        (views rest.now)) }
    ensures depth { IfOk result (λ x. x.0.depth ≤ most + 1) }
    ensures shorter { IfOk result (λ x. length x.1.now < length rest.now) }
{
    let line = token.line;
    match token_lead(token) {
        Lead::Parens => {
            let (part, rest) = read_closed(alloc, rest, Sign::CloseParen, most)?;
            let depth = part.depth + 1;
            let kind = ExprKind::Parens(Box::new(alloc, part.expr)?);
            let expr = Expr { kind, line };
            Ok((Measured { expr, depth }, rest))
        }
        Lead::Next => {
            let rest = after_sign(rest, Sign::OpenParen)?;
            let (part, rest) = read_closed(alloc, rest, Sign::CloseParen, most)?;
            let depth = part.depth + 1;
            let kind = ExprKind::Next(Box::new(alloc, part.expr)?);
            let expr = Expr { kind, line };
            Ok((Measured { expr, depth }, rest))
        }
        Lead::Prefix(operator) => {
            let (part, rest) = read_expression(alloc, rest, 4, most)?;
            let depth = part.depth + 1;
            let kind = ExprKind::Prefix(operator, Box::new(alloc, part.expr)?);
            let expr = Expr { kind, line };
            Ok((Measured { expr, depth }, rest))
        }
        Lead::Braces => {
            let (parts, rest) = read_list(alloc, rest, most)?;
            let rest = after_sign(rest, Sign::CloseBrace)?;
            let depth = parts.depth + 1;
            let kind = ExprKind::Braces(parts.items);
            let expr = Expr { kind, line };
            Ok((Measured { expr, depth }, rest))
        }
        Lead::Until(quantifier) => {
            let rest = after_sign(rest, Sign::OpenBracket)?;
            let (left, right, rest) = read_until(alloc, rest, most)?;
            let depth = left.depth.max(right.depth) + 1;
            let boxed = Box::new(alloc, left.expr)?;
            let kind = ExprKind::Until(quantifier, boxed, Box::new(alloc, right.expr)?);
            let expr = Expr { kind, line };
            Ok((Measured { expr, depth }, rest))
        }
        Lead::Case => {
            let (arms, rest) = read_arms(alloc, rest, most)?;
            let rest = after_key(rest, Keyword::Esac)?;
            let depth = arms.depth + 1;
            let kind = ExprKind::Case(arms.items);
            let expr = Expr { kind, line };
            Ok((Measured { expr, depth }, rest))
        }
        Lead::Name | Lead::Number | Lead::Truth(_) | Lead::Running | Lead::Other => unreachable!(),
    }
}

/// What stands left of the first operator. Its parts have at most depth `most`.
#[cycle(reading)]
fn read_operand(alloc: Global, tokens: &[Token], most: u32) -> Result<(Measured, &[Token]), Failure>
    requires { most < 1000 }
    ensures reads { Gives (λ x. tree_of x.0.expr) (λ x. views x.1.now) result
        (operand (read most) most (views tokens.now)) }
    ensures depth { IfOk result (λ x. x.0.depth ≤ most + 1) }
    ensures shorter { IfOk result (λ x. length x.1.now < length tokens.now) }
{
    let Some((token, rest)) = tokens.split_first() else {
        return Err(Failure::Syntax(0));
    };
    let lead = token_lead(token);
    if opens_parts(lead) {
        if most == 0 {
            return Err(Failure::TooDeep(tokens.len()));
        }
        let (part, rest) = read_opened(alloc, token, rest, most)?;
        return Ok((part, rest));
    }
    if let Lead::Name = lead {
        let (whole, rest) = read_path(alloc, tokens, most)?;
        let depth = whole.depth;
        let line = whole.path.line;
        let kind = ExprKind::Path(whole.path);
        let expr = Expr { kind, line };
        return Ok((Measured { expr, depth }, rest));
    }
    let Some(kind) = constant(token) else {
        return Err(Failure::Syntax(tokens.len()));
    };
    let line = token.line;
    let expr = Expr { kind, line };
    Ok((Measured { expr, depth: 1 }, rest))
}

/// An expression whose operators outside brackets have at least this level, of at most this depth.
#[cycle(reading)]
pub fn read_expression(
    alloc: Global,
    tokens: &[Token],
    least: u32,
    most: u32,
) -> Result<(Measured, &[Token]), Failure>
    requires some { 1 ≤ most }
    requires bounded { most < 1000 }
    ensures reads { Gives (λ x. tree_of x.0.expr) (λ x. views x.1.now) result
        (read most least (views tokens.now)) }
    ensures depth { IfOk result (λ x. x.0.depth ≤ most) }
    ensures shorter { IfOk result (λ x. length x.1.now < length tokens.now) }
{
    let (part, mut rest) = read_operand(alloc, tokens, most - 1)?;
    let mut left = part.expr;
    let mut depth = part.depth;
    while let Some((operator, after)) = next_operator(rest, least) {
        if depth >= most {
            return Err(Failure::TooDeep(rest.len()));
        }
        let (right, after) = read_expression(alloc, after, right_level(operator), most - 1)?;
        let line = left.line;
        let boxed = Box::new(alloc, left)?;
        left = Expr {
            kind: ExprKind::Binary(operator, boxed, Box::new(alloc, right.expr)?),
            line,
        };
        depth = depth.max(right.depth) + 1;
        rest = after;
    }
    Ok((Measured { expr: left, depth }, rest))
}
