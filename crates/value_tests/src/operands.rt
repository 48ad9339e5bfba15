//! Expressions over a model with a boolean, a range `3..7` and a variable of one value.

ghost use Rattle.std.specs.Prelude.{IfOk};
ghost use Rattle.bit_encode.specs.Rows.{mixed_model};
ghost use Rattle.kripke_model.specs.Evaluable.{IsEvaluable};
ghost use Rattle.kripke_model.specs.Reading.{term_of};
ghost use Rattle.kripke_model.specs.System.{System};
ghost use Rattle.kripke_model.specs.Term.{Term, none, more, esac, arm};

use kripke_model::expressions::{Arm, BinOp, Expr, Value};
use std::alloc::{AllocError, Global};

fn constant(i: i32) -> Expr
    ensures { IsEvaluable mixed_model (term_of result) }
{
    Expr::Const(Value::Number(i))
}

/// `next(e)`
fn next(alloc: Global, e: Expr) -> Result<Expr, AllocError>
    requires { IsEvaluable mixed_model (term_of e) }
    ensures { IfOk result (λ r. IsEvaluable mixed_model (term_of r)) }
{
    Ok(Expr::Next(Box::new(alloc, e)?))
}

/// `!e`
fn not(alloc: Global, e: Expr) -> Result<Expr, AllocError>
    requires { IsEvaluable mixed_model (term_of e) }
    ensures { IfOk result (λ r. IsEvaluable mixed_model (term_of r)) }
{
    Ok(Expr::Not(Box::new(alloc, e)?))
}

/// `(a OP b)`
fn binary(alloc: Global, op: BinOp, a: Expr, b: Expr) -> Result<Expr, AllocError>
    requires a { IsEvaluable mixed_model (term_of a) }
    requires b { IsEvaluable mixed_model (term_of b) }
    ensures { IfOk result (λ r. IsEvaluable mixed_model (term_of r)) }
{
    Ok(Expr::Binary(op, Box::new(alloc, a)?, Box::new(alloc, b)?))
}

/// `{a, b, c}`
fn braces(alloc: Global, a: Expr, b: Expr, c: Expr) -> Result<Expr, AllocError>
    requires a { IsEvaluable mixed_model (term_of a) }
    requires b { IsEvaluable mixed_model (term_of b) }
    requires c { IsEvaluable mixed_model (term_of c) }
    ensures { IfOk result (λ r. IsEvaluable mixed_model (term_of r)) }
{
    let elements = vec![in alloc; a, b, c]?;
    Ok(Expr::Braces(elements))
}

/// `case guard : right; other : last; esac`
fn two_arms(
    alloc: Global,
    guard: Expr,
    right: Expr,
    other: Expr,
    last: Expr,
) -> Result<Expr, AllocError>
    requires guard { IsEvaluable mixed_model (term_of guard) }
    requires right { IsEvaluable mixed_model (term_of right) }
    requires other { IsEvaluable mixed_model (term_of other) }
    requires last { IsEvaluable mixed_model (term_of last) }
    ensures { IfOk result (λ r. IsEvaluable mixed_model (term_of r)) }
{
    let first = Arm { guard, right };
    let second = Arm {
        guard: other,
        right: last,
    };
    let arms = vec![in alloc; first, second]?;
    Ok(Expr::Case(arms))
}

/// A constant or a variable: the boolean flag, the range 3..7, or the variable of one value.
fn leaf(i: usize) -> Expr
    ensures { IsEvaluable mixed_model (term_of result) }
{
    match i {
        0 => Expr::Var(0),
        1 => Expr::Var(1),
        2 => Expr::Var(2),
        3 => Expr::Const(Value::Symbol(0)),
        4 => constant(0),
        5 => constant(1),
        6 => constant(-3),
        7 => constant(i32::MAX),
        _ => Expr::Running(0),
    }
}

/// `{count, only, next(count)}`
fn mixed_set(alloc: Global) -> Result<Expr, AllocError>
    ensures { IfOk result (λ r. IsEvaluable mixed_model (term_of r)) }
{
    let count = next(alloc, leaf(1))?;
    braces(alloc, leaf(1), leaf(3), count)
}

/// `case flag : count; next(flag) : only; esac`
fn falls_through(alloc: Global) -> Result<Expr, AllocError>
    ensures { IfOk result (λ r. IsEvaluable mixed_model (term_of r)) }
{
    let flag = next(alloc, leaf(0))?;
    two_arms(alloc, leaf(0), leaf(1), flag, leaf(3))
}

/// `case !flag : {0, -3, count}; count : y; esac`
fn set_or_fault(alloc: Global) -> Result<Expr, AllocError>
    ensures { IfOk result (λ r. IsEvaluable mixed_model (term_of r)) }
{
    let set = braces(alloc, leaf(4), leaf(6), leaf(1))?;
    let guard = not(alloc, leaf(0))?;
    two_arms(alloc, guard, set, leaf(1), leaf(2))
}

/// An operand: a leaf, a set, a negation, a `case` that may fall through, or one that reads the next state.
fn operand(alloc: Global, i: usize) -> Result<Expr, AllocError>
    ensures { IfOk result (λ r. IsEvaluable mixed_model (term_of r)) }
{
    match i {
        9 => next(alloc, leaf(0)),
        10 => next(alloc, leaf(1)),
        11 => not(alloc, leaf(0)),
        12 => braces(alloc, leaf(4), leaf(5), leaf(0)),
        13 => mixed_set(alloc),
        14 => falls_through(alloc),
        15 => set_or_fault(alloc),
        _ => Ok(leaf(i)),
    }
}

/// How many operands there are.
const OPERANDS: usize = 16;

/// How many pairs of operands there are.
pub const PAIRS: usize = OPERANDS * OPERANDS;

pub static OPERATORS: [BinOp; 16] = [
    BinOp::Mul,
    BinOp::Div,
    BinOp::Add,
    BinOp::Sub,
    BinOp::Mod,
    BinOp::Union,
    BinOp::Member,
    BinOp::Eq,
    BinOp::Lt,
    BinOp::Gt,
    BinOp::Le,
    BinOp::Ge,
    BinOp::And,
    BinOp::Or,
    BinOp::Implies,
    BinOp::Iff,
];

/// The operator on a pair of operands.
pub fn applied(alloc: Global, op: BinOp, pair: usize) -> Result<Expr, AllocError>
    ensures { IfOk result (λ r. IsEvaluable mixed_model (term_of r)) }
{
    let a = operand(alloc, pair / OPERANDS)?;
    let b = operand(alloc, pair % OPERANDS)?;
    binary(alloc, op, a, b)
}
