//! The operators of flat expressions.

ghost use Rattle.std.specs.Prelude.{◌≡◌, IfOk};
ghost use Rattle.kripke_model.specs.Reading.{term_of};
ghost use Rattle.kripke_model.specs.Term.{Term};
ghost use Rattle.smv_instances.specs.Abstract.{is_all, operator};
ghost use Rattle.smv_instantiate.specs.Expanded.{prefix_term};

use kripke_model::expressions::{BinOp, Expr, PathOp};
use smv_parser::{BinaryOperator, PathQuantifier, PrefixOperator};
use std::alloc::{AllocError, Global};

/// The operator of flat expressions.
pub fn binary_operator(written: BinaryOperator) -> BinOp
    ensures { result ≡ operator written }
{
    match written {
        BinaryOperator::Implies => BinOp::Implies,
        BinaryOperator::Iff => BinOp::Iff,
        BinaryOperator::Or => BinOp::Or,
        BinaryOperator::And => BinOp::And,
        BinaryOperator::Equal => BinOp::Eq,
        BinaryOperator::Less => BinOp::Lt,
        BinaryOperator::Greater => BinOp::Gt,
        BinaryOperator::LessOrEqual => BinOp::Le,
        BinaryOperator::GreaterOrEqual => BinOp::Ge,
        BinaryOperator::In => BinOp::Member,
        BinaryOperator::Union => BinOp::Union,
        BinaryOperator::Mod => BinOp::Mod,
        BinaryOperator::Add => BinOp::Add,
        BinaryOperator::Subtract => BinOp::Sub,
        BinaryOperator::Multiply => BinOp::Mul,
        BinaryOperator::Divide => BinOp::Div,
    }
}

/// Whether an until asks for every path.
pub fn is_every(written: PathQuantifier) -> bool
    ensures { result ≡ is_all written }
{
    match written {
        PathQuantifier::All => true,
        PathQuantifier::Exists => false,
    }
}

/// The operator in front of an expression.
pub fn prefixed(alloc: Global, written: PrefixOperator, inner: Expr) -> Result<Expr, AllocError>
    ensures { IfOk result (λ e. term_of e ≡ prefix_term written (term_of inner)) }
{
    let inner = Box::new(alloc, inner)?;
    Ok(match written {
        PrefixOperator::Not => Expr::Not(inner),
        PrefixOperator::ExistsNext => Expr::Quant(PathOp::EX, inner),
        PrefixOperator::AllNext => Expr::Quant(PathOp::AX, inner),
        PrefixOperator::ExistsFinally => Expr::Quant(PathOp::EF, inner),
        PrefixOperator::AllFinally => Expr::Quant(PathOp::AF, inner),
        PrefixOperator::ExistsGlobally => Expr::Quant(PathOp::EG, inner),
        PrefixOperator::AllGlobally => Expr::Quant(PathOp::AG, inner),
    })
}

/// `next ( .. )`.
pub fn next_of(alloc: Global, inner: Expr) -> Result<Expr, AllocError>
    ensures { IfOk result (λ e. term_of e ≡ Term.Next (term_of inner)) }
{
    Ok(Expr::Next(Box::new(alloc, inner)?))
}

/// The operator between two expressions.
pub fn binary(alloc: Global, op: BinOp, left: Expr, right: Expr) -> Result<Expr, AllocError>
    ensures { IfOk result (λ e. term_of e ≡ Term.Binary op (term_of left) (term_of right)) }
{
    let left = Box::new(alloc, left)?;
    let right = Box::new(alloc, right)?;
    Ok(Expr::Binary(op, left, right))
}

/// `A [ .. U .. ]` where every path is asked for, else `E [ .. U .. ]`.
pub fn until(alloc: Global, every: bool, left: Expr, right: Expr) -> Result<Expr, AllocError>
    ensures { IfOk result (λ e. term_of e ≡ Term.Until every (term_of left) (term_of right)) }
{
    let left = Box::new(alloc, left)?;
    let right = Box::new(alloc, right)?;
    Ok(Expr::Until(every, left, right))
}
