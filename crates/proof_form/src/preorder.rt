//! The nodes of a formula in a list: the last part's, then the first one's, then the node itself. So the list read
//! backwards has the nodes in preorder.

ghost use Rattle.std.specs.Prelude.{◌≡◌, ◌++◌, [], length, map, IfOk};
ghost use Rattle.kripke_model.specs.WellFormed.{ctl_of};
ghost use Rattle.proof_form.specs.Preorder.{IsShapeOf, node_views, nodes_from};

use kripke_model::expressions::{Expr, Formula, PathOp};
use std::alloc::{AllocError, Global};

/// What makes a node of one part.
#[derive(Clone, Copy)]
pub enum Unary {
    Not,
    Quantified(PathOp),
}

/// What makes a node of two parts.
#[derive(Clone, Copy)]
pub enum Binary {
    And,
    Or,
    Implies,
    Iff,
    /// `A[f U g]` where the flag is true, else `E[f U g]`.
    Until(bool),
}

/// A node in a list that has its parts before it. The first part, or the only one, stands right before the node.
#[derive(Drop)]
pub enum Node<'a> {
    Leaf(&'a Expr),
    One(Unary),
    /// The last part stands at this place.
    Two(Binary, usize),
}

/// A formula as a leaf, or as a node of one part or of two.
#[derive(Drop)]
enum Shape<'a> {
    Leaf(&'a Expr),
    One(Unary, &'a Formula),
    Two(Binary, &'a Formula, &'a Formula),
}

fn shape_of(formula: &Formula) -> Shape<'_>
    ensures { IsShapeOf result (ctl_of formula.now) }
{
    match formula {
        Formula::Leaf(expr) => Shape::Leaf(expr),
        Formula::Not(f) => Shape::One(Unary::Not, f),
        Formula::And(f, g) => Shape::Two(Binary::And, f, g),
        Formula::Or(f, g) => Shape::Two(Binary::Or, f, g),
        Formula::Implies(f, g) => Shape::Two(Binary::Implies, f, g),
        Formula::Iff(f, g) => Shape::Two(Binary::Iff, f, g),
        Formula::Quant(op, f) => Shape::One(Unary::Quantified(*op), f),
        Formula::Until(all, f, g) => Shape::Two(Binary::Until(*all), f, g),
    }
}

/// Adds the nodes of a formula.
fn add_nodes<'a>(formula: &'a Formula, nodes: &mut Vec<Node<'a>>) -> Result<(), AllocError>
    ensures { IfOk result (λ _. node_views nodes.new.items
        ≡ node_views nodes.old.items ++ nodes_from (ctl_of formula.now) (length nodes.old.items)) }
{
    match shape_of(formula) {
        Shape::Leaf(expr) => {
            nodes.push(Node::Leaf(expr))?;
        }
        Shape::One(kind, f) => {
            add_nodes(f, nodes)?;
            nodes.push(Node::One(kind))?;
        }
        Shape::Two(kind, f, g) => {
            add_nodes(g, nodes)?;
            let last = nodes.len() - 1;
            add_nodes(f, nodes)?;
            nodes.push(Node::Two(kind, last))?;
        }
    }
    Ok(())
}

/// The nodes of a formula.
pub fn nodes_of(alloc: Global, formula: &Formula) -> Result<Vec<Node<'_>>, AllocError>
    ensures { IfOk result (λ nodes. node_views nodes.items ≡ nodes_from (ctl_of formula.now) 0) }
{
    let mut nodes = Vec::new(alloc);
    add_nodes(formula, &mut nodes)?;
    Ok(nodes)
}
