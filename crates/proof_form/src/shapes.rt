//! The shape of a proof: what can be seen without its sets.

ghost use Rattle.std.specs.Prelude.{◌≡◌, ◌↔◌, All, AllPairs, IfOk, IsTrue, length};
ghost use Rattle.kripke_model.specs.Signs.{rule_of, until_rule};
ghost use Rattle.kripke_model.specs.System.{constraint_count};
ghost use Rattle.kripke_model.specs.WellFormed.{ctl_of};
ghost use Rattle.proof_form.specs.Seen.{seen_rule};
ghost use Rattle.proof_form.specs.Preorder.{node_view, node_views, nodes_from};
ghost use Rattle.proof_form.specs.RuleTable.{IsOfNode};
ghost use Rattle.proof_form.specs.Shape.{Avoids, ComesBefore, FitsConstraints, HasRule, IsInShape, kind_of};
ghost use Rattle.proof_form.specs.ShapeParts.{ClaimFits, IsLaidOut};

use crate::form::{Entry, FairPart, Layer, Proof, Rule};
use crate::free_shapes::fits_freely;
use crate::preorder::{Binary, Node, Unary, nodes_of};
use kripke_model::expressions::{Formula, PathOp};
use kripke_model::models::Ruled;
use single_states::evaluation::is_state;
use std::alloc::{AllocError, Global};

/// Whether each layer avoids one of so many constraints.
pub fn all_avoid<T>(layers: &[Layer<T>], count: usize) -> bool
    ensures { IsTrue result ↔ All (Avoids count) layers.now }
{
    for layer in layers {
        if layer.avoid == 0 || layer.avoid as usize > count {
            return false;
        }
    }
    true
}

/// Whether there are reach sets for so many constraints.
pub fn reaches_each<T>(fair: &FairPart<T>, count: usize) -> bool
    ensures { IsTrue result ↔ (length fair.now.reach ≡ count) }
{
    fair.reach.len() == count
}

/// Whether what is given fits so many constraints.
pub fn is_fitting<T>(rule: &Rule<T>, count: usize) -> bool
    ensures { IsTrue result ↔ FitsConstraints count (seen_rule rule.now) }
{
    match rule {
        Rule::AU(layers) => all_avoid(layers, count),
        Rule::ER(fair, _) => fair.reach.len() == count,
        _ => true,
    }
}

/// Whether a comes before b: by node, and `+` before `-`.
pub fn comes_before<T>(a: &Entry<T>, b: &Entry<T>) -> bool
    ensures { IsTrue result ↔ ComesBefore a.now b.now }
{
    a.node < b.node || (a.node == b.node && a.plus && !b.plus)
}

/// Whether what is given is by the rule of the operator's sign.
pub fn is_by<T>(op: PathOp, sign: bool, rule: &Rule<T>) -> bool
    ensures { IsTrue result ↔ (rule_of op sign ≡ kind_of (seen_rule rule.now)) }
{
    match (op, sign) {
        (PathOp::EX, true) | (PathOp::AX, false) => matches!(rule, Rule::EX(_)),
        (PathOp::AX, true) | (PathOp::EX, false) => matches!(rule, Rule::AX(_)),
        (PathOp::EF, true) | (PathOp::AG, false) => matches!(rule, Rule::EU(_)),
        (PathOp::AF, true) | (PathOp::EG, false) => matches!(rule, Rule::AU(_)),
        (PathOp::EG, true) | (PathOp::AF, false) => matches!(rule, Rule::ER(_, _)),
        (PathOp::AG, true) | (PathOp::EF, false) => matches!(rule, Rule::AR(_)),
    }
}

/// The same for `A[f U g]` where the flag is set, else `E[f U g]`.
pub fn is_by_until<T>(all: bool, sign: bool, rule: &Rule<T>) -> bool
    ensures { IsTrue result ↔ (until_rule all sign ≡ kind_of (seen_rule rule.now)) }
{
    match (all, sign) {
        (true, true) => matches!(rule, Rule::AU(_)),
        (true, false) => matches!(rule, Rule::ER(_, _)),
        (false, true) => matches!(rule, Rule::EU(_)),
        (false, false) => matches!(rule, Rule::AR(_)),
    }
}

/// Whether the entry has the rule of its sign of the node.
pub fn is_of_node<T>(node: &Node<'_>, entry: &Entry<T>) -> bool
    ensures { IsTrue result ↔ IsOfNode (node_view node.now) entry.now }
{
    match node {
        Node::One(Unary::Quantified(op)) => is_by(*op, entry.plus, &entry.rule),
        Node::Two(Binary::Until(all), _) => is_by_until(*all, entry.plus, &entry.rule),
        _ => false,
    }
}

/// Whether the entry names a temporal node of the formula, and has the rule of its sign. The nodes are the formula's.
pub fn has_rule<T>(_formula: &Formula, nodes: &[Node<'_>], entry: &Entry<T>) -> bool
    requires { node_views nodes.now ≡ nodes_from (ctl_of _formula.now) 0 }
    ensures { IsTrue result ↔ HasRule (ctl_of _formula.now) entry.now }
{
    let number = entry.node as usize;
    if number == 0 {
        return false;
    }
    if number > nodes.len() {
        return false;
    }
    is_of_node(&nodes[nodes.len() - number], entry)
}

/// Whether each entry comes before all later ones.
fn are_rising<T>(entries: &[Entry<T>]) -> bool
    ensures { IsTrue result ↔ AllPairs ComesBefore entries.now }
{
    for i in 1..entries.len() {
        if !comes_before(&entries[i - 1], &entries[i]) {
            return false;
        }
    }
    true
}

/// Whether what each entry gives fits so many constraints.
fn are_fitting<T>(entries: &[Entry<T>], count: usize) -> bool
    ensures { IsTrue result ↔ All (λ e. FitsConstraints count e.rule) entries.now }
{
    for entry in entries {
        if !is_fitting(&entry.rule, count) {
            return false;
        }
    }
    true
}

/// Whether each entry has a rule of the formula, whose nodes these are.
fn each_has_rule<T>(formula: &Formula, nodes: &[Node<'_>], entries: &[Entry<T>]) -> bool
    requires { node_views nodes.now ≡ nodes_from (ctl_of formula.now) 0 }
    ensures { IsTrue result ↔ All (HasRule (ctl_of formula.now)) entries.now }
{
    for entry in entries {
        if !has_rule(formula, nodes, entry) {
            return false;
        }
    }
    true
}

/// Whether each entry has a rule of the formula.
fn have_rules<T>(alloc: Global, formula: &Formula, entries: &[Entry<T>]) -> Result<bool, AllocError>
    ensures { IfOk result (λ yes. IsTrue yes ↔ All (HasRule (ctl_of formula.now)) entries.now) }
{
    let nodes = nodes_of(alloc, formula)?;
    Ok(each_has_rule(formula, &nodes, entries))
}

/// Whether the entries rise, and all that the proof gives fits so many constraints.
fn is_laid_out<T>(proof: &Proof<T>, count: usize) -> bool
    ensures { IsTrue result ↔ IsLaidOut count proof.now }
{
    if !are_rising(&proof.entries) {
        return false;
    }
    if !all_avoid(&proof.nonfair, count) {
        return false;
    }
    if !reaches_each(&proof.fair, count) {
        return false;
    }
    are_fitting(&proof.entries, count)
}

/// Whether the proof names a state of the model exactly where it claims that the formula is false.
fn claim_fits<T>(model: &Ruled, proof: &Proof<T>) -> bool
    ensures { IsTrue result ↔ ClaimFits model.now proof.now }
{
    match &proof.at {
        None => proof.claim,
        Some(state) => !proof.claim && is_state(model, state),
    }
}

/// The number of constraints. Where none is declared there is one that each state meets.
fn constraint_count(model: &Ruled) -> usize
    ensures { result ≡ constraint_count model.now }
{
    model.constraints().len().max(1)
}

/// Whether the proof has the shape of one of the formula.
pub fn is_in_shape<T>(
    alloc: Global,
    model: &Ruled,
    formula: &Formula,
    proof: &Proof<T>,
) -> Result<bool, AllocError>
    ensures { IfOk result (λ yes. IsTrue yes ↔ IsInShape model.now (ctl_of formula.now) proof.now) }
{
    if !is_laid_out(proof, constraint_count(model)) {
        return Ok(false);
    }
    if !claim_fits(model, proof) {
        return Ok(false);
    }
    if !fits_freely(alloc, model, &proof.free)? {
        return Ok(false);
    }
    have_rules(alloc, formula, &proof.entries)
}
