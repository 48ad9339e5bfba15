//! How many specifications, constraints and nodes the items have together.

ghost use Rattle.std.specs.Prelude.{◌≡◌, ◌≤◌, ◌++◌, ◌∷◌, ℕ, [], List};
ghost use Rattle.smv_instances.specs.Instances.{Scope};
ghost use Rattle.smv_instances.specs.Program.{Kind, Stated};
ghost use Rattle.smv_names.specs.Values.{IsSize};
ghost use Rattle.smv_instantiate.specs.Flattens.{Placed};
ghost use Rattle.smv_instantiate.specs.Flattens.Item.{States};
ghost use Rattle.smv_instantiate.specs.Items.{kind_of};
ghost use Rattle.smv_instantiate.specs.Refuses.{count_rows};
ghost use Rattle.smv_instantiate.specs.Passes.{AddsSize, AreCounts, Counts};

use kripke_model::refusals::{FlatRefusal, Which};
use smv_names::sizes::Size;
use smv_parser::Condition;

/// The most specifications that a program has.
pub const MOST_SPECIFICATIONS: u32 = 256;
/// The most constraints that a program has.
pub const MOST_CONSTRAINTS: u32 = 64;
/// The most nodes that the expressions of all items have.
pub const MOST_NODES: u32 = 200_000;
/// How deep the nodes of an expression lie at most.
pub const MOST_NESTING: u32 = 1_024;

/// The counts of the items so far.
#[derive(Clone, Copy)]
pub struct Totals {
    pub specifications: u32,
    pub constraints: u32,
    pub nodes: u32,
}

/// Those of no items.
pub fn no_totals() -> Totals
    ensures counts { AreCounts result [] }
    ensures nodes { result.nodes ≡ 0 }
{
    Totals {
        specifications: 0,
        constraints: 0,
        nodes: 0,
    }
}

/// Counts a specification.
fn count_specification(line: u32, totals: &Totals) -> Result<Totals, FlatRefusal>
    ensures { (items : List Placed) (s : Scope) (c : Stated) → c.kind ≡ Kind.Spec → c.line ≡ line
        → AreCounts totals.now items
        → Counts totals.now items (s, States c) (count_rows (items ++ (s, States c) ∷ []) c)
        result }
{
    if totals.specifications >= MOST_SPECIFICATIONS {
        return Err(FlatRefusal::Limit {
            line,
            which: Which::Specifications,
            counted: 257,
        });
    }
    Ok(Totals {
        specifications: totals.specifications + 1,
        constraints: totals.constraints,
        nodes: totals.nodes,
    })
}

/// Counts a constraint.
fn count_constraint(line: u32, totals: &Totals) -> Result<Totals, FlatRefusal>
    ensures { (items : List Placed) (s : Scope) (c : Stated) → c.kind ≡ Kind.Fairness
        → c.line ≡ line → AreCounts totals.now items
        → Counts totals.now items (s, States c) (count_rows (items ++ (s, States c) ∷ []) c)
        result }
{
    if totals.constraints >= MOST_CONSTRAINTS {
        return Err(FlatRefusal::Limit {
            line,
            which: Which::Constraints,
            counted: 65,
        });
    }
    Ok(Totals {
        specifications: totals.specifications,
        constraints: totals.constraints + 1,
        nodes: totals.nodes,
    })
}

/// Counts a condition, or refuses it.
pub fn count_condition(
    condition: Condition,
    line: u32,
    totals: &Totals,
) -> Result<Totals, FlatRefusal>
    ensures { (items : List Placed) (s : Scope) (c : Stated) → c.kind ≡ kind_of condition
        → c.line ≡ line → AreCounts totals.now items
        → Counts totals.now items (s, States c) (count_rows (items ++ (s, States c) ∷ []) c)
        result }
{
    match condition {
        Condition::Init | Condition::Invar | Condition::Trans => Ok(*totals),
        Condition::Spec => count_specification(line, totals),
        Condition::Fairness => count_constraint(line, totals),
    }
}

/// Adds the nodes of an expression, or refuses it for them or for its nesting.
pub fn add_size(line: u32, size: Size, totals: &Totals) -> Result<Totals, FlatRefusal>
    requires { totals.now.nodes ≤ 200000 }
    ensures { (n d : ℕ) → IsSize size n d → AddsSize totals.now line n d result }
{
    let nodes = totals.nodes.saturating_add(size.nodes);
    if nodes > MOST_NODES {
        return Err(FlatRefusal::Limit {
            line,
            which: Which::Nodes,
            counted: 200_001,
        });
    }
    if size.nesting > MOST_NESTING {
        return Err(FlatRefusal::Limit {
            line,
            which: Which::Nesting,
            counted: 1_025,
        });
    }
    Ok(Totals {
        specifications: totals.specifications,
        constraints: totals.constraints,
        nodes,
    })
}
