//! Which variables lie on a cycle of the graph of two tables.

ghost use Rattle.std.specs.Prelude.{◌≡◌, ◌++◌, ◌∷◌, [], length, IfOk, OnOk};
ghost use Rattle.graph_order.specs.Graphs.{IsStarted};
ghost use Rattle.smv_static.specs.Numbers.{IsBelow};
ghost use Rattle.smv_static.specs.Ways.{HasRows, AreCycleFlags};

use crate::numbers::{Row, row_at};
use graph_order::{Graph, order_of};
use std::alloc::{AllocError, Global};

/// Adds an edge to each number in the row, from the node that comes next.
fn add_edges(graph: &mut Graph, row: &[u32]) -> Result<(), AllocError>
    requires { IsStarted graph.old.firsts.items graph.old.targets.items }
    ensures started { OnOk result (IsStarted graph.new.firsts.items graph.new.targets.items) }
    ensures firsts { OnOk result (graph.new.firsts.items ≡ graph.old.firsts.items) }
    ensures targets { OnOk result (graph.new.targets.items ≡ graph.old.targets.items ++ row.now) }
{
    for y in row {
        graph.add_edge(*y as usize)?;
    }
    Ok(())
}

/// Adds a node with an edge to each number in either row.
fn add_node(graph: &mut Graph, base: &[u32], extra: &[u32]) -> Result<(), AllocError>
    requires { IsStarted graph.old.firsts.items graph.old.targets.items }
    ensures started { OnOk result (IsStarted graph.new.firsts.items graph.new.targets.items) }
    ensures firsts { OnOk result
        (graph.new.firsts.items ≡ graph.old.firsts.items ++ length graph.new.targets.items ∷ []) }
    ensures targets { OnOk result
        (graph.new.targets.items ≡ graph.old.targets.items ++ (base.now ++ extra.now)) }
{
    add_edges(graph, base)?;
    add_edges(graph, extra)?;
    graph.end_node()
}

/// The graph over the variables with the edges of both tables.
fn graph_of(
    alloc: Global,
    base: &[Row],
    extra: &[Row],
    variables: usize,
) -> Result<Graph, AllocError>
    requires base { IsBelow variables base.now }
    requires extra { IsBelow variables extra.now }
    ensures started { IfOk result (λ g. IsStarted g.firsts.items g.targets.items) }
    ensures rows { IfOk result
        (λ g. HasRows base.now extra.now variables variables g.firsts.items g.targets.items) }
{
    let mut graph = Graph::new(alloc)?;
    for x in 0..variables {
        add_node(&mut graph, row_at(base, x), row_at(extra, x))?;
    }
    Ok(graph)
}

/// For each variable whether a way leads from it back to it, found in one pass over the graph.
pub fn on_cycles(
    alloc: Global,
    base: &[Row],
    extra: &[Row],
    variables: usize,
) -> Result<Vec<bool>, AllocError>
    requires base { IsBelow variables base.now }
    requires extra { IsBelow variables extra.now }
    ensures { IfOk result (λ flags. AreCycleFlags base.now extra.now flags.items) }
{
    let graph = graph_of(alloc, base, extra, variables)?;
    let order = order_of(alloc, &graph)?;
    Ok(order.circular)
}
