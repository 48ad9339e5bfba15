//! Directed graphs.

ghost use Rattle.std.specs.Prelude.{◌≡◌, ◌++◌, ◌∷◌, [], length, IfOk, OnOk, IsTrue, ◌↔◌};

use std::alloc::{AllocError, Global};

/// A directed graph over the numbers below a count. The targets of node `v` stand in `targets`
/// from `firsts[v]` up to `firsts[v + 1]`, so `firsts` has one member more than there are nodes.
#[derive(Drop)]
pub struct Graph {
    pub firsts: Vec<usize>,
    pub targets: Vec<usize>,
}

impl Graph {
    ghost use Rattle.graph_order.specs.Graphs.{IsStarted, IsGraph, vertex_count};

    /// A graph without nodes.
    pub fn new(alloc: Global) -> Result<Graph, AllocError>
        ensures started { IfOk result (λ g. IsStarted g.firsts.items g.targets.items) }
        ensures none { IfOk result (λ g. vertex_count g.firsts.items ≡ 0) }
        ensures firsts { IfOk result (λ g. g.firsts.items ≡ 0 ∷ []) }
        ensures targets { IfOk result (λ g. g.targets.items ≡ []) }
    {
        let mut firsts = Vec::new(alloc);
        firsts.push(0)?;
        Ok(Graph {
            firsts,
            targets: Vec::new(alloc),
        })
    }

    /// Adds an edge from the node that comes next.
    pub fn add_edge(&mut self, target: usize) -> Result<(), AllocError>
        requires { IsStarted self.old.firsts.items self.old.targets.items }
        ensures started { OnOk result (IsStarted self.new.firsts.items self.new.targets.items) }
        ensures firsts { OnOk result (self.new.firsts.items ≡ self.old.firsts.items) }
        ensures targets { OnOk result
            (self.new.targets.items ≡ self.old.targets.items ++ target ∷ []) }
    {
        self.targets.push(target)?;
        Ok(())
    }

    /// Adds the node whose edges were added since the last one.
    pub fn end_node(&mut self) -> Result<(), AllocError>
        requires { IsStarted self.old.firsts.items self.old.targets.items }
        ensures started { OnOk result (IsStarted self.new.firsts.items self.new.targets.items) }
        ensures firsts { OnOk result
            (self.new.firsts.items ≡ self.old.firsts.items ++ length self.old.targets.items ∷ []) }
        ensures targets { OnOk result (self.new.targets.items ≡ self.old.targets.items) }
    {
        self.firsts.push(self.targets.len())?;
        Ok(())
    }

    /// Whether each target is a node.
    pub fn is_whole(&self) -> bool
        requires { IsStarted self.now.firsts.items self.now.targets.items }
        ensures { IsTrue result ↔ IsGraph self.now.firsts.items self.now.targets.items }
    {
        let count = self.firsts.len() - 1;
        for target in &self.targets {
            if *target >= count {
                return false;
            }
        }
        true
    }
}
