//! The order in which the nodes of a graph can be worked off, and the nodes that lie on a cycle.
//!
//! One search along the edges with its stack in memory (Gabow, "Path-based depth-first search for
//! strong and biconnected components"), so no recursion follows the edges.

ghost use Rattle.std.specs.Prelude.{◌≡◌, ℕ, ◌+◌, ◌-◌, ◌<◌, ◌≤◌, ◌↔◌, [], length, slice_index, slice_index_or, replicate, false, OnOk, IfOk, IsTrue};
ghost use Rattle.graph_order.specs.Graphs.{IsGraph, HasEdge, Orders};
ghost use Rattle.graph_order.specs.Searches.{node, next, last_of, first_of, nodes, EdgeAt, Keeps, is_unseen, Enters, Joins, RanksFrom, LooksAt, Steps, Ends};

use crate::graph::Graph;
use std::alloc::{AllocError, Global};

/// How far the search has come with a node.
#[derive(Clone, Copy)]
enum Mark {
    Unseen,
    /// On the stack, at this place.
    Stacked(usize),
    /// In the order, at this place.
    Ranked(usize),
}

/// A node on the stack, and the place of the target that is looked at next.
#[derive(Clone, Copy)]
struct Frame {
    node: usize,
    next: usize,
}

/// The nodes of a graph in an order in which each one that lies on no cycle stands after all its
/// targets, and for each node whether it lies on a cycle.
#[derive(Drop)]
pub struct Order {
    pub order: Vec<usize>,
    pub circular: Vec<bool>,
}

#[derive(Drop)]
struct Search {
    marks: Vec<Mark>,
    /// The nodes that are seen and in no component yet.
    stack: Vec<Frame>,
    /// The places on the stack of the nodes whose targets are being looked at.
    path: Vec<usize>,
    /// The places on the stack at which the components that are known so far begin.
    bounds: Vec<usize>,
    order: Vec<usize>,
    circular: Vec<bool>,
}

/// Whether an edge leads from the node to itself.
fn uses_itself(graph: &Graph, node: usize) -> bool
    requires good { IsGraph graph.now.firsts.items graph.now.targets.items }
    requires is_node { node < nodes graph.now }
    ensures { IsTrue result ↔ HasEdge graph.now.firsts.items graph.now.targets.items node node }
{
    for place in graph.firsts[node]..graph.firsts[node + 1] {
        if graph.targets[place] == node {
            return true;
        }
    }
    false
}

impl Search {
    fn new(alloc: Global, count: usize) -> Result<Self, AllocError>
        ensures marks { IfOk result (λ s. s.marks.items ≡ replicate count Mark.Unseen) }
        ensures circular { IfOk result (λ s. s.circular.items ≡ replicate count false) }
        ensures stack { IfOk result (λ s. s.stack.items ≡ []) }
        ensures path { IfOk result (λ s. s.path.items ≡ []) }
        ensures bounds { IfOk result (λ s. s.bounds.items ≡ []) }
        ensures order { IfOk result (λ s. s.order.items ≡ []) }
    {
        let mut marks = Vec::new(alloc);
        marks.resize(count, Mark::Unseen)?;
        let mut circular = Vec::new(alloc);
        circular.resize(count, false)?;
        Ok(Search {
            marks,
            stack: Vec::new(alloc),
            path: Vec::new(alloc),
            bounds: Vec::new(alloc),
            order: Vec::new(alloc),
            circular,
        })
    }

    /// Puts a node on the stack.
    fn enter(&mut self, node: usize, first: usize) -> Result<(), AllocError>
        requires { node < length self.old.marks.items }
        ensures { OnOk result (Enters node first self.old self.new) }
    {
        let place = self.stack.len();
        self.stack.push(Frame { node, next: first })?;
        self.path.push(place)?;
        self.bounds.push(place)?;
        self.marks[node] = Mark::Stacked(place);
        Ok(())
    }

    /// The place at which the last component begins.
    fn last_bound(&self) -> usize
        requires { 0 < length self.now.bounds.items }
        ensures { result ≡ last_of self.now.bounds.items }
    {
        self.bounds[self.bounds.len() - 1]
    }

    /// Joins the components above the place with the one that it lies in.
    fn join(&mut self, place: usize)
        requires some { 0 < length self.old.bounds.items }
        requires zero { slice_index self.old.bounds.items 0 ≡ 0 }
        ensures keeps { Joins place self.old self.new }
        ensures joined { last_of self.new.bounds.items ≤ place }
        ensures others { self.new ≡ record self.old { bounds = self.new.bounds } }
    {
        while self.last_bound() > place {
            let _ = self.bounds.pop();
        }
    }

    /// Looks at a target of the last node of the path.
    fn look_at(&mut self, graph: &Graph, target: usize) -> Result<(), AllocError>
        requires good { IsGraph graph.now.firsts.items graph.now.targets.items }
        requires keeps { Keeps graph.now self.old }
        requires some { 0 < length self.old.path.items }
        requires edge { EdgeAt graph.now (node self.old.stack.items (last_of self.old.path.items))
            (next self.old.stack.items (last_of self.old.path.items)) target }
        ensures { OnOk result (LooksAt graph.now target self.old self.new) }
    {
        match self.marks[target] {
            Mark::Unseen => self.enter(target, graph.firsts[target]),
            Mark::Stacked(place) => {
                self.join(place);
                Ok(())
            }
            Mark::Ranked(_) => Ok(()),
        }
    }

    /// Follows the next edge of the last node of the path.
    fn follow(&mut self, graph: &Graph, top: usize) -> Result<(), AllocError>
        requires good { IsGraph graph.now.firsts.items graph.now.targets.items }
        requires keeps { Keeps graph.now self.old }
        requires some { 0 < length self.old.path.items }
        requires last { top ≡ last_of self.old.path.items }
        requires more { next self.old.stack.items top
            < first_of graph.now (node self.old.stack.items top + 1) }
        ensures { OnOk result (Steps graph.now self.old self.new) }
    {
        let frame = self.stack[top];
        self.look_at(graph, graph.targets[frame.next])?;
        self.stack[top] = Frame {
            node: frame.node,
            next: frame.next + 1,
        };
        Ok(())
    }

    /// Puts the nodes from a place of the stack on in the order.
    fn rank_from(&mut self, bottom: usize, circular: bool) -> Result<(), AllocError>
        requires marked { (i : ℕ) → i < length self.old.stack.items
            → node self.old.stack.items i < length self.old.marks.items }
        requires flagged { (i : ℕ) → i < length self.old.stack.items
            → node self.old.stack.items i < length self.old.circular.items }
        requires distinct { (i j : ℕ) → i < length self.old.stack.items
            → j < length self.old.stack.items
            → node self.old.stack.items i ≡ node self.old.stack.items j → i ≡ j }
        requires low { bottom ≤ length self.old.stack.items }
        ensures ranks { OnOk result
            (RanksFrom bottom circular self.old.stack.items self.old.marks.items
            self.new.marks.items self.old.order.items self.new.order.items
            self.old.circular.items self.new.circular.items
            (length self.old.stack.items)) }
        ensures stack { OnOk result (self.new.stack.items ≡ self.old.stack.items) }
        ensures path { OnOk result (self.new.path.items ≡ self.old.path.items) }
        ensures bounds { OnOk result (self.new.bounds.items ≡ self.old.bounds.items) }
    {
        for place in bottom..self.stack.len() {
            let node = self.stack[place].node;
            self.marks[node] = Mark::Ranked(self.order.len());
            self.circular[node] = circular;
            self.order.push(node)?;
        }
        Ok(())
    }

    /// Leaves the last node of the path, with its component where it begins there.
    fn leave(&mut self, graph: &Graph, top: usize) -> Result<(), AllocError>
        requires good { IsGraph graph.now.firsts.items graph.now.targets.items }
        requires keeps { Keeps graph.now self.old }
        requires some { 0 < length self.old.path.items }
        requires last { top ≡ last_of self.old.path.items }
        requires done { next self.old.stack.items top
            ≡ first_of graph.now (node self.old.stack.items top + 1) }
        ensures { OnOk result (Steps graph.now self.old self.new) }
    {
        let _ = self.path.pop();
        if self.last_bound() != top {
            return Ok(());
        }
        let _ = self.bounds.pop();
        let circular = self.stack.len() - top > 1 || uses_itself(graph, self.stack[top].node);
        self.rank_from(top, circular)?;
        self.stack.truncate(top);
        Ok(())
    }

    fn step(&mut self, graph: &Graph, top: usize) -> Result<(), AllocError>
        requires good { IsGraph graph.now.firsts.items graph.now.targets.items }
        requires keeps { Keeps graph.now self.old }
        requires some { 0 < length self.old.path.items }
        requires last { top ≡ last_of self.old.path.items }
        ensures { OnOk result (Steps graph.now self.old self.new) }
    {
        let frame = self.stack[top];
        if frame.next < graph.firsts[frame.node + 1] {
            self.follow(graph, top)
        } else {
            self.leave(graph, top)
        }
    }

    /// Works off all that a node leads to.
    fn search_from(&mut self, graph: &Graph, root: usize) -> Result<(), AllocError>
        requires good { IsGraph graph.now.firsts.items graph.now.targets.items }
        requires keeps { Keeps graph.now self.old }
        requires none { length self.old.path.items ≡ 0 }
        requires is_node { root < nodes graph.now }
        requires unseen { slice_index_or self.old.marks.items root Mark.Unseen ≡ Mark.Unseen }
        ensures ends { OnOk result (Ends graph.now self.old self.new) }
        ensures root { OnOk result
            (is_unseen (slice_index_or self.new.marks.items root Mark.Unseen) ≡ false) }
    {
        self.enter(root, graph.firsts[root])?;
        while let Some(top) = self.path.last().copied() {
            self.step(graph, top)?;
        }
        Ok(())
    }
}

/// The order of a graph's nodes, in time linear in nodes and edges (Gabow's form of Tarjan's search
/// for strong components).
pub fn order_of(alloc: Global, graph: &Graph) -> Result<Order, AllocError>
    requires { IsGraph graph.now.firsts.items graph.now.targets.items }
    ensures { IfOk result
        (λ o. Orders graph.now.firsts.items graph.now.targets.items o.order.items
        o.circular.items) }
{
    let count = graph.firsts.len() - 1;
    let mut search = Search::new(alloc, count)?;
    for root in 0..count {
        if let Mark::Unseen = search.marks[root] {
            search.search_from(graph, root)?;
        }
    }
    let Search {
        marks: _,
        stack: _,
        path: _,
        bounds: _,
        order,
        circular,
    } = search;
    Ok(Order { order, circular })
}
