// A certificate over the nodes of a list.
use bdd_nodes::Triple;
use strong_fair::certificate::Reason;

/// A row of a certificate whose sets are 0 (no state), 1 (every state) or the numbers of nodes.
#[derive(Clone, Copy, Debug, PartialEq, Eq)]
pub struct NodeRow {
    pub set: u32,
    pub reason: Reason,
}

/// A certificate that no path is strongly fair, over a list of nodes, which are counted from 2.
#[derive(Drop)]
pub struct NodeCertificate {
    pub nodes: Vec<Triple>,
    pub inside: u32,
    pub rows: Vec<NodeRow>,
}
