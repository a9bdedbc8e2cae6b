//! Edges without weights.

/// An edge, given by the numbers of its two nodes.
#[derive(Clone, Copy, Debug, PartialEq, Eq)]
pub struct Edge {
    /// The number of the source node.
    pub from: u32,
    /// The number of the target node.
    pub to: u32,
}
