//! The result of a breadth-first search.
ghost use Rattle.residual_graph.specs.Trees.{HaveParents};

use crate::ResidualArc;

/// A visited node: the residual arc that reached it, and the index of its parent among the visits.
#[derive(Clone, Copy)]
pub(crate) struct Visit {
    pub(crate) node: u32,
    pub(crate) step: ResidualArc,
    pub(crate) parent: usize,
}

/// Which nodes a search reached, and a level for each node: its distance from the start in residual arcs, 2^32 - 1 if the node isn't
/// reached. The contracts promise only that there is a level for each node, not its value.
#[derive(Drop)]
pub struct SearchResult {
    /// For each node whether it is reached.
    pub reached_flags: Vec<bool>,
    /// For each node its level.
    pub levels: Vec<u32>,
    pub(crate) visits: Vec<Visit>,
    ghost have_parents: { HaveParents visits.items },
}
