//! The largest set of nodes each of which has an edge to a member: the nodes from which a cycle is reachable.
ghost use Rattle.std.specs.Prelude.{ℕ, ◌≡◌, ◌<◌, ◌≤◌, ◌+◌, ◌++◌, List, [], ◌∷◌, Contains, false, true, length, slice_set, vec_len, IfOk, IfSome, IfNone, OnOk};
ghost use Rattle.digraph.specs.Cycle.{IsCycleCore, IsSmallestSuccessor};
ghost use Rattle.digraph.specs.Marks.{edge_at, marked, index_at, work_left, StartsFrom, ArePassed, AreStarts, IsPruning, LeadsToMarked};
ghost use Rattle.digraph.specs.Incoming.{AreIncoming};
ghost use Rattle.digraph.specs.Edges.{AreBetween, IsAscending, Leads};

use crate::incoming::append_dependents;
use crate::{Edge, LinkedLists, link_by_key};
use std::alloc::{AllocError, Global};

/// The candidate set while nodes are removed from it, and at the end the largest set of nodes that each have an edge to a member.
#[derive(Drop)]
pub(crate) struct CycleCore {
    /// For each node whether it is still a candidate.
    pub(crate) marks: Vec<bool>,
    /// For each node the index of its current edge. No earlier edge of the node leads to a candidate. At the end the current edge of each
    /// candidate leads to a candidate.
    pub(crate) places: Vec<usize>,
}

/// Whether the node's flag is set; false past the end.
pub fn is_marked(marks: &[bool], node: u32) -> bool
    // The result is the node's flag; false past the end.
    ensures { result ≡ marked marks.now node }
{
    match marks.get(node as usize) {
        Some(mark) => *mark,
        None => false,
    }
}

/// For each node the index of its first edge; the number of edges for a node without any.
fn first_edge_indices(alloc: Global, edges: &[Edge], nodes: usize) -> Result<Vec<usize>, AllocError>
    // Both ends of each edge are nodes.
    requires between { AreBetween edges.now nodes }
    // The edges are strictly sorted.
    requires ascending { IsAscending edges.now }
    ensures { IfOk result (λ places. AreStarts edges.now nodes places.items) }
{
    let mut places = vec![in alloc; edges.len(); nodes]?;
    for place in (0..edges.len()).rev() {
        places[edges[place].from as usize] = place;
    }
    Ok(places)
}

/// All nodes, in ascending order.
fn all_nodes(alloc: Global, nodes: usize) -> Result<Vec<u32>, AllocError>
    requires { nodes ≤ 8192 }
    ensures { IfOk result (λ all. (v : ℕ) → v < nodes → Contains all.items v) }
{
    let mut all = Vec::new(alloc);
    for node in 0..nodes {
        all.push(node as u32)?;
    }
    Ok(all)
}

/// The index of the node's first edge to a candidate, from index `start` on. None if no edge of the node from there on leads to one.
fn find_edge_to_marked(edges: &[Edge], marks: &[bool], node: u32, start: usize) -> Option<usize>
    // The edges are strictly sorted.
    requires ascending { IsAscending edges.now }
    requires start { StartsFrom edges.now node start }
    // The index is `start` or a later one.
    ensures after { IfSome result (λ place. start ≤ place) }
    // The edge leads from the node to a candidate.
    ensures leads { IfSome result (λ place. LeadsToMarked edges.now marks.now node place) }
    // No edge of the node between `start` and the index leads to a candidate.
    ensures passed { IfSome result (λ place. ArePassed edges.now marks.now node start place) }
    // Without a result no edge of the node from `start` on leads to a candidate.
    ensures none { IfNone result (ArePassed edges.now marks.now node start (length edges.now)) }
{
    for place in start..edges.len() {
        if edges[place].from != node {
            return None;
        }
        if is_marked(marks, edges[place].to) {
            return Some(place);
        }
    }
    None
}

impl CycleCore {
    /// Sets the node's current edge to its next edge to a candidate. If none is left, removes the node from the candidates and appends the
    /// nodes whose current edge leads to it to `again`, the nodes to inspect.
    fn recheck_node(
        &mut self,
        edges: &[Edge],
        incoming: &LinkedLists,
        node: u32,
        again: &mut Vec<u32>,
    ) -> Result<(), AllocError>
        // The edges are strictly sorted.
        requires ascending { IsAscending edges.now }
        // Both ends of each edge are nodes.
        requires between { AreBetween edges.now (vec_len self.old.marks) }
        // `incoming` lists the edges by target.
        requires incoming { AreIncoming edges.now (vec_len self.old.marks) incoming.now.last.items incoming.now.before.items (length edges.now) }
        // The invariant of the search holds, with `node` among the nodes to inspect.
        requires settling { IsPruning edges.now (vec_len self.old.marks) self.old.marks.items self.old.places.items (again.old.items ++ node ∷ []) }
        // The invariant of the search holds for the nodes that are left to inspect.
        ensures settling { OnOk result (IsPruning edges.now (vec_len self.old.marks) self.new.marks.items self.new.places.items again.new.items) }
        // The bound on the inspections that are left has not grown.
        ensures less { OnOk result (work_left edges.now self.new.marks.items again.new.items ≤ work_left edges.now self.old.marks.items again.old.items) }
    {
        if !is_marked(self.marks.as_slice(), node) {
            return Ok(());
        }
        let start = self.places[node as usize];
        match find_edge_to_marked(edges, self.marks.as_slice(), node, start) {
            Some(place) => self.places[node as usize] = place,
            None => {
                self.marks[node as usize] = false;
                append_dependents(edges, incoming, &self.places, node, again)?;
            }
        }
        Ok(())
    }

    /// Inspects nodes, initially all of them, until each candidate has an edge to a candidate.
    fn prune(&mut self, alloc: Global, edges: &[Edge], nodes: usize) -> Result<(), AllocError>
        // Both ends of each edge are nodes.
        requires between { AreBetween edges.now nodes }
        // The edges are strictly sorted.
        requires ascending { IsAscending edges.now }
        requires few_nodes { nodes ≤ 8192 }
        requires begun { (again : List ℕ) → ((v : ℕ) → v < nodes → Contains again v) → IsPruning edges.now nodes self.old.marks.items self.old.places.items again }
        // Each candidate has an edge to a candidate. No node from which a cycle is reachable was removed.
        ensures { OnOk result (IsPruning edges.now nodes self.new.marks.items self.new.places.items []) }
    {
        let incoming = link_by_key(alloc, edges, nodes, |edge: &Edge| edge.to)?;
        let mut again = all_nodes(alloc, nodes)?;
        while let Some(node) = again.pop() {
            self.recheck_node(edges, &incoming, node, &mut again)?;
        }
        Ok(())
    }
}

/// The largest set of nodes in which each node has an edge to a node of the set. Takes time linear in nodes and edges.
pub(crate) fn compute_cycle_core(
    alloc: Global,
    edges: &[Edge],
    nodes: usize,
) -> Result<CycleCore, AllocError>
    // Both ends of each edge are nodes.
    requires between { AreBetween edges.now nodes }
    // The edges are strictly sorted.
    requires ascending { IsAscending edges.now }
    requires few_nodes { nodes ≤ 8192 }
    // The candidates are the largest set of nodes that each have an edge to a member.
    ensures core_nodes { IfOk result (λ core_nodes. IsCycleCore (Leads edges.now) (marked core_nodes.marks.items)) }
    ensures size { IfOk result (λ core_nodes. vec_len core_nodes.marks ≡ nodes) }
    ensures placed { IfOk result (λ core_nodes. vec_len core_nodes.places ≡ nodes) }
    // Each member has a current edge.
    ensures within { IfOk result (λ core_nodes. (v : ℕ) → marked core_nodes.marks.items v ≡ true → index_at core_nodes.places.items v < length edges.now) }
    // The current edge of each member leads to its smallest successor in the set.
    ensures next { IfOk result (λ core_nodes. (v : ℕ) → marked core_nodes.marks.items v ≡ true →
        IsSmallestSuccessor (Leads edges.now) (marked core_nodes.marks.items) v (edge_at edges.now (index_at core_nodes.places.items v)).to) }
{
    let marks = vec![in alloc; true; nodes]?;
    let places = first_edge_indices(alloc, edges, nodes)?;
    let mut core_nodes = CycleCore { marks, places };
    core_nodes.prune(alloc, edges, nodes)?;
    Ok(core_nodes)
}
