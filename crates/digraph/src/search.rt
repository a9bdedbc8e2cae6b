//! Breadth-first search.
ghost use Rattle.std.specs.Prelude.{◌≡◌, ◌↔◌, ◌<◌, ◌++◌, ℕ, All, AllPairs, IfNone, IfOk, IfSome, IsTrue, List, OnOk, Bool, unwrap_or, vec_len};
ghost use Rattle.digraph.specs.declared.edge.Edge.{Edge as GraphEdge};
ghost use Rattle.digraph.specs.Edges.{Leads};
ghost use Rattle.digraph.specs.Graphs.{IsGraph};
ghost use Rattle.digraph.specs.Search.{parent_of, AreDiscovered, IsPredecessor, IsSearch};
ghost use Rattle.digraph.specs.ShortestPaths.{IsPathAround, IsShortestPath};

use crate::Graph;
use crate::core_nodes::is_marked;
use std::alloc::{AllocError, Global};

/// The breadth-first tree of a search: which nodes it reached, and by which paths.
#[derive(Drop)]
pub struct Search {
    /// For each node its parent, from which it was discovered; none if the search didn't reach the node. A start is its own parent.
    pub(crate) parents: Vec<Option<u32>>,
}

/// The parent of the node; none past the end.
fn parent_at(parents: &[Option<u32>], node: u32) -> Option<u32>
    ensures { result ≡ parent_of parents.now node }
{
    match parents.get(node as usize) {
        Some(parent) => *parent,
        None => None,
    }
}

/// Discovers each of `nodes` that has no parent and that the barrier doesn't flag: sets its parent to `parent`, or to the node itself if
/// `parent` is `None`, and appends the node to the queue.
fn discover_nodes(
    parents: &mut Vec<Option<u32>>,
    queue: &mut Vec<u32>,
    nodes: &[u32],
    parent: Option<u32>,
    barrier: &[bool],
) -> Result<(), AllocError>
    requires within { All (λ v. v < vec_len parents.old) nodes.now }
    requires ascending { AllPairs (λ v w. v < w) nodes.now }
    // Exactly the nodes without parent and without flag are appended to the queue, and now have a parent.
    ensures { OnOk result ((found : List ℕ) × (queue.new.items ≡ queue.old.items ++ found) × AreDiscovered nodes.now barrier.now (λ v. unwrap_or parent v) parents.old.items parents.new.items found) }
{
    for node in nodes {
        if parent_at(parents.as_slice(), *node).is_none() && !is_marked(barrier, *node) {
            parents[*node as usize] = Some(parent.unwrap_or(*node));
            queue.push(*node)?;
        }
    }
    Ok(())
}

impl Graph<'_> {
    /// Searches breadth-first from the starts, in ascending order, around the nodes that the barrier flags. A start may be flagged; a node
    /// past the end of the barrier counts as not flagged. Takes time linear in nodes and edges. Fails if an allocation fails.
    pub fn search_from(
        &self,
        alloc: Global,
        starts: &[u32],
        barrier: &[bool],
    ) -> Result<Search, AllocError>
        // The graph was made by `graph_of`.
        requires graph { IsGraph self.now }
        // The starts are strictly sorted.
        requires ascending { AllPairs (λ v w. v < w) starts.now }
        // They are nodes.
        requires within { All (λ v. v < vec_len self.now.after) starts.now }
        // The result has the shortest path to each node that a path leads to.
        ensures { IfOk result (IsSearch self.now.edges.now starts.now barrier.now) }
    {
        let mut parents = vec![in alloc; None; self.after.len()]?;
        let mut queue = Vec::new(alloc);
        discover_nodes(&mut parents, &mut queue, starts, None, &[])?;
        let mut next = 0;
        'nodes: while next < queue.len() {
            let node = queue[next];
            let successors = self.after[node as usize].as_slice();
            discover_nodes(&mut parents, &mut queue, successors, Some(node), barrier)?;
            next += 1;
        }
        Ok(Search { parents })
    }
}

impl Search {
    /// Whether a path leads from a start around the barrier to the node. A start has a path to itself.
    pub fn has_reached(&self, node: u32) -> bool
        // The result is true exactly if a path leads from a start around the barrier to the node.
        ensures { (edges : List GraphEdge) (starts : List ℕ) (barrier : List Bool) → IsSearch edges starts barrier self.now →
            IsTrue result ↔ ((path : List ℕ) × IsPathAround (Leads edges) starts barrier node path) }
    {
        parent_at(self.parents.as_slice(), node).is_some()
    }

    /// The node before this one on its shortest path; none for a start.
    fn predecessor(&self, node: u32) -> Option<u32>
        ensures { IsPredecessor self.now.parents.items node result }
    {
        match parent_at(self.parents.as_slice(), node) {
            Some(parent) if parent != node => Some(parent),
            _ => None,
        }
    }

    /// The shortest path from a start around the barrier to the node, as its nodes, both ends included; of several the lexicographically
    /// smallest. None if no path leads to the node. Fails if an allocation fails.
    pub fn path_to(&self, alloc: Global, node: u32) -> Result<Option<Vec<u32>>, AllocError>
        // This value is the result of a search.
        requires search { (edges : List GraphEdge) × (starts : List ℕ) × (barrier : List Bool) × IsSearch edges starts barrier self.now }
        // The path is the shortest one, of several the lexicographically smallest.
        ensures found { IfOk result (λ answer. IfSome answer (λ path. (edges : List GraphEdge) (starts : List ℕ) (barrier : List Bool) → IsSearch edges starts barrier self.now →
            IsShortestPath (Leads edges) starts barrier node path.items)) }
        // Without a result no path leads to the node.
        ensures none { IfOk result (λ answer. IfNone answer ((edges : List GraphEdge) (starts : List ℕ) (barrier : List Bool) (path : List ℕ) → IsSearch edges starts barrier self.now →
            IsPathAround (Leads edges) starts barrier node path → ⊥)) }
    {
        if !self.has_reached(node) {
            return Ok(None);
        }
        let mut path = Vec::new(alloc);
        let mut next = Some(node);
        'nodes: while let Some(at) = next {
            path.push(at)?;
            next = self.predecessor(at);
        }
        path.reverse();
        Ok(Some(path))
    }
}
