//! Appends to the worklist of the cycle search the nodes to inspect again once a node has left the candidate set.
ghost use Rattle.std.specs.Prelude.{◌≡◌, ◌<◌, ◌++◌, ℕ, List, OnOk, length};
ghost use Rattle.digraph.specs.Incoming.{AreIncoming, AreDependents};
ghost use Rattle.digraph.specs.Edges.{AreBetween};

use crate::{Edge, LinkedLists};
use std::alloc::AllocError;

/// Appends to `again` each node whose current edge leads to `node`. `places` has the index of each node's current edge.
pub(crate) fn append_dependents(
    edges: &[Edge],
    incoming: &LinkedLists,
    places: &[usize],
    node: u32,
    again: &mut Vec<u32>,
) -> Result<(), AllocError>
    // `incoming` lists the edges by target.
    requires incoming { AreIncoming edges.now (length places.now) incoming.now.last.items incoming.now.before.items (length edges.now) }
    // Both ends of each edge are nodes.
    requires between { AreBetween edges.now (length places.now) }
    requires node { node < length places.now }
    // All nodes whose current edge leads to `node` are appended.
    ensures { OnOk result ((row : List ℕ) × AreDependents edges.now places.now node row × (again.new.items ≡ again.old.items ++ row)) }
{
    let mut next = incoming.last[node as usize];
    while next > 0 {
        let number = (next - 1) as usize;
        let from = edges[number].from;
        if places[from as usize] == number {
            again.push(from)?;
        }
        next = incoming.before[number];
    }
    Ok(())
}
