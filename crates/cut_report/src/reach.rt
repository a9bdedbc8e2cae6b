//! The modules that a module reaches by imports, and the modules that reach it.
ghost use Rattle.std.specs.Prelude.{◌≡◌, ◌≢◌, ◌↔◌, ◌<◌, ◌≤◌, ℕ, All, AllPairs, Contains, IfOk, length};
ghost use Rattle.digraph.specs.Chains.{IsAcyclic};
ghost use Rattle.digraph.specs.Edges.{AreBetween, IsAscending, Leads};
ghost use Rattle.cut_net.specs.Cuts.{Any, Imports};
ghost use Rattle.cut_report.specs.Reach.{Reaches};

use crate::chain::edges_of;
use cut_net::Net;
use digraph::{Edge, graph_of, sort_and_dedup, transpose};
use std::alloc::{AllocError, Global};

/// The nodes, in ascending order, to which a path of one or more edges leads from `start`.
fn reachable_nodes(
    alloc: Global,
    edges: &[Edge],
    nodes: usize,
    start: u32,
) -> Result<Vec<u32>, AllocError>
    requires between { AreBetween edges.now nodes }
    requires ascending { IsAscending edges.now }
    requires few_nodes { nodes ≤ 8192 }
    requires start { start < nodes }
    requires acyclic { IsAcyclic (Leads edges.now) }
    ensures ascending { IfOk result (λ reached. AllPairs (λ m n. m < n) reached.items) }
    ensures exact { IfOk result (λ reached. (n : ℕ) → Contains reached.items n ↔ Reaches (Leads edges.now) start n) }
    ensures within { IfOk result (λ reached. All (λ n. n < nodes) reached.items) }
{
    let graph = graph_of(alloc, edges, nodes)?;
    let search = graph.search_from(alloc, &[start], &[])?;
    let mut reached = Vec::new(alloc);
    for node in 0..nodes {
        let node = node as u32;
        // The search counts the start as reached. But no path of one or more edges leads back to it, since the graph is acyclic.
        if node != start && search.has_reached(node) {
            reached.push(node)?;
        }
    }
    Ok(reached)
}

/// The modules that a module reaches by one or more imports, in ascending order. Imports of weight 0 count. Fails if an allocation fails.
pub fn reached_modules(alloc: Global, net: &Net, from: u32) -> Result<Vec<u32>, AllocError>
    // `from` is a module.
    requires { from < length net.now.names }
    // With `Ok` the module numbers are strictly ascending, which is the order of the names.
    ensures ascending { IfOk result (λ reached. AllPairs (λ m n. m < n) reached.items) }
    // With `Ok` the result has exactly the modules to which a path of one or more imports leads from `from`.
    ensures exact { IfOk result (λ reached. (n : ℕ) → Contains reached.items n ↔ Reaches (Imports net.now.imports Any) from n) }
    // With `Ok` all numbers in the result are those of modules of the network.
    ensures within { IfOk result (λ reached. All (λ n. n < length net.now.names) reached.items) }
{
    net.invariants();
    let edges = edges_of(alloc, net.imports())?;
    reachable_nodes(alloc, edges.as_slice(), net.nodes() as usize, from)
}

/// The modules that reach a module by one or more imports, in ascending order. Imports of weight 0 count. Fails if an allocation fails.
pub fn reaching_modules(alloc: Global, net: &Net, to: u32) -> Result<Vec<u32>, AllocError>
    // `to` is a module.
    requires { to < length net.now.names }
    // With `Ok` the module numbers are strictly ascending, which is the order of the names.
    ensures ascending { IfOk result (λ reaching. AllPairs (λ m n. m < n) reaching.items) }
    // With `Ok` the result has exactly the modules from which a path of one or more imports leads to `to`.
    ensures exact { IfOk result (λ reaching. (n : ℕ) → Contains reaching.items n ↔ Reaches (Imports net.now.imports Any) n to) }
    // With `Ok` all numbers in the result are those of modules of the network.
    ensures within { IfOk result (λ reaching. All (λ n. n < length net.now.names) reaching.items) }
{
    net.invariants();
    let edges = edges_of(alloc, net.imports())?;
    let mut reversed = transpose(alloc, edges.as_slice())?;
    sort_and_dedup(&mut reversed);
    reachable_nodes(alloc, reversed.as_slice(), net.nodes() as usize, to)
}
