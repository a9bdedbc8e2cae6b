//! The shortest path of imports between two modules.
ghost use Rattle.std.specs.Prelude.{◌≡◌, ◌<◌, IfNone, IfOk, IfSome, length, map};
ghost use Rattle.digraph.specs.Chains.{Chain};
ghost use Rattle.digraph.specs.ShortestPaths.{IsLeastChain};
ghost use Rattle.cut_net.specs.Cuts.{Any, Imports};
ghost use Rattle.cut_net.specs.Lines.{edge_of};

use cut_net::{Net, Priced};
use digraph::{Edge, shortest_path};
use std::alloc::{AllocError, Global};

/// The imports as edges from importer to imported module, without weights, in their order.
pub(crate) fn edges_of(alloc: Global, imports: &[Priced]) -> Result<Vec<Edge>, AllocError>
    ensures { IfOk result (λ edges. edges.items ≡ map edge_of imports.now) }
{
    imports
        .iter()
        .map(|i| Edge {
            from: i.from,
            to: i.to,
        })
        .collect(alloc)
}

/// The shortest path of imports from one module to another, as a list of module numbers; of several shortest paths the lexicographically
/// smallest one. `None` if there is no path. The path from a module to itself is that one module. Fails if an allocation fails.
pub fn shortest_import_path(
    alloc: Global,
    net: &Net,
    from: u32,
    to: u32,
) -> Result<Option<Vec<u32>>, AllocError>
    // `from` is a module.
    requires from { from < length net.now.names }
    // `to` is a module.
    requires to { to < length net.now.names }
    // With a path it has the fewest imports of all paths, and it is the lexicographically smallest of the paths with as many imports.
    ensures found { IfOk result (λ answer. IfSome answer (λ chain. IsLeastChain (Imports net.now.imports Any) from to chain.items)) }
    // With `None` no path leads from `from` to `to`.
    ensures none { IfOk result (λ answer. IfNone answer (Chain (Imports net.now.imports Any) from to → ⊥)) }
{
    net.invariants();
    let edges = edges_of(alloc, net.imports())?;
    shortest_path(alloc, edges.as_slice(), net.nodes() as usize, from, to)
}
