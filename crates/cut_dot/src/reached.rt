//! The modules that a module still reaches once the imports of a cut are removed.
ghost use Rattle.std.specs.Prelude.{◌≡◌, ◌<◌, IfOk, filter, length, map};
ghost use Rattle.cut_net.specs.Cuts.{IsSetOf, Chain, Outside};
ghost use Rattle.cut_net.specs.Lines.{removed_by, IsAscending};
ghost use Rattle.cut_part.specs.Marks.{unit_capacity_arc};
ghost use Rattle.residual_graph.specs.Graphs.{is_flagged};
ghost use Rattle.cut_dot.specs.Pictures.{is_not_removed};

use crate::lines::is_removed;
use cut_net::{Net, Priced};
use residual_graph::{Arc, ResidualGraph, search};
use std::alloc::{AllocError, Global};

/// Whether the import isn't in the list of removed imports.
fn is_not_removed(removed: &[Priced], import: Priced) -> bool
    // The removed imports are strictly sorted.
    requires { IsAscending removed.now }
    ensures { result ≡ is_not_removed removed.now import }
{
    !is_removed(removed, import)
}

/// An arc of capacity 1 and without flow for each import that isn't removed, in the order of `imports`.
fn arcs_of(alloc: Global, imports: &[Priced], removed: &[Priced]) -> Result<Vec<Arc>, AllocError>
    // The removed imports are strictly sorted.
    requires { IsAscending removed.now }
    // With `Ok` there is an arc for each import that isn't removed, in the order of the imports.
    ensures { IfOk result (λ arcs. arcs.items ≡ map unit_capacity_arc (filter (is_not_removed removed.now) imports.now)) }
{
    let mut arcs = Vec::new(alloc);
    for import in imports {
        if is_not_removed(removed, *import) {
            arcs.push(Arc {
                from: import.from,
                to: import.to,
                capacity: 1,
                flow: 0,
            })?;
        }
    }
    Ok(arcs)
}

/// For each module whether a path of imports that aren't removed leads to it from `start`.
pub(crate) fn flag_reached(
    alloc: Global,
    net: &Net,
    removed: &[Priced],
    start: u32,
) -> Result<Vec<bool>, AllocError>
    // `start` is the number of a module of the network.
    requires start { start < length net.now.names }
    // The removed imports are strictly sorted.
    requires ascending { IsAscending removed.now }
    // With `Ok` there is a flag for each module of the network.
    ensures size { IfOk result (λ marks. length marks.items ≡ length net.now.names) }
    // With `Ok` a module is flagged if and only if `start` reaches it by imports that aren't removed.
    ensures reached { IfOk result (λ marks. IsSetOf (is_flagged marks.items) (Chain net.now.imports (Outside (removed_by removed.now)) start)) }
{
    net.invariants();
    let arcs = arcs_of(alloc, net.imports(), removed)?;
    let graph = ResidualGraph::new(alloc, arcs, net.nodes())?;
    let found = search(alloc, &graph, start)?;
    Ok(found.reached_flags)
}
