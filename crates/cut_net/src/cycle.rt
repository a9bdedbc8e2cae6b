//! The canonical cycle of a network's imports.
ghost use Rattle.std.specs.Prelude.{◌≡◌, ◌<◌, ◌≤◌, length, map, All, IfOk, IfSome, IfNone};
ghost use Rattle.digraph.specs.Cycle.{IsCanonicalCycle};
ghost use Rattle.cut_net.specs.Lines.{IsAscending, edge_of};
ghost use Rattle.cut_net.specs.Cuts.{Any, Imports};
ghost use Rattle.cut_net.specs.WellFormed.{AreBetween, IsAcyclic};

use crate::Priced;
use digraph::Edge;
use std::alloc::{AllocError, Global};

/// The imports as edges, without their weights.
pub(crate) fn import_edges(alloc: Global, imports: &[Priced]) -> Result<Vec<Edge>, AllocError>
    ensures { IfOk result (λ pairs. pairs.items ≡ map edge_of imports.now) }
{
    let mut pairs = Vec::with_capacity(alloc, imports.len())?;
    for import in imports {
        pairs.push(Edge {
            from: import.from,
            to: import.to,
        })?;
    }
    Ok(pairs)
}

/// The canonical cycle of the imports (as `digraph` defines it), as module numbers; none if the imports are acyclic. The imports are
/// strictly sorted and lead between the first `nodes` modules.
pub(crate) fn find_canonical_cycle(
    alloc: Global,
    imports: &[Priced],
    nodes: usize,
) -> Result<Option<Vec<u32>>, AllocError>
    requires between { AreBetween imports.now nodes }
    requires ascending { IsAscending imports.now }
    requires few_nodes { nodes ≤ 8192 }
    requires few_imports { length imports.now ≤ 65536 }
    ensures named { IfOk result (λ answer. IfSome answer (λ cycle. IsCanonicalCycle (Imports imports.now Any) cycle.items)) }
    ensures within { IfOk result (λ answer. IfSome answer (λ cycle. All (λ m. m < nodes) cycle.items)) }
    ensures none { IfOk result (λ answer. IfNone answer (IsAcyclic imports.now)) }
{
    let pairs = import_edges(alloc, imports)?;
    digraph::find_canonical_cycle(alloc, pairs.as_slice(), nodes)
}
