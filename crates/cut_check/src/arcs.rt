//! Conversion of imports to the arcs of a search.
ghost use Rattle.std.specs.Prelude.{◌≡◌, ◌<◌, IfOk, length};
ghost use Rattle.cut_check.specs.Reaching.{AreArcs, arc_if_allowed};

use cut_net::Priced;
use residual_graph::Arc;
use std::alloc::{AllocError, Global};

/// The arc of an import, with capacity 1 if the search may use the import, otherwise 0.
fn arc_if_allowed(i: Priced, allowed: bool) -> Arc
    ensures { result ≡ arc_if_allowed i allowed }
{
    Arc {
        from: i.from,
        to: i.to,
        capacity: u64::from(allowed),
        flow: 0,
    }
}

/// For each import, in order, an arc, with capacity 1 if `allowed` says that the search may use the import, otherwise 0.
pub(crate) fn arcs_of(
    alloc: Global,
    imports: &[Priced],
    allowed: &[bool],
) -> Result<Vec<Arc>, AllocError>
    requires { length allowed.now ≡ length imports.now }
    ensures { IfOk result (λ arcs. AreArcs imports.now allowed.now arcs.items) }
{
    let mut arcs = Vec::new(alloc);
    for (k, i) in imports.iter().enumerate() {
        arcs.push(arc_if_allowed(*i, allowed[k]))?;
    }
    Ok(arcs)
}
