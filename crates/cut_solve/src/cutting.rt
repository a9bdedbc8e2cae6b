//! The cut that a maximum flow determines.
ghost use Rattle.std.specs.Prelude.{◌<◌, IfOk, length};
ghost use Rattle.cut_net.specs.Answers.{cut_claim};
ghost use Rattle.cut_net.specs.Lines.{IsAnswer, IsCheapestAnswer};
ghost use Rattle.cut_solve.specs.MaximumFlow.{IsMaximumFlow};

use crate::reporting::{reported_imports, sink_side_of, weight_of};
use cut_net::{Cut, Net, Priced};
use std::alloc::{AllocError, Global};

/// The cut to report for a maximum flow between two modules: its imports with their weights, the sum of the weights, and the flow.
/// `source_side` has a flag for each module, whether `from` reaches it in the residual graph. Fails if an allocation fails.
pub fn minimum_cut(
    alloc: Global,
    net: &Net,
    source_side: &[bool],
    flow: Vec<Priced>,
    from: u32,
    to: u32,
) -> Result<Cut, AllocError>
    // `from` is a module.
    requires from { from < length net.now.names }
    // `to` is a module.
    requires to { to < length net.now.names }
    // The flow is maximum, and `source_side` flags exactly the modules that `from` reaches in the flow's residual graph.
    requires greatest { IsMaximumFlow net.now from to source_side.now flow.items }
    // With `Ok` the cut has exactly the imports to report, their weight and the flow.
    ensures answer { IfOk result (λ cut. IsAnswer net.now from to (cut_claim cut)) }
    // With `Ok` no set of imports that is a cut weighs less.
    ensures cheapest { IfOk result (λ cut. IsCheapestAnswer net.now from to (cut_claim cut)) }
{
    net.invariants();
    let imports = net.imports();
    let sink_side = sink_side_of(alloc, imports, source_side, net.nodes(), to)?;
    let printed = reported_imports(alloc, imports, source_side, &sink_side)?;
    let weight = weight_of(&printed);
    Ok(Cut {
        imports: printed,
        weight,
        flow,
    })
}
