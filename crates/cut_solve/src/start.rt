//! The input of a preflow: imports with reduced capacities, reversed if the preflow then has less excess to return.
ghost use Rattle.std.specs.Prelude.{IfOk, length};
ghost use Rattle.cut_part.specs.CapacityReduction.{IsReduced};
ghost use Rattle.cut_preflow.specs.Flows.{AreEnds};
ghost use Rattle.cut_solve.specs.Starts.{with_imports, IsPreflowInput};

use cut_net::{Net, Priced};
use cut_part::{reduced_capacities, reversed_imports, topological_imports};
use std::alloc::{AllocError, Global};

/// The input of a preflow: imports with capacities, in the order of the network's imports, and the source and the sink.
#[derive(Drop)]
pub struct PreflowInput {
    /// The imports, with their capacities as amounts.
    pub imports: Vec<Priced>,
    /// The number of the module that is the source.
    pub source: u32,
    /// The number of the module that is the sink.
    pub sink: u32,
}

/// The network's imports with weights that `reduced_capacities` has reduced. The reduced weights still allow each flow from `from` to `to`.
fn reduced_imports(alloc: Global, net: &Net, from: u32, to: u32) -> Result<Vec<Priced>, AllocError>
    requires { AreEnds net.now from to }
    ensures { IfOk result (λ v. IsReduced net.now (with_imports net.now v.items) from to) }
{
    net.invariants();
    let order = topological_imports(alloc, net.imports(), net.nodes())?;
    reduced_capacities(alloc, net.imports(), net.nodes(), &order, from, to)
}

/// The sum of the weights of the imports whose importer is this module, at most 2^64 - 1.
fn outgoing_weight(imports: &[Priced], module: u32) -> u64 {
    let mut sum = 0u64;
    for import in imports {
        if import.from == module {
            sum = sum.saturating_add(import.amount);
        }
    }
    sum
}

/// The sum of the weights of the imports whose imported module is this module, at most 2^64 - 1.
fn incoming_weight(imports: &[Priced], module: u32) -> u64 {
    let mut sum = 0u64;
    for import in imports {
        if import.to == module {
            sum = sum.saturating_add(import.amount);
        }
    }
    sum
}

/// The input of a preflow between two modules: the imports with reduced capacities. They are reversed, and source and sink exchanged, if
/// the imports of `to` weigh less than the imports by `from`, since less excess has to return then. Fails if an allocation fails.
pub fn preflow_input(
    alloc: Global,
    net: &Net,
    from: u32,
    to: u32,
) -> Result<PreflowInput, AllocError>
    // `from` and `to` are two modules.
    requires { AreEnds net.now from to }
    // With `Ok` the imports are those of the network, as they are or reversed, with capacities that allow each flow from `from` to `to`.
    ensures { IfOk result (λ s. IsPreflowInput net.now from to s.imports.items s.source s.sink) }
{
    let imports = reduced_imports(alloc, net, from, to)?;
    if outgoing_weight(&imports, from) <= incoming_weight(&imports, to) {
        return Ok(PreflowInput {
            imports,
            source: from,
            sink: to,
        });
    }
    let imports = reversed_imports(alloc, &imports)?;
    Ok(PreflowInput {
        imports,
        source: to,
        sink: from,
    })
}
