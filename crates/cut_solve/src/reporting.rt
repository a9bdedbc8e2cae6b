//! The reported imports: the imports that leave the minimal source side and whose imported module reaches the sink outside of that side.
ghost use Rattle.std.specs.Prelude.{ℕ, ◌≡◌, ◌<◌, ◌^◌, ◌↔◌, true, IfOk, filter, length, map, sum_by};
ghost use Rattle.cut_net.specs.Cuts.{leaves, Chain, Outside};
ghost use Rattle.cut_net.specs.WellFormed.{AreBetween};
ghost use Rattle.residual_graph.specs.Graphs.{is_flagged};
ghost use Rattle.cut_solve.specs.Lines.{is_reported_import, reversed_arc_of};

use cut_net::Priced;
use residual_graph::{Arc, flag_reachable};
use std::alloc::{AllocError, Global};

/// Whether the import leads from a module in `source_side`, the minimal source side, to a module outside of it.
fn leaves(i: Priced, source_side: &[bool]) -> bool
    requires from { i.from < length source_side.now }
    requires to { i.to < length source_side.now }
    ensures { result ≡ leaves (is_flagged source_side.now) i }
{
    source_side[i.from as usize] && !source_side[i.to as usize]
}

/// For each import, in order, the reversed arc, with capacity 0 if the import leaves the minimal source side, otherwise 1.
fn reversed_arcs(
    alloc: Global,
    imports: &[Priced],
    source_side: &[bool],
) -> Result<Vec<Arc>, AllocError>
    requires between { AreBetween imports.now (length source_side.now) }
    ensures { IfOk result (λ arcs. arcs.items ≡ map (reversed_arc_of source_side.now) imports.now) }
{
    let mut arcs = Vec::with_capacity(alloc, imports.len())?;
    for i in imports {
        let capacity = if leaves(*i, source_side) { 0 } else { 1 };
        arcs.push(Arc {
            from: i.to,
            to: i.from,
            capacity,
            flow: 0,
        })?;
    }
    Ok(arcs)
}

/// For each module a flag, whether it reaches the sink `to` by imports that don't leave the minimal source side.
pub(crate) fn sink_side_of(
    alloc: Global,
    imports: &[Priced],
    source_side: &[bool],
    nodes: u32,
    to: u32,
) -> Result<Vec<bool>, AllocError>
    requires between { AreBetween imports.now nodes }
    requires source_side { length source_side.now ≡ nodes }
    requires to { to < nodes }
    ensures size { IfOk result (λ sink_side. length sink_side.items ≡ nodes) }
    // With `Ok` exactly the modules from which a path of such imports leads to `to` are flagged.
    ensures sink_side { IfOk result (λ sink_side. (m : ℕ) → (is_flagged sink_side.items m ≡ true) ↔ Chain imports.now (Outside (leaves (is_flagged source_side.now))) m to) }
{
    let arcs = reversed_arcs(alloc, imports, source_side)?;
    let sink_side = flag_reachable(alloc, &arcs, nodes, to)?;
    Ok(sink_side)
}

/// Whether the import is reported: it leaves the minimal source side, and the imported module reaches the sink outside of that side.
fn is_reported_import(i: Priced, source_side: &[bool], sink_side: &[bool]) -> bool
    requires from { i.from < length source_side.now }
    requires to { i.to < length source_side.now }
    requires sink_side { i.to < length sink_side.now }
    ensures { result ≡ is_reported_import source_side.now sink_side.now i }
{
    leaves(i, source_side) && sink_side[i.to as usize]
}

/// The reported imports among `imports`, in their order. `source_side` flags the minimal source side, `sink_side` the modules that reach
/// the sink by imports that don't leave it.
pub(crate) fn reported_imports(
    alloc: Global,
    imports: &[Priced],
    source_side: &[bool],
    sink_side: &[bool],
) -> Result<Vec<Priced>, AllocError>
    requires source_side { AreBetween imports.now (length source_side.now) }
    requires sink_side { AreBetween imports.now (length sink_side.now) }
    ensures { IfOk result (λ printed. printed.items ≡ filter (is_reported_import source_side.now sink_side.now) imports.now) }
{
    let mut printed = Vec::new(alloc);
    for i in imports {
        if is_reported_import(*i, source_side, sink_side) {
            printed.push(*i)?;
        }
    }
    Ok(printed)
}

/// The sum of the weights of the imports.
pub(crate) fn weight_of(imports: &[Priced]) -> u64
    requires { sum_by (λ i. i.amount) imports.now < 2 ^ 64 }
    ensures { result ≡ sum_by (λ i. i.amount) imports.now }
{
    let mut weight = 0;
    for i in imports {
        weight += i.amount;
    }
    weight
}
