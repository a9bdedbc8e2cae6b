//! Finds the imports of a network that lead from a module of a path to the next.
ghost use Rattle.std.specs.Prelude.{◌≡◌, ◌↔◌, Contains, IfOk, filter, map};
ghost use Rattle.digraph.specs.declared.edge.Edge.{Edge as GraphEdge};
ghost use Rattle.digraph.specs.Edges.{IsAscending as AreEdgesAscending};
ghost use Rattle.cut_net.specs.Lines.{removed_by, IsAscending};
ghost use Rattle.cut_dot.specs.Pictures.{is_step, steps};
ghost use Rattle.cut_dot.specs.Steps.{line_of_step};

use cut_net::{Priced, find_import};
use digraph::{Edge, sort_and_dedup};
use std::alloc::{AllocError, Global};

/// The edges of a path from each module to the next, sorted, each once.
fn steps_of(alloc: Global, path: &[u32]) -> Result<Vec<Edge>, AllocError>
    // With `Ok` the edges are strictly ascending.
    ensures ascending { IfOk result (λ found. AreEdgesAscending found.items) }
    // With `Ok` the edges are exactly those from each module of the path to the next.
    ensures same { IfOk result (λ found. (p : GraphEdge) → Contains found.items p ↔ Contains (steps path.now) p) }
{
    let mut found = Vec::new(alloc);
    for next in 1..path.len() {
        found.push(Edge {
            from: path[next - 1],
            to: path[next],
        })?;
    }
    sort_and_dedup(&mut found);
    Ok(found)
}

/// For each edge an import of amount 0, in the same order, so that `find_import` finds an import's edge by binary search.
fn lines_of_steps(alloc: Global, steps: &[Edge]) -> Result<Vec<Priced>, AllocError>
    // With `Ok` there is an import for each edge, in the order of the edges.
    ensures { IfOk result (λ lines. lines.items ≡ map line_of_step steps.now) }
{
    let mut lines = Vec::new(alloc);
    for step in steps {
        lines.push(Priced {
            from: step.from,
            to: step.to,
            amount: 0,
        })?;
    }
    Ok(lines)
}

/// Those of `imports` that have the same two modules as an entry of `lines`, in the order of `imports`.
fn imports_with_line(
    alloc: Global,
    imports: &[Priced],
    lines: &[Priced],
) -> Result<Vec<Priced>, AllocError>
    // The entries of `lines` are strictly sorted.
    requires { IsAscending lines.now }
    // With `Ok` the result has exactly the imports whose two modules are those of an entry of `lines`.
    ensures { IfOk result (λ found. found.items ≡ filter (removed_by lines.now) imports.now) }
{
    let mut found = Vec::new(alloc);
    for import in imports {
        if find_import(lines, *import).is_some() {
            found.push(*import)?;
        }
    }
    Ok(found)
}

/// Those of `imports` that lead from a module of the path to the next, in the order of `imports`.
pub(crate) fn imports_along(
    alloc: Global,
    imports: &[Priced],
    path: &[u32],
) -> Result<Vec<Priced>, AllocError>
    // With `Ok` the result has exactly the imports that lead from a module of the path to the next.
    ensures { IfOk result (λ found. found.items ≡ filter (is_step path.now) imports.now) }
{
    let steps = steps_of(alloc, path)?;
    let lines = lines_of_steps(alloc, steps.as_slice())?;
    let found = imports_with_line(alloc, imports, lines.as_slice())?;
    Ok(found)
}
