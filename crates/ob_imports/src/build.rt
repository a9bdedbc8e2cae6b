//! Construction of the import graph of a tree's files.
ghost use Rattle.std.specs.Prelude.{◌≡◌, ◌≤◌, ◌<◌, [], All, IfNone, IfOk, IfSome, List, Result, length, map};
ghost use Rattle.std.specs.List.{slice_index_or, IsDistinct};
ghost use Rattle.std.specs.Str.{bytes_eq};
ghost use Rattle.digraph.specs.Chains.{IsAcyclic};
ghost use Rattle.digraph.specs.Edges.{AreBetween, Leads};
ghost use Rattle.ob_imports.specs.Files.{files_of, AreNodes, File};
ghost use Rattle.ob_imports.specs.Graphs.{graph_with, ImportGraph};
ghost use Rattle.ob_imports.specs.Names.{names_by, texts, IsByName};
ghost use Rattle.ob_imports.specs.Numbering.{AreEdgesOf};
ghost use Rattle.ob_imports.specs.Outcomes.{AreFiles, AreFilesOfGraph, GraphError, IsCycleOf, IsGraphOutcome, HasOutcome};

use crate::duplicates::check_distinct;
use crate::edges::import_edges;
use crate::names::collect_node_names;
use crate::order::order_by_name;
use crate::{Edge, Graph, GraphFault, Parsed};
use digraph::{find_canonical_cycle, ranks_of, renumber_edges};
use indexmap::IndexSet;
use std::alloc::{AllocError, Global};
use text_hash::Seed;

const MAX_MODULES: usize = 4096;

const MAX_IMPORTS: usize = 65536;

/// The names of the modules that `order`, a list of module numbers, has at the indices `places`.
fn names_at(
    alloc: Global,
    names: &[String],
    order: &[u32],
    places: &[u32],
) -> Result<Vec<String>, AllocError>
    requires order { All (λ v. v < length names.now) order.now }
    requires places { All (λ r. r < length order.now) places.now }
    ensures { IfOk result (λ named. texts named.items ≡ map (λ r. slice_index_or (names_by (texts names.now) order.now) r []) places.now) }
{
    let mut named = Vec::new(alloc);
    for place in places {
        let node = order[*place as usize];
        named.push(String::from_str(alloc, names[node as usize].as_str())?)?;
    }
    Ok(named)
}

/// The names of the modules on the canonical cycle, which is found in the graph with modules numbered by name; `None` if the imports are
/// acyclic.
fn find_cycle(
    alloc: Global,
    pairs: &[Edge],
    names: &[String],
    order: &[u32],
) -> Result<Option<Vec<String>>, AllocError>
    requires between { AreBetween pairs.now (length names.now) }
    requires once { IsDistinct bytes_eq (texts names.now) }
    requires order { IsByName (texts names.now) order.now }
    requires few { length names.now ≤ 8192 }
    ensures named { IfOk result (λ answer. IfSome answer (λ cycle. (files : List File) → AreEdgesOf files (texts names.now) pairs.now → IsCycleOf files (texts names.now) (texts cycle.items))) }
    ensures none { IfOk result (λ answer. IfNone answer (IsAcyclic (Leads pairs.now))) }
{
    let ranks = ranks_of(alloc, order)?;
    let others = renumber_edges(alloc, pairs, ranks.as_slice())?;
    match find_canonical_cycle(alloc, others.as_slice(), order.len())? {
        None => Ok(None),
        Some(cycle) => Ok(Some(names_at(alloc, names, order, cycle.as_slice())?)),
    }
}

/// The graph with these names and imports, or its cycle.
fn graph_from_names(
    alloc: Global,
    parsed: &[Parsed],
    names: IndexSet<String, Seed>,
    pairs: Vec<Edge>,
) -> Result<Graph, GraphFault>
    requires { AreFilesOfGraph (files_of parsed.now) (graph_with names.keys (length parsed.now) pairs.items) }
    // The result is the graph of the files or their first error, unless an allocation fails.
    ensures { HasOutcome result (IsGraphOutcome (files_of parsed.now)) }
{
    let order = order_by_name(alloc, names.as_slice())?;
    match find_cycle(alloc, pairs.as_slice(), names.as_slice(), order.as_slice())? {
        None => Ok(Graph::from_parts(alloc, names, parsed.len() as u32, pairs, order)?),
        Some(names) => Err(GraphFault::Cycle { names }),
    }
}

/// The outcome of files whose modules have these names: the graph, or the first error.
fn graph_from_nodes(
    alloc: Global,
    parsed: &[Parsed],
    names: IndexSet<String, Seed>,
) -> Result<Graph, GraphFault>
    // There are at most 4,096 files, and their module names are distinct.
    requires files { AreFiles (files_of parsed.now) }
    // The table has exactly the names of all modules.
    requires nodes { AreNodes (files_of parsed.now) (texts names.keys) }
    requires few { length names.keys ≤ 8192 }
    // The result is the graph of the files or their first error, unless an allocation fails.
    ensures { HasOutcome result (IsGraphOutcome (files_of parsed.now)) }
{
    let pairs = import_edges(alloc, parsed, &names)?;
    if pairs.len() > MAX_IMPORTS {
        return Err(GraphFault::TooMany);
    }
    graph_from_names(alloc, parsed, names, pairs)
}

/// The outcome of files with distinct module names: the graph, or the first error.
fn graph_from_files(alloc: Global, parsed: &[Parsed]) -> Result<Graph, GraphFault>
    // There are at most 4,096 files, and their module names are distinct.
    requires { AreFiles (files_of parsed.now) }
    // The result is the graph of the files or their first error, unless an allocation fails.
    ensures { HasOutcome result (IsGraphOutcome (files_of parsed.now)) }
{
    match collect_node_names(alloc, parsed)? {
        None => Err(GraphFault::TooMany),
        Some(names) => graph_from_nodes(alloc, parsed, names),
    }
}

/// The outcome of the files: the graph, or the first error.
fn build_graph(alloc: Global, parsed: &[Parsed]) -> Result<Graph, GraphFault>
    // The result is the graph of the files or their first error, unless an allocation fails.
    ensures { HasOutcome result (IsGraphOutcome (files_of parsed.now)) }
{
    if parsed.len() > MAX_MODULES {
        return Err(GraphFault::TooMany);
    }
    check_distinct(alloc, parsed)?;
    graph_from_files(alloc, parsed)
}

/// The import graph of the files, or the first error: too many files, then two modules with one name, then too many modules or imports,
/// then a cycle.
pub fn graph(alloc: Global, parsed: &[Parsed]) -> Result<Graph, GraphFault>
    // The result is an outcome of the files, unless an allocation failed.
    ensures exact { HasOutcome result (IsGraphOutcome (files_of parsed.now)) }
    // Any outcome of the files is the result, unless an allocation failed.
    ensures only { (o : Result ImportGraph GraphError) → IsGraphOutcome (files_of parsed.now) o → HasOutcome result (λ p. p ≡ o) }
{
    build_graph(alloc, parsed)
}
