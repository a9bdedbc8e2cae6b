//! Lists the unresolved identifiers of a tree.
ghost use Rattle.std.specs.Prelude.{◌≡◌, map, IfErr, IfOk};
ghost use Rattle.std.specs.List.{flat_map};
ghost use Rattle.source_tree.specs.Trees.{IsTreeFault};
ghost use Rattle.ob_board.specs.SourceParts.{file_models, AreSourcesRead};
ghost use Rattle.ob_board.specs.Unresolved.{unresolved_model, AreUnresolved, IsUnresolvedOf};

use crate::files::NamedFiles;
use crate::precomputed_chains::PrecomputedChains;
use crate::unresolved_entries::{UnresolvedEntry, UnresolvedFinder};
use crate::{Unresolved, board_graph};
use board_workers::make_entries_by_caller;
use source_tree::{Source, TreeFault, TreeParts, tree_parts};
use std::alloc::{AllocError, Global};
use std::marker::Brand;
use std::thread::Threads;

/// Concatenates the unresolved identifiers of the modules' entries, in the order of the entries.
fn concatenate_rows<F: NamedFiles>(
    alloc: Global,
    all: Vec<UnresolvedEntry<F>>,
) -> Result<Vec<Unresolved>, AllocError>
    ensures { IfOk result (λ rows. map unresolved_model rows.items ≡ flat_map (λ f. f.rows) all.items) }
{
    let mut rows = Vec::new(alloc);
    for found in all {
        let mut more = found.into_rows();
        rows.append(&mut more)?;
    }
    Ok(rows)
}

/// Lists the unresolved identifiers of the tree, from the parts of its files, in the order of the files.
fn list_unresolved<F: NamedFiles>(
    alloc: Global,
    sources: &[Source],
    tree: &TreeParts,
) -> Result<Vec<Unresolved>, AllocError>
    // The type `F` names the files.
    requires files { F.files ≡ file_models sources.now tree.now.modules.items }
    // The parts and the graph are those of the sources.
    requires seen { AreSourcesRead sources.now tree.now.modules.items tree.now.graph }
    ensures { IfOk result (λ rows. IsUnresolvedOf F.files (map unresolved_model rows.items)) }
{
    let precomputed_chains = PrecomputedChains::from_files(alloc, sources, tree.modules.as_slice());
    let graph = board_graph(alloc, &tree.graph)?;
    let work = UnresolvedFinder::<F>::new(
        alloc,
        sources,
        tree.modules.as_slice(),
        &tree.graph,
        precomputed_chains,
    );
    let all = make_entries_by_caller(alloc, &graph, &work);
    drop(graph);
    concatenate_rows(alloc, all?)
}

/// Finds the unresolved identifiers of a tree, in the order of the files, and in each file by position. Predeclared names count as
/// resolved.
/// At most `workers` threads read the files; the calling thread alone processes the modules.
/// Fails with the fault of the tree, or with `TreeFault::Memory` if an allocation fails.
pub fn unresolved_in_tree<R: Threads + Sync>(
    rt: &R,
    alloc: Global,
    sources: &[Source],
    workers: u32,
) -> Result<Vec<Unresolved>, TreeFault>
    // With `Ok` the list has exactly the tree's unresolved identifiers, in this order.
    ensures exact { IfOk result (λ rows. AreUnresolved sources.now (map unresolved_model rows.items)) }
    // The error is a fault of the tree.
    ensures fault { IfErr result (IsTreeFault sources.now) }
{
    let tree = tree_parts(rt, alloc, sources, workers)?;
    let rows = list_unresolved::<Brand>(alloc, sources, &tree);
    drop(tree);
    Ok(rows?)
}
