//! Computes the entries of a tree's modules, and from them the index of the tree.
ghost use Rattle.std.specs.Prelude.{◌≡◌, false, map, IfErr, IfOk};
ghost use Rattle.std.specs.List.{flat_map};
ghost use Rattle.std.specs.String.{string_bytes};
ghost use Rattle.ob_emit.specs.Externals.{AreExternalRows};
ghost use Rattle.source_tree.specs.Trees.{IsTreeFault};
ghost use Rattle.scip_index.specs.Plain.{document_model, index_model, metadata_model, symbol_model};
ghost use Rattle.scip_symbol.specs.Outcomes.{is_wrong_part};
ghost use Rattle.ob_board.specs.SourceParts.{file_models, AreSourcesRead};
ghost use Rattle.ob_board.specs.Entries.{entry_model, AreEntriesOf};
ghost use Rattle.ob_board.specs.Indexes.{tool_metadata, AreTreeEntries, IsIndex, IsBuiltFrom};

use crate::built::{EntryBuilder, IndexEntry};
use crate::named_index::NamedIndex;
use crate::precomputed_chains::PrecomputedChains;
use crate::{Entry, board_graph};
use board_workers::BoardGate;
use ob_emit::merge_externals;
use scip_index::{Document, Index, Metadata, SymbolInfo, ToolInfo};
use source_tree::{Source, TreeFault, TreeParts, tree_parts};
use std::alloc::{AllocError, Global};
use std::marker::Brand;
use std::sync::Wait;
use std::thread::Threads;

/// The options of an index: the package in its symbols, and the project root in its metadata.
#[derive(Drop)]
pub struct IndexOptions {
    /// The package. Callers have to make sure that it isn't `.` and doesn't begin with a space.
    pub package: String,
    pub root: String,
}

/// Converts the entries into plain ones, whose type names no tree, in the same order.
fn into_entries<F: NamedIndex>(
    alloc: Global,
    all: Vec<IndexEntry<F>>,
) -> Result<Vec<Entry>, AllocError>
    ensures { IfOk result (λ entries. map entry_model entries.items ≡ all.items) }
{
    let mut entries = Vec::new(alloc);
    for built in all {
        entries.push(built.into_entry())?;
    }
    Ok(entries)
}

/// Makes the entries of the tree from the parts of its files, with at most `workers` workers, in the order of the files.
fn entries_of_parts<F: NamedIndex + Send + Sync, G: BoardGate + Sync, R: Threads + Wait + Sync>(
    rt: &R,
    alloc: Global,
    sources: &[Source],
    tree: &TreeParts,
    options: &IndexOptions,
    workers: u32,
    gate: &G,
) -> Result<Vec<Entry>, AllocError>
    // The type `F` names the files, the graph and the package.
    requires files { F.files ≡ file_models sources.now tree.now.modules.items }
    requires graph { F.graph ≡ tree.now.graph }
    // The parts and the graph are those of the sources.
    requires seen { AreSourcesRead sources.now tree.now.modules.items tree.now.graph }
    requires package { string_bytes options.now.package ≡ F.package_name }
    // The package isn't `.` and doesn't begin with a space.
    requires right { is_wrong_part F.package_name ≡ false }
    ensures { IfOk result (λ entries. AreEntriesOf F.files F.package_name (map entry_model entries.items)) }
{
    let precomputed_chains = PrecomputedChains::from_files(alloc, sources, tree.modules.as_slice());
    let graph = board_graph(alloc, &tree.graph)?;
    let work = EntryBuilder::<F, IndexEntry<F>>::new(
        alloc,
        sources,
        tree.modules.as_slice(),
        &tree.graph,
        options.package.as_str(),
        precomputed_chains,
    );
    let all = board_workers::make_entries(rt, alloc, &graph, workers, &work, gate);
    drop(graph);
    into_entries(alloc, all?)
}

/// Computes the entries of a tree's modules, in the order of the files. At most `workers` threads read the files. The calling thread and at
/// most `workers - 1` others make the entries. Each thread calls the gate between claiming and delivering a module.
/// Fails with the fault of the tree, or with `TreeFault::Memory` if an allocation fails. It may wait for a lock and for its threads.
pub fn entries<G: BoardGate + Sync, R: Threads + Wait + Sync>(
    rt: &R,
    alloc: Global,
    sources: &[Source],
    options: &IndexOptions,
    workers: u32,
    gate: &G,
) -> Result<Vec<Entry>, TreeFault>
    // The package isn't `.` and doesn't begin with a space.
    requires package { is_wrong_part (string_bytes options.now.package) ≡ false }
    // With `Ok` the result is exactly the tree's list of entries, whatever the order of the workers' steps.
    ensures exact { IfOk result (λ entries. AreTreeEntries sources.now (string_bytes options.now.package) (map entry_model entries.items)) }
    // The error is a fault of the tree.
    ensures fault { IfErr result (IsTreeFault sources.now) }
{
    let tree = tree_parts(rt, alloc, sources, workers)?;
    let entries = entries_of_parts::<Brand, G, R>(
        rt, alloc, sources, &tree, options, workers, gate,
    );
    drop(tree);
    Ok(entries?)
}

/// Makes the metadata of an index: the tool `oscip`, version 1, UTF-8 as the encoding of the files, and the project root.
pub(crate) fn metadata(alloc: Global, root: &str) -> Result<Metadata, AllocError>
    ensures { IfOk result (λ m. metadata_model m ≡ tool_metadata root.now) }
{
    let tool = ToolInfo {
        name: String::from_str(alloc, "oscip")?,
        version: String::from_str(alloc, "1")?,
        arguments: Vec::new(alloc),
    };
    Ok(Metadata {
        version: 0,
        tool_info: Some(tool),
        project_root: String::from_str(alloc, root)?,
        text_document_encoding: 1,
    })
}

/// The documents of all entries in one list, and the external symbols of all entries in another one (`rows`), both in the order of the
/// entries.
#[derive(Drop)]
struct Gathered {
    documents: Vec<Document>,
    rows: Vec<SymbolInfo>,
}

/// Collects the documents of the entries in one list, and the external symbols of the entries in another one.
fn gather(alloc: Global, entries: Vec<Entry>) -> Result<Gathered, AllocError>
    ensures documents { IfOk result (λ all. map document_model all.documents.items ≡ map (λ e. (entry_model e).document) entries.items) }
    ensures rows { IfOk result (λ all. map symbol_model all.rows.items ≡ flat_map (λ e. (entry_model e).externals) entries.items) }
{
    let mut documents = Vec::new(alloc);
    let mut rows = Vec::new(alloc);
    for entry in entries {
        let Entry {
            name: _,
            document,
            interface: _,
            externals,
        } = entry;
        let mut more = externals;
        rows.append(&mut more)?;
        documents.push(document)?;
    }
    Ok(Gathered { documents, rows })
}

/// Makes the index with the documents of these entries, in their order, and with the entries' external symbols, sorted by symbol string,
/// each once.
pub(crate) fn assemble_index(
    alloc: Global,
    entries: Vec<Entry>,
    root: &str,
) -> Result<Index, AllocError>
    // Each external symbol of an entry is the symbol information of a module, or of a name of a module.
    requires { AreExternalRows (flat_map (λ e. (entry_model e).externals) entries.items) }
    ensures { IfOk result (λ index. IsBuiltFrom (map entry_model entries.items) root.now (index_model index)) }
{
    let metadata = metadata(alloc, root)?;
    let Gathered { documents, rows } = gather(alloc, entries)?;
    Ok(Index {
        metadata: Some(metadata),
        documents,
        external_symbols: merge_externals(rows),
    })
}

/// Makes the index of a tree from the result of `entries`: the documents sorted by path, and the external symbols sorted by symbol string,
/// each once.
/// Fails with the fault of the tree, or with `TreeFault::Memory` if an allocation fails. It may wait for a lock and for its threads.
pub fn index_tree<G: BoardGate + Sync, R: Threads + Wait + Sync>(
    rt: &R,
    alloc: Global,
    sources: &[Source],
    options: &IndexOptions,
    workers: u32,
    gate: &G,
) -> Result<Index, TreeFault>
    // The package isn't `.` and doesn't begin with a space.
    requires package { is_wrong_part (string_bytes options.now.package) ≡ false }
    // With `Ok` the index is exactly the tree's, whatever the order of the workers' steps.
    ensures exact { IfOk result (λ index. IsIndex sources.now (string_bytes options.now.package) (string_bytes options.now.root) (index_model index)) }
    // The error is a fault of the tree.
    ensures fault { IfErr result (IsTreeFault sources.now) }
{
    let entries = entries(rt, alloc, sources, options, workers, gate)?;
    let index = assemble_index(alloc, entries, options.root.as_str())?;
    Ok(index)
}
