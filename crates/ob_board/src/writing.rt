//! Makes the index of a tree with encoded documents. The worker that makes a module's document also encodes it. So the calling thread only
//! has to write bytes, and no document is kept as a message in memory.
ghost use Rattle.std.specs.Prelude.{◌≡◌, false, map, IfErr, IfOk};
ghost use Rattle.std.specs.List.{flat_map};
ghost use Rattle.std.specs.String.{string_bytes};
ghost use Rattle.ob_emit.specs.Externals.{AreExternalRows, AreExternals};
ghost use Rattle.source_tree.specs.Trees.{IsTreeFault};
ghost use Rattle.scip_index.specs.Plain.{metadata_model, symbol_model};
ghost use Rattle.scip_symbol.specs.Outcomes.{is_wrong_part};
ghost use Rattle.ob_board.specs.SourceParts.{file_models, AreSourcesRead};
ghost use Rattle.ob_board.specs.Indexes.{tool_metadata};
ghost use Rattle.ob_board.specs.Records.{AreRecordsOf, AreTreeRecords};
ghost use Rattle.ob_board.specs.WrittenIndexes.{IsWrittenIndex};

use crate::built::EntryBuilder;
use crate::encoded::EncodedEntry;
use crate::indexing::metadata;
use crate::named_index::NamedIndex;
use crate::precomputed_chains::PrecomputedChains;
use crate::written::EncodedDocument;
use crate::{IndexOptions, board_graph};
use board_workers::BoardGate;
use ob_emit::merge_externals;
use scip_index::{Metadata, SymbolInfo};
use source_tree::{Source, TreeFault, TreeParts, tree_parts};
use std::alloc::{AllocError, Global};
use std::marker::Brand;
use std::sync::Wait;
use std::thread::Threads;

/// An index (scip.proto, `Index`) whose documents are encoded already.
#[derive(Drop)]
pub struct EncodedIndex {
    /// The tool, the encoding of the files, and the project root.
    pub metadata: Metadata,
    /// The encoded records of the documents, in the order of the files: their concatenation is the field `documents` of an encoded index.
    pub records: Vec<Vec<u8>>,
    pub external_symbols: Vec<SymbolInfo>,
}

/// The records of all entries in one list, and the external symbols of all entries in another one (`rows`), both in the order of the
/// entries.
#[derive(Drop)]
struct Gathered {
    records: Vec<Vec<u8>>,
    rows: Vec<SymbolInfo>,
}

/// Collects the documents' records of the entries in one list, and the external symbols of the entries in another one.
fn gather<F: NamedIndex>(alloc: Global, all: Vec<EncodedEntry<F>>) -> Result<Gathered, AllocError>
    ensures records { IfOk result (λ g. map (λ row. row.items) g.records.items ≡ map (λ r. r.bytes) all.items) }
    ensures rows { IfOk result (λ g. map symbol_model g.rows.items ≡ flat_map (λ r. r.externals) all.items) }
{
    let mut records = Vec::new(alloc);
    let mut rows = Vec::new(alloc);
    for encoded in all {
        let EncodedDocument { bytes, externals } = encoded.into_record();
        let mut more = externals;
        rows.append(&mut more)?;
        records.push(bytes)?;
    }
    Ok(Gathered { records, rows })
}

/// Makes the documents' records and the external symbols of the tree from the parts of its files, with at most `workers` workers, in the
/// order of the files.
fn records_of_parts<F: NamedIndex + Send + Sync, G: BoardGate + Sync, R: Threads + Wait + Sync>(
    rt: &R,
    alloc: Global,
    sources: &[Source],
    tree: &TreeParts,
    options: &IndexOptions,
    workers: u32,
    gate: &G,
) -> Result<Gathered, AllocError>
    // The type `F` names the files, the graph and the package.
    requires files { F.files ≡ file_models sources.now tree.now.modules.items }
    requires graph { F.graph ≡ tree.now.graph }
    // The parts and the graph are those of the sources.
    requires seen { AreSourcesRead sources.now tree.now.modules.items tree.now.graph }
    requires package { string_bytes options.now.package ≡ F.package_name }
    // The package isn't `.` and doesn't begin with a space.
    requires right { is_wrong_part F.package_name ≡ false }
    ensures { IfOk result (λ g. AreRecordsOf F.files F.package_name (map (λ row. row.items) g.records.items) (map symbol_model g.rows.items)) }
{
    let precomputed_chains = PrecomputedChains::from_files(alloc, sources, tree.modules.as_slice());
    let graph = board_graph(alloc, &tree.graph)?;
    let work = EntryBuilder::<F, EncodedEntry<F>>::new(
        alloc,
        sources,
        tree.modules.as_slice(),
        &tree.graph,
        options.package.as_str(),
        precomputed_chains,
    );
    let all = board_workers::make_entries(rt, alloc, &graph, workers, &work, gate);
    drop(graph);
    gather(alloc, all?)
}

/// Makes the documents' records and the external symbols of a tree. At most `workers` threads read the files. Fails with the fault of the
/// tree, or with `TreeFault::Memory` if an allocation fails.
fn tree_records<G: BoardGate + Sync, R: Threads + Wait + Sync>(
    rt: &R,
    alloc: Global,
    sources: &[Source],
    options: &IndexOptions,
    workers: u32,
    gate: &G,
) -> Result<Gathered, TreeFault>
    requires package { is_wrong_part (string_bytes options.now.package) ≡ false }
    ensures exact { IfOk result (λ g. AreTreeRecords sources.now (string_bytes options.now.package) (map (λ row. row.items) g.records.items) (map symbol_model g.rows.items)) }
    ensures fault { IfErr result (IsTreeFault sources.now) }
{
    let tree = tree_parts(rt, alloc, sources, workers)?;
    let gathered = records_of_parts::<Brand, G, R>(
        rt, alloc, sources, &tree, options, workers, gate,
    );
    drop(tree);
    Ok(gathered?)
}

/// Makes the encoded index with these records, in their order, and with these external symbols, sorted by symbol string, each once.
fn make_encoded_index(
    alloc: Global,
    gathered: Gathered,
    root: &str,
) -> Result<EncodedIndex, AllocError>
    // Each external symbol is the symbol information of a module, or of a name of a module.
    requires { AreExternalRows (map symbol_model gathered.rows.items) }
    ensures metadata { IfOk result (λ w. metadata_model w.metadata ≡ tool_metadata root.now) }
    ensures records { IfOk result (λ w. w.records.items ≡ gathered.records.items) }
    ensures externals { IfOk result (λ w. AreExternals (map symbol_model gathered.rows.items) (map symbol_model w.external_symbols.items)) }
{
    let metadata = metadata(alloc, root)?;
    let Gathered { records, rows } = gathered;
    Ok(EncodedIndex {
        metadata,
        records,
        external_symbols: merge_externals(rows),
    })
}

/// Makes the index of a tree, as `index_tree` does, but with each document encoded as its record in the index. The worker that makes a
/// module's entry encodes its document.
/// Fails with the fault of the tree, or with `TreeFault::Memory` if an allocation fails. It may wait for a lock and for its threads.
pub fn encode_tree_index<G: BoardGate + Sync, R: Threads + Wait + Sync>(
    rt: &R,
    alloc: Global,
    sources: &[Source],
    options: &IndexOptions,
    workers: u32,
    gate: &G,
) -> Result<EncodedIndex, TreeFault>
    // The package isn't `.` and doesn't begin with a space.
    requires package { is_wrong_part (string_bytes options.now.package) ≡ false }
    // With `Ok` the result has exactly the parts of the tree's index, whatever the order of the workers' steps.
    ensures exact { IfOk result (λ w. IsWrittenIndex sources.now (string_bytes options.now.package) (string_bytes options.now.root) w) }
    // The error is a fault of the tree.
    ensures fault { IfErr result (IsTreeFault sources.now) }
{
    let gathered = tree_records(rt, alloc, sources, options, workers, gate)?;
    let parts = make_encoded_index(alloc, gathered, options.root.as_str())?;
    Ok(parts)
}
