//! Source trees with the scopes of their modules, and the network of their imports.
ghost use Rattle.std.specs.Prelude.{◌≡◌, ◌↔◌, ℕ, Contains, IfErr, IfOk, List, length, map};
ghost use Rattle.cut_net.specs.Network.{texts};
ghost use Rattle.ob_imports.specs.Files.{file_of as parsed_file, files_of as parsed_files, IsNode};
ghost use Rattle.source_tree.specs.declared.source.Source.{Source};
ghost use Rattle.source_tree.specs.Trees.{IsAccepted, IsNetOfTree, IsTreeFault, ModuleFile, file_of, files_of};
ghost use Rattle.source_tree.specs.TreeReading.{AreFilesRead, AreScopesOf, IsTreeOf};

use crate::files::read_files;
use crate::{Source, TreeFault, net_of_graph};
use cut_net::Net;
use ob_imports::{Graph, Parsed, graph};
use ob_scope::Scopes;
use ob_scope::laws::{weight_is_unique, weight_of_aliases};
use std::alloc::{AllocError, Global};
use std::thread::Threads;

/// The import graph of a tree, and the scopes of each of its modules. The index in `scopes` is the module's number in the graph.
#[derive(Drop)]
pub(crate) struct ScopedTree {
    pub(crate) graph: Graph,
    pub(crate) scopes: Vec<Scopes>,
}

/// The imported names of a module, in the order of its import items.
fn imported_names(alloc: Global, scopes: &Scopes) -> Result<Vec<String>, AllocError>
    ensures { IfOk result (λ v. texts v.items ≡ map (λ a. a.imported) scopes.now.aliases) }
{
    let mut names = Vec::new(alloc);
    for alias in scopes.aliases() {
        names.push(String::from_str(alloc, alias.module.as_str())?)?;
    }
    Ok(names)
}

/// The path, the module name and the imported names of a file: the file's input to the import graph.
pub(crate) fn graph_input(
    alloc: Global,
    source: &Source,
    scopes: &Scopes,
) -> Result<Parsed, AllocError>
    // With `Ok`: if the scopes are those of the file, the result has its path, its module name and its imported names.
    ensures { IfOk result (λ p. (file : ModuleFile) → IsAccepted source.now file → AreScopesOf file scopes.now → parsed_file p ≡ file_of file) }
{
    let path = String::from_str(alloc, source.path.as_str())?;
    let name = String::from_str(alloc, scopes.name())?;
    let imports = imported_names(alloc, scopes)?;
    Ok(Parsed {
        path,
        name,
        imports,
    })
}

/// For each file, its input to the import graph: its path, its module name and its imported names.
pub(crate) fn all_graph_inputs(
    alloc: Global,
    sources: &[Source],
    scopes: &[Scopes],
) -> Result<Vec<Parsed>, AllocError>
    requires { length scopes.now ≡ length sources.now }
    // With `Ok`: if the scopes are those of the files, the result has the path, module name and imported names of each file.
    ensures { IfOk result (λ v. (files : List ModuleFile) → AreFilesRead sources.now files scopes.now → parsed_files v.items ≡ files_of files) }
{
    let mut all = Vec::new(alloc);
    for i in 0..sources.len() {
        all.push(graph_input(alloc, &sources[i], &scopes[i])?)?;
    }
    Ok(all)
}

/// The tree of these files, whose modules have these scopes; or the error of the tree's imports.
pub(crate) fn build_tree(
    alloc: Global,
    sources: &[Source],
    scopes: Vec<Scopes>,
) -> Result<Box<ScopedTree>, TreeFault>
    // The files are accepted, and `scopes` has the scopes of each.
    requires { (files : List ModuleFile) × AreFilesRead sources.now files scopes.items }
    // With `Ok` the files are accepted, and the result has their import graph and scopes.
    ensures tree { IfOk result (λ tree. IsTreeOf sources.now tree.value) }
    // With `Ok` the result has the given scopes, unchanged.
    ensures scopes { IfOk result (λ tree. tree.value.scopes ≡ scopes) }
    // The tree has this error, or an allocation failed.
    ensures fault { IfErr result (IsTreeFault sources.now) }
{
    let parsed = all_graph_inputs(alloc, sources, scopes.as_slice())?;
    let graph = graph(alloc, parsed.as_slice())?;
    Ok(Box::new(alloc, ScopedTree { graph, scopes })?)
}

/// The import graph of the files and the scopes of each module; or the error of the first file that has one, or else the error of the
/// imports.
pub(crate) fn read_scoped_tree<R: Threads + Sync>(
    rt: &R,
    alloc: Global,
    sources: &[Source],
    workers: u32,
) -> Result<Box<ScopedTree>, TreeFault>
    // With `Ok` the files are accepted, and the result has their import graph and scopes.
    ensures tree { IfOk result (λ tree. IsTreeOf sources.now tree.value) }
    // The tree has this error, or an allocation failed.
    ensures fault { IfErr result (IsTreeFault sources.now) }
{
    let scopes: Vec<Scopes> = read_files(rt, alloc, sources, workers)?;
    build_tree(alloc, sources, scopes)
}

/// The network of a source tree: its modules, the external ones included, and its imports with their weights.
pub(crate) fn network_of_tree(alloc: Global, tree: &ScopedTree) -> Result<Net, AllocError>
    // The tree is that of some files.
    requires { (sources : List Source) × IsTreeOf sources tree.now }
    // With `Ok` the result is the network of the files of which this is the tree.
    ensures net { (sources : List Source) → IsTreeOf sources tree.now → IfOk result (IsNetOfTree sources) }
    // With `Ok` the network has exactly the names of the modules of the tree and of the modules that they import.
    ensures named { (sources : List Source) → (of : IsTreeOf sources tree.now) → IfOk result (λ net. (n : List ℕ) → Contains net.names n ↔ IsNode (files_of of.files) n) }
{
    tree.graph.invariants();
    weight_of_aliases();
    weight_is_unique();
    net_of_graph(alloc, &tree.graph, tree.scopes.as_slice())
}

/// The network of a source tree: its modules and imports. The weight of an import is the number of the importer's qualified names whose
/// alias denotes the imported module. Reads the files in at most `workers` chunks, each in a thread of its own if one can be started.
pub fn net_of<R: Threads + Sync>(
    rt: &R,
    alloc: Global,
    sources: &[Source],
    workers: u32,
) -> Result<Net, TreeFault>
    // With `Ok` the files are accepted, and the result is the network of their imports.
    ensures net { IfOk result (IsNetOfTree sources.now) }
    // With `Err` the tree has the returned error, or an allocation failed.
    ensures fault { IfErr result (IsTreeFault sources.now) }
{
    let tree = read_scoped_tree(rt, alloc, sources, workers)?;
    Ok(network_of_tree(alloc, &tree)?)
}
