//! Source trees with syntax trees: for each module its parts and its syntax tree, and the import graph of the modules.
ghost use Rattle.std.specs.Prelude.{IfErr, IfOk, List, Ok};
ghost use Rattle.ob_grammar.specs.Parsed.{IsTheTree};
ghost use Rattle.ob_scan.specs.Spelling.{IsOutcome};
ghost use Rattle.source_tree.specs.Parts.{AreAllParts, HasParts};
ghost use Rattle.ob_parse.specs.Readings.{AreAllRead, HasReading, IsReadTree};
ghost use Rattle.source_tree.specs.Trees.{IsFileFault, IsTreeFault, ModuleFile};

use crate::parse;
use ob_imports::Graph;
use ob_scan::Tokens;
use ob_tree::declaration::Module;
use source_tree::{ModuleParts, Source, TreeFault, TreeParts, locate_parse_fault, tree_parts};
use std::alloc::Global;
use std::thread::Threads;

/// The parts and the syntax tree of a file's module.
#[derive(Drop)]
pub struct ParsedModule {
    pub parts: Box<ModuleParts>,
    pub tree: Box<Module>,
}

/// The import graph of a source tree, and each of its modules. The index in `modules` is the module's number in the graph.
#[derive(Drop)]
pub struct ParsedTree {
    pub graph: Graph,
    pub modules: Vec<ParsedModule>,
}

/// The syntax tree of a file's module, given its tokens; or the file's error.
fn tree_from_tokens(
    alloc: Global,
    source: &Source,
    tokens: &Tokens,
) -> Result<Box<Module>, TreeFault>
    // The file has these tokens.
    requires { IsOutcome source.now.bytes.items (Ok tokens.now) }
    // With `Ok` the result is the file's syntax tree.
    ensures tree { IfOk result (λ tree. IsTheTree source.now.bytes.items tokens.now tree.value) }
    ensures fault { IfErr result (IsFileFault source.now) }
{
    match parse(alloc, source.bytes.as_slice(), tokens) {
        Ok(tree) => Ok(Box::new(alloc, tree)?),
        Err(fault) => Err(locate_parse_fault(alloc, source, fault)),
    }
}

/// Scans and parses a file, and returns its syntax tree together with the given parts of its module.
fn read_module(
    alloc: Global,
    source: &Source,
    parts: Box<ModuleParts>,
) -> Result<ParsedModule, TreeFault>
    // The parts are those of the file's module.
    requires { HasParts source.now parts }
    // With `Ok` the file is accepted, and the result has the parts and the syntax tree of its module.
    ensures read { IfOk result (HasReading source.now) }
    ensures fault { IfErr result (IsFileFault source.now) }
{
    let tree = tree_from_tokens(alloc, source, &parts.tokens)?;
    Ok(ParsedModule { parts, tree })
}

/// Scans and parses the files in order, and returns for each its syntax tree together with the given parts of its module.
fn read_modules(
    alloc: Global,
    sources: &[Source],
    modules: Vec<Box<ModuleParts>>,
) -> Result<Vec<ParsedModule>, TreeFault>
    // The files are accepted, and `modules` has the parts of the module of each.
    requires { (files : List ModuleFile) × AreAllParts sources.now files modules.items }
    // With `Ok` the result has the parts and the syntax tree of each file's module.
    ensures read { IfOk result (λ v. (files : List ModuleFile) × AreAllRead sources.now files v.items) }
    ensures fault { IfErr result (IsTreeFault sources.now) }
{
    let mut all = Vec::new(alloc);
    for parts in modules {
        let source = &sources[all.len()];
        all.push(read_module(alloc, source, parts)?)?;
    }
    Ok(all)
}

/// The import graph of the files, and for each module its parts and its syntax tree; or the error of the first file that has one, or else
/// the error of the imports. Reads the parts as `tree_parts` does. Only the calling thread makes the syntax trees.
pub fn read_tree<R: Threads + Sync>(
    rt: &R,
    alloc: Global,
    sources: &[Source],
    workers: u32,
) -> Result<ParsedTree, TreeFault>
    // With `Ok` each file is accepted, and the result has the tokens, syntax tree, table, scopes and interface of its module. The graph
    // is that of the files' imports, and acyclic.
    ensures read { IfOk result (λ tree. (files : List ModuleFile) × IsReadTree sources.now files tree) }
    // With `Err` the source tree has the returned error, or an allocation failed.
    ensures fault { IfErr result (IsTreeFault sources.now) }
{
    let TreeParts { graph, modules } = tree_parts(rt, alloc, sources, workers)?;
    let modules = read_modules(alloc, sources, modules)?;
    Ok(ParsedTree { graph, modules })
}
