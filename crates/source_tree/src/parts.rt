//! The parts of each module that the index of a tree needs: tokens, table, scopes and interface.
ghost use Rattle.std.specs.Prelude.{◌≡◌, IfErr, IfOk, List, length, Ok};
ghost use Rattle.std.specs.Arc.{arc_value};
ghost use Rattle.module_table.specs.Tables.{rows_in};
ghost use Rattle.table_rules.specs.Declaring.{rows_of};
ghost use Rattle.ob_imports.specs.Files.{files_of as parsed_files};
ghost use Rattle.ob_interface.specs.Interfaces.{interface_of};
ghost use Rattle.ob_grammar.specs.Parsed.{IsTheTree};
ghost use Rattle.ob_scan.specs.Spelling.{AreInText, IsOutcome};
ghost use Rattle.scopes.specs.Scoped.{AreScopes};
ghost use Rattle.ob_tree.specs.declared.declaration.Module.{Module};
ghost use Rattle.source_tree.specs.Parts.{AreAllParts, ArePartsOfTree, HasParts};
ghost use Rattle.source_tree.specs.Trees.{files_of, IsFileFault, IsTreeFault, ModuleFile};

use crate::files::{FromSource, read_files};
use crate::front_end::{locate_scan_fault, locate_scope_fault, table_from_tokens};
use crate::tree_reading::graph_input;
use crate::{Source, TreeFault};
use module_table::Table;
use ob_imports::{Graph, Parsed, graph};
use ob_interface::{Interface, read_interface};
use ob_scan::laws::tokens_in_text;
use ob_scan::{Token, Tokens, scan};
use ob_scope::{Scopes, scopes_from};
use std::alloc::{AllocError, Global};
use std::sync::Arc;
use std::thread::Threads;
use table_rules::laws::tree_table_is_valid;

/// The parts of a file's module: its tokens, its table of declarations and uses, its scopes, and its interface for other modules.
/// Several owners can share the interface.
#[derive(Drop)]
pub struct ModuleParts {
    pub tokens: Tokens,
    pub table: Table,
    pub scopes: Scopes,
    pub interface: Arc<Interface>,
}

/// The import graph of a tree, and the parts of each of its modules. The index in `modules` is the module's number in the graph.
#[derive(Drop)]
pub struct TreeParts {
    pub graph: Graph,
    pub modules: Vec<Box<ModuleParts>>,
}

/// The interface of the module with this table, tokens and bytes.
fn build_interface(
    alloc: Global,
    table: &Table,
    tokens: &[Token],
    bytes: &[u8],
) -> Result<Arc<Interface>, AllocError>
    requires { AreInText bytes.now tokens.now }
    ensures { IfOk result (λ interface. arc_value interface ≡ interface_of bytes.now tokens.now (rows_in table.now)) }
{
    let seen = read_interface(alloc, table, tokens, bytes)?;
    let interface = Interface::new(alloc, seen)?;
    Ok(Arc::new(alloc, interface)?)
}

/// The parts of a file's module, given its tokens, table and scopes.
fn parts_from_scopes(
    alloc: Global,
    source: &Source,
    tokens: Tokens,
    table: Table,
    scopes: Scopes,
) -> Result<Box<ModuleParts>, AllocError>
    // The file has these tokens.
    requires spelled { IsOutcome source.now.bytes.items (Ok tokens) }
    // The scopes are those of the table.
    requires scoped { AreScopes source.now.bytes.items tokens (rows_in table) scopes }
    // With `Ok`: if the table is that of the file's syntax tree, the file is accepted and the result has its module's parts.
    ensures { IfOk result (λ parts. (tree : Module) → IsTheTree source.now.bytes.items tokens tree → rows_in table ≡ rows_of tree → HasParts source.now parts) }
{
    tokens_in_text();
    let interface = build_interface(alloc, &table, tokens.as_slice(), source.bytes.as_slice())?;
    let parts = Box::new(
        alloc,
        ModuleParts {
            tokens,
            table,
            scopes,
            interface,
        },
    )?;
    Ok(parts)
}

/// The parts of a file's module, given its tokens and table; or the error of its names.
fn parts_from_table(
    alloc: Global,
    source: &Source,
    tokens: Tokens,
    table: Table,
) -> Result<Box<ModuleParts>, TreeFault>
    // The file has these tokens.
    requires spelled { IsOutcome source.now.bytes.items (Ok tokens) }
    // The table is that of the syntax tree of the file.
    requires parsed { (tree : Module) × IsTheTree source.now.bytes.items tokens tree × (rows_in table ≡ rows_of tree) }
    // With `Ok` the file is accepted, and the result has the parts of its module.
    ensures parts { IfOk result (HasParts source.now) }
    // The file has this error, or an allocation failed.
    ensures fault { IfErr result (IsFileFault source.now) }
{
    tokens_in_text();
    tree_table_is_valid();
    match scopes_from(alloc, &table, tokens.as_slice(), source.bytes.as_slice()) {
        Ok(scopes) => Ok(parts_from_scopes(alloc, source, tokens, table, scopes)?),
        Err(fault) => Err(locate_scope_fault(alloc, source, fault)),
    }
}

/// The parts of a file's module, given its tokens; or the error of its syntax or its names.
fn parts_from_tokens(
    alloc: Global,
    source: &Source,
    tokens: Tokens,
) -> Result<Box<ModuleParts>, TreeFault>
    // The file has these tokens.
    requires { IsOutcome source.now.bytes.items (Ok tokens) }
    // The file is accepted, and these are the parts of its module.
    ensures parts { IfOk result (HasParts source.now) }
    // The file has this error, or an allocation failed.
    ensures fault { IfErr result (IsFileFault source.now) }
{
    let table = table_from_tokens(alloc, source, &tokens)?;
    parts_from_table(alloc, source, tokens, table)
}

impl FromSource for Box<ModuleParts> {
    ghost use Rattle.source_tree.specs.Parts.{ArePartsIn};

    ghost is_of = { ArePartsIn };

    fn from_source(alloc: Global, source: &Source) -> Result<Box<ModuleParts>, TreeFault> {
        match scan(alloc, source.bytes.as_slice()) {
            Ok(tokens) => parts_from_tokens(alloc, source, tokens),
            Err(fault) => Err(locate_scan_fault(alloc, source, fault)),
        }
    }
}

/// For each file, its input to the import graph: its path, its module name and its imported names.
fn module_graph_inputs(
    alloc: Global,
    sources: &[Source],
    modules: &[Box<ModuleParts>],
) -> Result<Vec<Parsed>, AllocError>
    requires { length modules.now ≡ length sources.now }
    // With `Ok`: if the parts are those of the files, the result has the path, module name and imported names of each file.
    ensures { IfOk result (λ v. (files : List ModuleFile) → AreAllParts sources.now files modules.now → parsed_files v.items ≡ files_of files) }
{
    let mut all = Vec::new(alloc);
    for i in 0..sources.len() {
        all.push(graph_input(alloc, &sources[i], &modules[i].scopes)?)?;
    }
    Ok(all)
}

/// The import graph of the files and the parts of each module; or the error of the first file that has one, or else the error of the
/// imports. Reads the files in at most `workers` chunks, each in a thread of its own if one can be started.
pub fn tree_parts<R: Threads + Sync>(
    rt: &R,
    alloc: Global,
    sources: &[Source],
    workers: u32,
) -> Result<TreeParts, TreeFault>
    // With `Ok` the files are accepted, and the result has their import graph and the parts of their modules.
    ensures parts { IfOk result (λ tree. (files : List ModuleFile) × ArePartsOfTree sources.now files tree) }
    // With `Err` the tree has the returned error, or an allocation failed.
    ensures fault { IfErr result (IsTreeFault sources.now) }
{
    let modules: Vec<Box<ModuleParts>> = read_files(rt, alloc, sources, workers)?;
    let graph_inputs = module_graph_inputs(alloc, sources, modules.as_slice())?;
    let graph = graph(alloc, graph_inputs.as_slice())?;
    Ok(TreeParts { graph, modules })
}
