//! The occurrences at which a module of a tree uses another module.
ghost use Rattle.std.specs.Prelude.{◌≡◌, ℕ, List, Some, Contains, IfErr, IfNone, IfOk, IfSome, slice_get, Ok};
ghost use Rattle.module_table.specs.Tables.{rows_in};
ghost use Rattle.ob_imports.specs.Files.{names_of};
ghost use Rattle.ob_imports.specs.Outcomes.{AreFilesOfGraph};
ghost use Rattle.ob_scan.specs.Position.{line_starts};
ghost use Rattle.ob_scan.specs.Spelling.{AreInText, IsOutcome};
ghost use Rattle.ob_scan.specs.declared.token.Token.{Token};
ghost use Rattle.ob_scan.specs.Texts.{text_at};
ghost use Rattle.ob_scope.specs.Crossings.{AreCrossings};
ghost use Rattle.scopes.specs.Scoped.{AreScopes};
ghost use Rattle.ob_scope.specs.declared.crossing_uses.Crossing.{Crossing};
ghost use Rattle.source_tree.specs.Crossings.{AreSpans, AreUseSpans, AreImportUses, AreUsesInFile, IsSpan};
ghost use Rattle.source_tree.specs.TreeReading.{AreScopesOf, IsTreeOf};
ghost use Rattle.source_tree.specs.Trees.{files_of, names, IsAccepted, IsFileFault, IsTreeFault, ModuleFile};

use crate::front_end::{locate_scan_fault, table_from_tokens};
use crate::tree_reading::{ScopedTree, read_scoped_tree};
use crate::{Source, TreeFault};
use module_table::Table;
use ob_imports::Graph;
use ob_scan::laws::tokens_in_text;
use ob_scan::{Lines, Position, Token, TokenTexts, Tokens, lines, scan};
use ob_scope::{Crossing, Scopes, crossings};
use std::alloc::{AllocError, Global};
use std::thread::Threads;

/// A range of a file, from the position of the range's first byte to the position after its last byte.
#[derive(Clone, Copy, PartialEq, Eq, Debug)]
pub struct Span {
    pub start: Position,
    pub end: Position,
}

/// The occurrences at which one module, the importer, uses another one; or why there are none. Both modules are given by name.
#[derive(Drop)]
pub enum ImportUses {
    /// The path of the importer's file, and the ranges in that file of the uses.
    Places { path: String, spans: Vec<Span> },
    /// No module of the tree has the importer's name.
    NoImporter,
    /// No module of the tree has the name of the other module, and no module of the tree imports it.
    NoImported,
}

/// The range of a qualified use, from its alias to the end of the name after the dot.
fn crossing_span(lines: &Lines, text: &TokenTexts, crossing: Crossing) -> Span
    // `lines` has the offsets at which the lines of the file start.
    requires lined { lines.now ≡ line_starts text.now.bytes.now }
    // The tokens are ranges of the bytes.
    requires in_text { AreInText text.now.bytes.now text.now.tokens.now }
    ensures { IsSpan text.now.bytes.now text.now.tokens.now crossing result }
{
    Span {
        start: lines.position(text.start(crossing.first)),
        end: lines.position(text.end(crossing.last)),
    }
}

/// The ranges of qualified uses, in their order.
fn crossing_spans(
    alloc: Global,
    bytes: &[u8],
    tokens: &[Token],
    crossings: &[Crossing],
) -> Result<Vec<Span>, AllocError>
    requires { AreInText bytes.now tokens.now }
    // There is a range for each qualified use, in order.
    ensures { IfOk result (λ v. AreSpans bytes.now tokens.now crossings.now v.items) }
{
    let lines = lines(alloc, bytes)?;
    let text = TokenTexts { bytes, tokens };
    let mut spans = Vec::new(alloc);
    for crossing in crossings {
        spans.push(crossing_span(&lines, &text, *crossing))?;
    }
    Ok(spans)
}

/// The ranges of the qualified uses of the module named `imported`, given the table and the scopes of the importer.
fn uses_in_table(
    alloc: Global,
    bytes: &[u8],
    tokens: &[Token],
    table: &Table,
    scopes: &Scopes,
    imported: &str,
) -> Result<Vec<Span>, AllocError>
    requires { AreInText bytes.now tokens.now }
    // With `Ok` the ranges are those of qualified uses. If the scopes are those of the table, these are exactly the uses of the module
    // `imported`.
    ensures { IfOk result (λ v. (found : List Crossing)
        × ((bs : List ℕ) (ts : List Token) → AreScopes bs ts (rows_in table.now) scopes.now → AreCrossings (text_at bs ts) (rows_in table.now) imported.now (rows_in table.now).uses found)
        × AreSpans bytes.now tokens.now found v.items) }
{
    let found = crossings(alloc, table, scopes, imported)?;
    crossing_spans(alloc, bytes, tokens, found.as_slice())
}

/// The ranges in a file at which its module uses the module named `imported`. `tokens` are the file's tokens.
fn spans_of_tokens(
    alloc: Global,
    source: &Source,
    tokens: &Tokens,
    scopes: &Scopes,
    imported: &str,
) -> Result<Vec<Span>, TreeFault>
    // The file has these tokens.
    requires { IsOutcome source.now.bytes.items (Ok tokens.now) }
    // With `Ok`: if the scopes are those of the file, the ranges are exactly its qualified uses of the module `imported`.
    ensures places { IfOk result (λ v. (file : ModuleFile) → IsAccepted source.now file → AreScopesOf file scopes.now → AreUseSpans file imported.now v.items) }
    // The file has this error, or an allocation failed.
    ensures fault { IfErr result (IsFileFault source.now) }
{
    tokens_in_text();
    let table = table_from_tokens(alloc, source, tokens)?;
    let bytes = source.bytes.as_slice();
    let spans = uses_in_table(alloc, bytes, tokens.as_slice(), &table, scopes, imported);
    drop(table);
    Ok(spans?)
}

/// The ranges in a file at which its module uses the module named `imported`.
fn spans_of_file(
    alloc: Global,
    source: &Source,
    scopes: &Scopes,
    imported: &str,
) -> Result<Vec<Span>, TreeFault>
    // With `Ok`: if the scopes are those of the file, the ranges are exactly its qualified uses of the module `imported`.
    ensures places { IfOk result (λ v. (file : ModuleFile) → IsAccepted source.now file → AreScopesOf file scopes.now → AreUseSpans file imported.now v.items) }
    // The file has this error, or an allocation failed.
    ensures fault { IfErr result (IsFileFault source.now) }
{
    match scan(alloc, source.bytes.as_slice()) {
        Ok(tokens) => spans_of_tokens(alloc, source, &tokens, scopes, imported),
        Err(fault) => Err(locate_scan_fault(alloc, source, fault)),
    }
}

/// The path of a file, and the ranges in it at which its module uses the module named `imported`.
fn uses_in_file(
    alloc: Global,
    source: &Source,
    scopes: &Scopes,
    imported: &str,
) -> Result<ImportUses, TreeFault>
    // With `Ok` the result has the file's path. If the scopes are those of the file, it has the ranges of exactly its uses of `imported`.
    ensures places { IfOk result (AreUsesInFile source.now scopes.now imported.now) }
    // The file has this error, or an allocation failed.
    ensures fault { IfErr result (IsFileFault source.now) }
{
    let spans = spans_of_file(alloc, source, scopes, imported)?;
    let path = String::from_str(alloc, source.path.as_str())?;
    Ok(ImportUses::Places { path, spans })
}

/// The number in the graph of the tree's module with this name; `None` if no file of the tree is that module.
fn find_importer(graph: &Graph, name: &str) -> Option<u32>
    ensures found { IfSome result (λ v. (files : List ModuleFile) → AreFilesOfGraph (files_of files) graph.now → (file : ModuleFile) × (slice_get files v ≡ Some file) × (names file 1 ≡ name.now)) }
    ensures none { IfNone result ((files : List ModuleFile) → AreFilesOfGraph (files_of files) graph.now → Contains (names_of (files_of files)) name.now → ⊥) }
{
    let node = graph.node_of(name)?;
    if node < graph.modules() {
        Some(node)
    } else {
        None
    }
}

/// The ranges at which the module named `from` uses the module named `to`, with the path of the file of `from`; or which of the two names
/// no module has.
fn uses_in_tree(
    alloc: Global,
    tree: &ScopedTree,
    sources: &[Source],
    from: &str,
    to: &str,
) -> Result<ImportUses, TreeFault>
    // The tree is that of these files.
    requires { IsTreeOf sources.now tree.now }
    ensures crossed { IfOk result (AreImportUses sources.now from.now to.now) }
    // With `Err` the tree has the returned error, or an allocation failed.
    ensures fault { IfErr result (IsTreeFault sources.now) }
{
    let Some(importer) = find_importer(&tree.graph, from) else {
        return Ok(ImportUses::NoImporter);
    };
    if tree.graph.node_of(to).is_none() {
        return Ok(ImportUses::NoImported);
    }
    let importer = importer as usize;
    uses_in_file(alloc, &sources[importer], &tree.scopes[importer], to)
}

/// The ranges at which the module `from` uses the module `to`: the qualified uses whose alias denotes `to`, in order, each from the alias
/// to the end of the name after the dot. Their number is the weight of the import; without an import there are none. Returns `NoImporter`
/// if `from` isn't a module of the tree, else `NoImported` if `to` is neither one nor imported. Reads the files in at most `workers`
/// chunks, each in a thread of its own if one can be started.
pub fn uses_of_import<R: Threads + Sync>(
    rt: &R,
    alloc: Global,
    sources: &[Source],
    from: &str,
    to: &str,
    workers: u32,
) -> Result<ImportUses, TreeFault>
    // With `Ok` the result has exactly the ranges of the uses, or says which name no module has.
    ensures crossed { IfOk result (AreImportUses sources.now from.now to.now) }
    // With `Err` the tree has the returned error, or an allocation failed.
    ensures fault { IfErr result (IsTreeFault sources.now) }
{
    let tree = read_scoped_tree(rt, alloc, sources, workers)?;
    uses_in_tree(alloc, &tree, sources, from, to)
}
