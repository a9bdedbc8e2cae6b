//! The locations of the imports of a tree in its files.
ghost use Rattle.std.specs.Prelude.{◌≡◌, ◌<◌, ℕ, IfErr, IfOk, List, Ok, Some, Vec, length, vec_len, map, slice_get, slice_index_or};
ghost use Rattle.std.specs.declared.alloc.Global.{Global as StdGlobal};
ghost use Rattle.cut_net.specs.Network.{missing_item};
ghost use Rattle.module_table.specs.Tables.{rows_in};
ghost use Rattle.table_rules.specs.Declaring.{rows_of};
ghost use Rattle.ob_grammar.specs.Parsed.{IsTheTree};
ghost use Rattle.ob_scan.specs.Position.{line_starts};
ghost use Rattle.ob_scan.specs.Spelling.{AreInText, IsOutcome};
ghost use Rattle.ob_scan.specs.declared.line_column.Position.{Position as ItemPosition};
ghost use Rattle.scopes.specs.Scoped.{ModuleScopes};
ghost use Rattle.ob_tree.specs.declared.declaration.Module.{Module};
ghost use Rattle.source_tree.specs.Located.{no_site, AreItemPositions, HasLocated, HasSite, IsSetFrom};
ghost use Rattle.source_tree.specs.Trees.{IsFileFault};

use crate::files::FromSource;
use crate::front_end::{locate_scan_fault, scopes_from_table, table_from_tokens};
use crate::{Source, TreeFault};
use cut_net::{Net, find_import_number};
use module_table::{Import, Table};
use ob_scan::laws::tokens_in_text;
use ob_scan::{Position, Token, TokenTexts, Tokens, lines, scan};
use ob_scope::Scopes;
use std::alloc::{AllocError, Global};

/// The location of an import: the importer's file, and the position in it of the imported module's name, in the first import item that
/// names this module.
#[derive(Clone, Copy)]
pub struct ImportSite {
    /// The index of the file among the tree's files.
    pub file: usize,
    pub position: Position,
}

/// The scopes of a file's module, and for each of its import items, in their order, the position of the imported name.
#[derive(Drop)]
pub(crate) struct LocatedScopes {
    pub(crate) scopes: Scopes,
    pub(crate) items: Vec<Position>,
}

/// For each import item, in order, the position of the imported name in the file with these bytes and tokens.
fn item_positions(
    alloc: Global,
    bytes: &[u8],
    tokens: &[Token],
    items: &[Import],
) -> Result<Vec<Position>, AllocError>
    requires { AreInText bytes.now tokens.now }
    // With `Ok` there is one position for each import item, that of its imported name.
    ensures { IfOk result (λ v. AreItemPositions bytes.now tokens.now items.now v.items) }
{
    let lines = lines(alloc, bytes)?;
    let text = TokenTexts { bytes, tokens };
    let mut positions = Vec::new(alloc);
    for item in items {
        positions.push(lines.position(text.start(item.imported)))?;
    }
    Ok(positions)
}

/// The scopes of a file's module and the positions of its import items, given its tokens and table; or the error of its names.
fn located_scopes_from_table(
    alloc: Global,
    source: &Source,
    tokens: &Tokens,
    table: &Table,
) -> Result<LocatedScopes, TreeFault>
    // The file has these tokens.
    requires spelled { IsOutcome source.now.bytes.items (Ok tokens.now) }
    // The table is that of the syntax tree of the file.
    requires parsed { (tree : Module) × IsTheTree source.now.bytes.items tokens.now tree × (rows_in table.now ≡ rows_of tree) }
    // The file is accepted, and these are its scopes and the positions of its import items.
    ensures located { IfOk result (HasLocated source.now) }
    // The file has this error, or an allocation failed.
    ensures fault { IfErr result (IsFileFault source.now) }
{
    tokens_in_text();
    let scopes = scopes_from_table(alloc, source, tokens, table)?;
    let items = item_positions(
        alloc,
        source.bytes.as_slice(),
        tokens.as_slice(),
        table.imports(),
    )?;
    Ok(LocatedScopes { scopes, items })
}

/// The scopes of a file's module and the positions of its import items, given its tokens; or the error of its syntax or its names.
fn located_scopes_from_tokens(
    alloc: Global,
    source: &Source,
    tokens: &Tokens,
) -> Result<LocatedScopes, TreeFault>
    // The file has these tokens.
    requires { IsOutcome source.now.bytes.items (Ok tokens.now) }
    // The file is accepted, and these are its scopes and the positions of its import items.
    ensures located { IfOk result (HasLocated source.now) }
    // The file has this error, or an allocation failed.
    ensures fault { IfErr result (IsFileFault source.now) }
{
    let table = table_from_tokens(alloc, source, tokens)?;
    let located = located_scopes_from_table(alloc, source, tokens, &table);
    drop(table);
    located
}

impl FromSource for LocatedScopes {
    ghost use Rattle.source_tree.specs.Located.{IsLocated};

    ghost is_of = { IsLocated };

    fn from_source(alloc: Global, source: &Source) -> Result<LocatedScopes, TreeFault> {
        match scan(alloc, source.bytes.as_slice()) {
            Ok(tokens) => located_scopes_from_tokens(alloc, source, &tokens),
            Err(fault) => Err(locate_scan_fault(alloc, source, fault)),
        }
    }
}

/// For each import of the network that an import item of this file names, sets its location to the first such item. `items` has the
/// positions of the file's import items.
fn set_sites(
    net: &Net,
    file: usize,
    scopes: &Scopes,
    items: &[Position],
    sites: &mut Vec<ImportSite>,
)
    // `sites` has a location for each import of the network, and `items` a position for each import item of the file.
    requires size { vec_len sites.old ≡ length net.now.imports }
    requires as_many { length items.now ≡ length scopes.now.aliases }
    ensures size { vec_len sites.new ≡ vec_len sites.old }
    // Each import that an import item of this file names gets the location of the first such item; other locations are unchanged.
    ensures set { (k : ℕ) → k < length net.now.imports → IsSetFrom 0 net.now file scopes.now items.now (slice_index_or net.now.imports k missing_item) (slice_index_or sites.old.items k no_site) (slice_index_or sites.new.items k no_site) }
{
    net.invariants();
    let aliases = scopes.aliases();
    let count = aliases.len();
    // From the last item to the first: if several items name one module, the first item's position is set last and remains.
    for passed in 0..count {
        let item = count - 1 - passed;
        let imported = aliases[item].module.as_str();
        if let Some(import) = find_import_number(net, scopes.name(), imported) {
            sites[import] = ImportSite {
                file,
                position: items[item],
            };
        }
    }
}

/// The location of each import of the network, in the network's order. `scopes` and `items` have for each file its scopes and the positions
/// of its import items.
pub(crate) fn import_sites(
    alloc: Global,
    net: &Net,
    scopes: &[Scopes],
    items: &[Vec<Position>],
) -> Result<Vec<ImportSite>, AllocError>
    requires as_many { length items.now ≡ length scopes.now }
    // For each file there is a position for each of its import items.
    requires each { (f : ℕ) (s : ModuleScopes) (v : Vec ItemPosition StdGlobal) → slice_get scopes.now f ≡ Some s → slice_get items.now f ≡ Some v → length v.items ≡ length s.aliases }
    ensures size { IfOk result (λ v. length v.items ≡ length net.now.imports) }
    // With `Ok` each import has the location of the importer's first import item that names the imported module, if any file's item does.
    ensures found { IfOk result (λ v. (k : ℕ) → k < length net.now.imports → HasSite net.now scopes.now items.now (length scopes.now) (slice_index_or net.now.imports k missing_item) (slice_index_or v.items k no_site)) }
{
    let position = Position { line: 0, column: 0 };
    let none = ImportSite { file: 0, position };
    let mut sites = vec![in alloc; none; net.imports().len()]?;
    for file in 0..scopes.len() {
        let items = items[file].as_slice();
        set_sites(net, file, &scopes[file], items, &mut sites);
    }
    Ok(sites)
}
