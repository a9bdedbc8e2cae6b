//! Computes the scopes of the module in one file of a tree, or the error of the file.
ghost use Rattle.std.specs.Prelude.{◌≡◌, IfErr, IfOk, Ok};
ghost use Rattle.module_table.specs.Tables.{rows_in};
ghost use Rattle.table_rules.specs.Declaring.{rows_of};
ghost use Rattle.ob_grammar.specs.Parsed.{IsTheTree};
ghost use Rattle.ob_scan.specs.Spelling.{IsOutcome};
ghost use Rattle.ob_tree.specs.declared.declaration.Module.{Module};
ghost use Rattle.source_tree.specs.Trees.{parse_offset, scan_offset, scope_offset, HasParseFault, HasScanFault, HasScopeFault, IsFileFault};
ghost use Rattle.source_tree.specs.TreeReading.{HasScopes};

use crate::files::FromSource;
use crate::{Source, TreeFault};
use module_table::Table;
use ob_grammar::ParseFault;
use ob_scan::laws::tokens_in_text;
use ob_scan::{ScanFault, Tokens, position, scan};
use ob_scope::{ScopeFault, Scopes, scopes_from};
use std::alloc::Global;
use table_reader::read_table;
use table_rules::laws::tree_table_is_valid;

/// The byte offset of a scanner error; 0 for `TooLong` and `Memory`.
fn scan_offset(fault: ScanFault) -> u32
    ensures { result ≡ scan_offset fault }
{
    match fault {
        ScanFault::BadByte { offset }
        | ScanFault::BadNumber { offset }
        | ScanFault::OpenString { offset }
        | ScanFault::OpenComment { offset } => offset,
        ScanFault::TooLong | ScanFault::Memory => 0,
    }
}

/// The byte offset of a parser error; 0 for `Memory`.
fn parse_offset(fault: ParseFault) -> u32
    ensures { result ≡ parse_offset fault }
{
    match fault {
        ParseFault::Syntax { offset }
        | ParseFault::EndName { offset }
        | ParseFault::TooDeep { offset } => offset,
        ParseFault::Memory => 0,
    }
}

/// The byte offset of the second declaration of the name that is declared twice; 0 for `Memory`.
fn scope_offset(fault: &ScopeFault) -> u32
    ensures { result ≡ scope_offset fault.now }
{
    match fault {
        ScopeFault::Twice { second, .. } | ScopeFault::TwiceField { second, .. } => *second,
        ScopeFault::Memory => 0,
    }
}

/// The tree's error for a scanner error of a file: with the file's path, line and column; `Memory` if an allocation failed, before or here.
pub(crate) fn locate_scan_fault(alloc: Global, source: &Source, fault: ScanFault) -> TreeFault
    // The file has this error, or it is `Memory`.
    requires { HasScanFault fault source.now.bytes.items }
    // The result is the error of the file, or Memory.
    ensures { IsFileFault source.now result }
{
    if fault == ScanFault::Memory {
        return TreeFault::Memory;
    }
    let at = position(source.bytes.as_slice(), scan_offset(fault));
    match String::from_str(alloc, source.path.as_str()) {
        Ok(path) => TreeFault::Scan { path, at, fault },
        Err(_) => TreeFault::Memory,
    }
}

/// The tree's error for a parser error of a file: with the file's path, line and column; `Memory` if an allocation failed, before or here.
pub fn locate_parse_fault(alloc: Global, source: &Source, fault: ParseFault) -> TreeFault
    // The file has this error, or it is `Memory`.
    requires { HasParseFault fault source.now.bytes.items }
    // The result is the error of the file, or Memory if an allocation fails.
    ensures { IsFileFault source.now result }
{
    if fault == ParseFault::Memory {
        return TreeFault::Memory;
    }
    tokens_in_text();
    let at = position(source.bytes.as_slice(), parse_offset(fault));
    match String::from_str(alloc, source.path.as_str()) {
        Ok(path) => TreeFault::Parse { path, at, fault },
        Err(_) => TreeFault::Memory,
    }
}

/// The tree's error for a name that a file declares twice: with the file's path, and line and column of the second declaration; `Memory` if
/// an allocation failed, before or here.
pub(crate) fn locate_scope_fault(alloc: Global, source: &Source, fault: ScopeFault) -> TreeFault
    // The file has this error, or it is `Memory`.
    requires { HasScopeFault fault source.now.bytes.items }
    // The result is the error of the file, or Memory.
    ensures { IsFileFault source.now result }
{
    if fault == ScopeFault::Memory {
        return TreeFault::Memory;
    }
    tokens_in_text();
    let at = position(source.bytes.as_slice(), scope_offset(&fault));
    match String::from_str(alloc, source.path.as_str()) {
        Ok(path) => TreeFault::Scope { path, at, fault },
        Err(_) => TreeFault::Memory,
    }
}

/// The table of a file's module, from the file's tokens; or the error of its syntax.
pub(crate) fn table_from_tokens(
    alloc: Global,
    source: &Source,
    tokens: &Tokens,
) -> Result<Table, TreeFault>
    // The file has these tokens.
    requires { IsOutcome source.now.bytes.items (Ok tokens.now) }
    // With `Ok` the table is that of the one syntax tree of the file.
    ensures table { IfOk result (λ t. (m : Module) × IsTheTree source.now.bytes.items tokens.now m × (rows_in t ≡ rows_of m)) }
    // The file has this error, or an allocation failed.
    ensures fault { IfErr result (IsFileFault source.now) }
{
    match read_table(alloc, source.bytes.as_slice(), tokens) {
        Ok(table) => Ok(table),
        Err(fault) => Err(locate_parse_fault(alloc, source, fault)),
    }
}

/// The scopes of a file's module, given its tokens and table; or the error of its names.
pub(crate) fn scopes_from_table(
    alloc: Global,
    source: &Source,
    tokens: &Tokens,
    table: &Table,
) -> Result<Scopes, TreeFault>
    // The file has these tokens.
    requires spelled { IsOutcome source.now.bytes.items (Ok tokens.now) }
    // The table is that of the syntax tree of the file.
    requires parsed { (tree : Module) × IsTheTree source.now.bytes.items tokens.now tree × (rows_in table.now ≡ rows_of tree) }
    // The file is accepted, and the result has the scopes of its module.
    ensures scoped { IfOk result (HasScopes source.now) }
    // The file has this error, or an allocation failed.
    ensures fault { IfErr result (IsFileFault source.now) }
{
    tokens_in_text();
    tree_table_is_valid();
    match scopes_from(alloc, table, tokens.as_slice(), source.bytes.as_slice()) {
        Ok(scopes) => Ok(scopes),
        Err(fault) => Err(locate_scope_fault(alloc, source, fault)),
    }
}

/// The scopes of a file's module, given its tokens; or the error of its syntax or its names.
fn scopes_from_tokens(alloc: Global, source: &Source, tokens: &Tokens) -> Result<Scopes, TreeFault>
    // The file has these tokens.
    requires { IsOutcome source.now.bytes.items (Ok tokens.now) }
    // The file is accepted, and the result has the scopes of its module.
    ensures scoped { IfOk result (HasScopes source.now) }
    // The file has this error, or an allocation failed.
    ensures fault { IfErr result (IsFileFault source.now) }
{
    let table = table_from_tokens(alloc, source, tokens)?;
    let scopes = scopes_from_table(alloc, source, tokens, &table);
    drop(table);
    scopes
}

impl FromSource for Scopes {
    ghost use Rattle.source_tree.specs.TreeReading.{AreScopesOf};

    ghost is_of = { AreScopesOf };

    fn from_source(alloc: Global, source: &Source) -> Result<Scopes, TreeFault> {
        match scan(alloc, source.bytes.as_slice()) {
            Ok(tokens) => scopes_from_tokens(alloc, source, &tokens),
            Err(fault) => Err(locate_scan_fault(alloc, source, fault)),
        }
    }
}
