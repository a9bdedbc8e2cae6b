//! Queries on the bytes of an index, with their results written as lines.
ghost use Rattle.std.specs.Prelude.{◌≡◌, ◌↔◌, ◌++◌, codes, map, option_copied, true, IfErr, IfOk, OnOk};
ghost use Rattle.std.specs.String.{string_bytes};
ghost use Rattle.std.specs.Str.{IsUtf8};
ghost use Rattle.byte_sink.specs.Sinks.{failures_by};
ghost use Rattle.scip_index.specs.Meaning.{Means};
ghost use Rattle.scip_index.specs.Plain.{IndexModel};
ghost use Rattle.texts.specs.Escapes.{escaped};
ghost use Rattle.texts.specs.Places.{style_of};
ghost use Rattle.index_store.specs.declared.query_fault.QueryFault.TheVariants.{NoDocument};
ghost use Rattle.index_store.specs.Queries.{location_model, HasPath};
ghost use Rattle.index_store.specs.QueryRuns.{requested_locations, IsQueryRun, IsRejectedIndex};
ghost use Rattle.index_store.specs.Faults.{is_device};
ghost use Rattle.index_store.specs.OutputRuns.{locations_by_symbol, HasRequestedPath, IsNamedRun, IsSymbolRun, IsSymbolsRun};

use crate::byte_queries::{has_document, is_local};
use crate::lines::write_lines;
use crate::symbols::write_definitions;
use crate::{
    Place, Position, QueryFault, definitions_in_bytes, references_in_bytes, symbol_in_bytes,
};
use byte_sink::{Sink, write_fully};
use proto_wire::MessageBytes;
use scip_index::check;
use std::alloc::{AllocError, Global};
use texts::{LocationStyle, escaped};

/// Which occurrences of a symbol a query returns.
#[derive(Clone, Copy, Debug, PartialEq, Eq)]
pub enum Which {
    /// Occurrences that have the definition role.
    Definitions,
    /// Occurrences that don't have the definition role.
    References,
}

/// Fails with the first fault of the bytes if they don't encode an index, or with `Memory`.
fn check_index(alloc: Global, bytes: &[u8]) -> Result<(), QueryFault>
    // With `Ok` the bytes encode an index.
    ensures means { OnOk result ((index : IndexModel) × Means bytes.now index) }
    // The error is the first fault of the bytes, or `Memory`.
    ensures fault { IfErr result (IsRejectedIndex bytes.now) }
{
    check(alloc, bytes)?;
    Ok(())
}

/// The locations of a symbol's definitions or references, as `which` states, in bytes that encode an index.
fn locations_with_role<'a>(
    alloc: Global,
    bytes: &'a [u8],
    path: &str,
    symbol: &[u8],
    which: Which,
) -> Result<Vec<Place<'a>>, AllocError>
    // The bytes encode an index.
    requires means { (index : IndexModel) × Means bytes.now index }
    // With `Ok` the locations are exactly those in the index that the bytes encode, in its order.
    ensures exact { (index : IndexModel) → Means bytes.now index → IfOk result (λ locations. map location_model locations.items ≡ requested_locations which index path.now symbol.now) }
{
    match which {
        Which::Definitions => definitions_in_bytes(alloc, bytes, path, symbol),
        Which::References => references_in_bytes(alloc, bytes, path, symbol),
    }
}

/// Writes the lines of the definitions or references of the symbol at a position, in bytes that encode an index.
fn write_locations_at_position<S: Sink>(
    alloc: Global,
    bytes: &[u8],
    path: &str,
    at: Position,
    which: Which,
    style: LocationStyle<'_>,
    sink: &mut S,
) -> Result<(), QueryFault>
    // The bytes encode an index.
    requires means { (index : IndexModel) × Means bytes.now index }
    // This is the run of `query` for bytes that are already checked.
    ensures run { (index : IndexModel) → Means bytes.now index → IsQueryRun (style_of style.entry) bytes.now path.now at which (S.taken sink.old) (S.taken sink.new) result }
    // The sink counts a failure if and only if the result is `Device`.
    ensures failures { S.failures sink.new ≡ failures_by is_device result (S.failures sink.old) }
{
    let Some(symbol) = symbol_in_bytes(alloc, bytes, path, at)? else {
        return Ok(());
    };
    let locations = locations_with_role(alloc, bytes, path, symbol, which)?;
    write_lines(alloc, style, locations.as_slice(), sink)?;
    Ok(())
}

/// Checks the bytes of an index and writes a line `PATH:LINE:COL-LINE:COL` in this style for each definition, or for each reference, of the
/// symbol at a position of a document.
/// The lines are in the index's order. The line and column of `at` are zero-based in each style.
/// The symbol is that of the covering occurrence that starts last, then ends first, then comes first. If none covers the position, nothing
/// is written.
/// A symbol whose string begins with `local ` is looked up in the documents of the path alone.
/// Fails with the first fault of the bytes, then with `NoDocument` if no document has the path, with `Device` if the sink fails, and with
/// `Memory` if an allocation fails.
pub fn query<S: Sink>(
    alloc: Global,
    index: &[u8],
    path: &str,
    at: Position,
    which: Which,
    style: LocationStyle<'_>,
    sink: &mut S,
) -> Result<(), QueryFault>
    // With `Ok` the sink took exactly the lines of the definitions, or references, of the symbol at the position. After `Device` or
    // `Memory` it has at most a prefix of the lines, after another error nothing.
    // The other errors are the first fault of the bytes, and `NoDocument` if the bytes encode an index in which no document has the path.
    ensures run { IsQueryRun (style_of style.entry) index.now path.now at which (S.taken sink.old) (S.taken sink.new) result }
    // The sink counts a failure if and only if the result is `Device`.
    ensures failures { S.failures sink.new ≡ failures_by is_device result (S.failures sink.old) }
{
    check_index(alloc, index)?;
    write_locations_at_position(alloc, index, path, at, which, style, sink)
}

/// Whether a document of the index that the bytes encode has the path.
fn has_path(bytes: &[u8], path: &str) -> bool
    // The bytes encode an index.
    requires means { (index : IndexModel) × Means bytes.now index }
    // The result is true if and only if a document of the index has the path.
    ensures exact { (index : IndexModel) → Means bytes.now index → (result ≡ true) ↔ HasPath index path.now }
{
    has_document(MessageBytes { start: 0, bytes }, path.as_bytes())
}

/// Fails with `NoDocument` if a path is given and no document has it.
fn check_path(bytes: &[u8], path: Option<&str>) -> Result<(), QueryFault>
    // The bytes encode an index.
    requires means { (index : IndexModel) × Means bytes.now index }
    // With `Ok` no path is given, or a document of the index has it.
    ensures has { (index : IndexModel) → Means bytes.now index → OnOk result (HasRequestedPath index (option_copied path.entry)) }
    // With an error a path is given, and no document of the index has it.
    ensures lacks { (index : IndexModel) → Means bytes.now index → IfErr result (λ _. HasRequestedPath index (option_copied path.entry) → ⊥) }
    // The error is `NoDocument`.
    ensures error { IfErr result (λ fault. fault ≡ NoDocument) }
{
    match path {
        Some(path) if !has_path(bytes, path) => Err(QueryFault::NoDocument),
        _ => Ok(()),
    }
}

/// Writes a line for each definition that `list_symbols` lists, in bytes that encode an index.
fn write_definition_lines<S: Sink>(
    alloc: Global,
    bytes: &[u8],
    path: Option<&str>,
    style: LocationStyle<'_>,
    sink: &mut S,
) -> Result<(), QueryFault>
    // The bytes encode an index.
    requires means { (index : IndexModel) × Means bytes.now index }
    // This is the run of `list_symbols` for bytes that are already checked.
    ensures run { (index : IndexModel) → Means bytes.now index → IsSymbolsRun (style_of style.entry) bytes.now (option_copied path.entry) (S.taken sink.old) (S.taken sink.new) result }
    // The sink counts a failure if and only if the result is `Device`.
    ensures failures { S.failures sink.new ≡ failures_by is_device result (S.failures sink.old) }
{
    check_path(bytes, path)?;
    write_definitions(alloc, bytes, path, style, sink)?;
    Ok(())
}

/// Checks the bytes of an index and writes a line `PATH:LINE:COL-LINE:COL SYMBOL` in this style for each definition, in the index's order.
/// A definition is an occurrence with the definition role, a symbol, and a range that denotes a span.
/// Without a path, these are the definitions of all documents whose symbol string doesn't begin with `local `. With a path, these are all
/// definitions in the documents of that path. Control characters are escaped.
/// Fails with the first fault of the bytes, then with `NoDocument` if no document has the path, with `Device` if the sink fails, and with
/// `Memory` if an allocation fails.
pub fn list_symbols<S: Sink>(
    alloc: Global,
    index: &[u8],
    path: Option<&str>,
    style: LocationStyle<'_>,
    sink: &mut S,
) -> Result<(), QueryFault>
    // With `Ok` the sink took exactly the lines of the listed definitions of the index that the bytes encode. After `Device` or `Memory` it
    // has at most a prefix of the lines, after another error nothing.
    // The other errors are the first fault of the bytes, and `NoDocument` if the bytes encode an index in which no document has the given
    // path.
    ensures run { IsSymbolsRun (style_of style.entry) index.now (option_copied path.entry) (S.taken sink.old) (S.taken sink.new) result }
    // The sink counts a failure if and only if the result is `Device`.
    ensures failures { S.failures sink.new ≡ failures_by is_device result (S.failures sink.old) }
{
    check_index(alloc, index)?;
    write_definition_lines(alloc, index, path, style, sink)
}

/// The symbol string as a line, with its control characters escaped.
fn symbol_line(alloc: Global, symbol: &[u8]) -> Result<String, AllocError>
    // The symbol string is UTF-8.
    requires text { IsUtf8 symbol.now }
    ensures { IfOk result (λ line. string_bytes line ≡ escaped symbol.now ++ codes "\n") }
{
    let Ok(symbol) = std::str::from_utf8(symbol) else {
        unreachable!();
    };
    let mut line = escaped(alloc, symbol)?;
    line.push('\n')?;
    Ok(line)
}

/// Writes the string of the symbol at a position as a line, in bytes that encode an index. Writes nothing if no symbol is there.
fn write_symbol_at<S: Sink>(
    alloc: Global,
    bytes: &[u8],
    path: &str,
    at: Position,
    sink: &mut S,
) -> Result<(), QueryFault>
    // The bytes encode an index.
    requires means { (index : IndexModel) × Means bytes.now index }
    // This is the run of `write_symbol` for bytes that are already checked.
    ensures run { (index : IndexModel) → Means bytes.now index → IsSymbolRun bytes.now path.now at (S.taken sink.old) (S.taken sink.new) result }
    // The sink counts a failure if and only if the result is `Device`.
    ensures failures { S.failures sink.new ≡ failures_by is_device result (S.failures sink.old) }
{
    let Some(symbol) = symbol_in_bytes(alloc, bytes, path, at)? else {
        return Ok(());
    };
    let line = symbol_line(alloc, symbol)?;
    write_fully(sink, line.as_bytes())?;
    Ok(())
}

/// Checks the bytes of an index and writes the string of the symbol at a position of a document as one line, with its control characters
/// escaped.
/// The line and column of `at` are zero-based. The symbol is that of the covering occurrence that starts last, then ends first, then comes
/// first. If none covers the position, nothing is written.
/// Fails with the first fault of the bytes, then with `NoDocument` if no document has the path, with `Device` if the sink fails, and with
/// `Memory` if an allocation fails.
pub fn write_symbol<S: Sink>(
    alloc: Global,
    index: &[u8],
    path: &str,
    at: Position,
    sink: &mut S,
) -> Result<(), QueryFault>
    // With `Ok` the sink took exactly the line of the symbol at the position, or nothing if no symbol is there. After `Device` or `Memory`
    // it has at most a prefix of the line, after another error nothing.
    // The other errors are the first fault of the bytes, and `NoDocument` if the bytes encode an index in which no document has the path.
    ensures run { IsSymbolRun index.now path.now at (S.taken sink.old) (S.taken sink.new) result }
    // The sink counts a failure if and only if the result is `Device`.
    ensures failures { S.failures sink.new ≡ failures_by is_device result (S.failures sink.old) }
{
    check_index(alloc, index)?;
    write_symbol_at(alloc, index, path, at, sink)
}

/// The locations of the definitions or references of the symbol with this string, in bytes that encode an index. A local symbol is looked
/// up in the documents of the path alone; without a path it has no location.
fn locations_by_symbol<'a>(
    alloc: Global,
    bytes: &'a [u8],
    path: Option<&str>,
    symbol: &str,
    which: Which,
) -> Result<Vec<Place<'a>>, AllocError>
    // The bytes encode an index.
    requires means { (index : IndexModel) × Means bytes.now index }
    // With `Ok` the locations are exactly those in the index that the bytes encode, in its order.
    ensures exact { (index : IndexModel) → Means bytes.now index → IfOk result (λ locations. map location_model locations.items ≡ locations_by_symbol which index (option_copied path.entry) symbol.now) }
{
    match path {
        Some(path) => locations_with_role(alloc, bytes, path, symbol.as_bytes(), which),
        None if is_local(symbol.as_bytes()) => Ok(Vec::new(alloc)),
        None => locations_with_role(alloc, bytes, "", symbol.as_bytes(), which),
    }
}

/// Writes a line for each definition or reference of the symbol with this string, in bytes that encode an index.
fn write_symbol_locations<S: Sink>(
    alloc: Global,
    bytes: &[u8],
    path: Option<&str>,
    symbol: &str,
    which: Which,
    style: LocationStyle<'_>,
    sink: &mut S,
) -> Result<(), QueryFault>
    // The bytes encode an index.
    requires means { (index : IndexModel) × Means bytes.now index }
    // This is the run of `query_symbol` for bytes that are already checked.
    ensures run { (index : IndexModel) → Means bytes.now index → IsNamedRun (style_of style.entry) bytes.now (option_copied path.entry) symbol.now which (S.taken sink.old) (S.taken sink.new) result }
    // The sink counts a failure if and only if the result is `Device`.
    ensures failures { S.failures sink.new ≡ failures_by is_device result (S.failures sink.old) }
{
    check_path(bytes, path)?;
    let locations = locations_by_symbol(alloc, bytes, path, symbol, which)?;
    write_lines(alloc, style, locations.as_slice(), sink)?;
    Ok(())
}

/// Checks the bytes of an index and writes a line `PATH:LINE:COL-LINE:COL` in this style for each definition, or for each reference, of the
/// symbol with this string.
/// The lines are in the index's order. As the symbol is given by its string, it may come from another index.
/// A symbol whose string begins with `local ` is looked up in the documents of the path alone, and without a path nowhere. For any other
/// symbol all documents are searched, and a given path only has to be that of a document.
/// Fails with the first fault of the bytes, then with `NoDocument` if no document has the path, with `Device` if the sink fails, and with
/// `Memory` if an allocation fails.
pub fn query_symbol<S: Sink>(
    alloc: Global,
    index: &[u8],
    path: Option<&str>,
    symbol: &str,
    which: Which,
    style: LocationStyle<'_>,
    sink: &mut S,
) -> Result<(), QueryFault>
    // With `Ok` the sink took exactly the lines of the definitions, or references, of the symbol with this string. After `Device` or
    // `Memory` it has at most a prefix of the lines, after another error nothing.
    // The other errors are the first fault of the bytes, and `NoDocument` if the bytes encode an index in which no document has the given
    // path.
    ensures run { IsNamedRun (style_of style.entry) index.now (option_copied path.entry) symbol.now which (S.taken sink.old) (S.taken sink.new) result }
    // The sink counts a failure if and only if the result is `Device`.
    ensures failures { S.failures sink.new ≡ failures_by is_device result (S.failures sink.old) }
{
    check_index(alloc, index)?;
    write_symbol_locations(alloc, index, path, symbol, which, style, sink)
}
