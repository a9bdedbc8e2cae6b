//! Queries on the bytes of an index without a store: they walk the records, and build neither messages nor tables. The clause with `2 ^ 64`
//! of most functions: the offset in the index at which the message ends fits 64 bits.
ghost use Rattle.std.specs.Prelude.{◌≡◌, ◌<◌, ◌+◌, ◌^◌, ◌++◌, ◌||◌, [], true, IfOk, IfSome, None, OnOk, fold, length, map, option_map, if◌then◌else◌};
ghost use Rattle.std.specs.Str.{IsUtf8, bytes_eq};
ghost use Rattle.std.specs.Option.{option_to_list};
ghost use Rattle.std.specs.List.{flat_map};
ghost use Rattle.proto_wire.specs.MessageBytes.{records_of};
ghost use Rattle.proto_wire.specs.Messages.{bytes_in, field_values, latest};
ghost use Rattle.scip_index.specs.Meaning.{document_of, occurrence_of, Means};
ghost use Rattle.scip_index.specs.Plain.{IndexModel};
ghost use Rattle.index_store.specs.TableLookup.{nearer_if_covering, locations_by_role};
ghost use Rattle.index_store.specs.Direct.{covering_of, documents_of, has_document, is_match, nearest_at, nearest_of, pair_span, location_of_symbol, locations_in_document, symbol_span_model, HaveTextPaths, IsSymbolLookup};
ghost use Rattle.index_store.specs.Queries.{map_ok, definitions, is_definition, is_local, location_model, references};
ghost use Rattle.index_store.specs.Spans.{span_of};

use crate::span::{Span, is_in_span, is_nearer, span_of};
use crate::{Place, Position, StoreFault};
use proto_wire::{
    MessageBytes, WireValue, last_bytes, last_bytes_and_number, last_bytes_and_numbers,
    last_number, next_compact_record, next_message, next_message_and_last_bytes,
    read_field_numbers,
};
use std::alloc::{AllocError, Global};

/// A span with its symbol string.
#[derive(Clone, Copy)]
pub(crate) struct SymbolSpan<'a> {
    pub(crate) span: Span,
    pub(crate) symbol: &'a [u8],
}

/// The span of an occurrence, or `None` if its range denotes none. `numbers` is scratch space for the numbers of the range.
fn occurrence_span(
    occurrence: MessageBytes<'_>,
    numbers: &mut Vec<i32>,
) -> Result<Option<Span>, AllocError>
    requires { occurrence.start + length occurrence.bytes.now < 2 ^ 64 }
    // With `Ok` the result is the span that the range of the occurrence denotes, if it denotes one.
    ensures { IfOk result (λ s. s ≡ span_of (occurrence_of (records_of occurrence.entry)).range) }
{
    read_field_numbers(1, occurrence, numbers)?;
    Ok(span_of(numbers.as_slice()))
}

/// The span and the symbol string of an occurrence, or `None` if its range denotes no span or its symbol is empty. `numbers` is scratch
/// space for the numbers of the range.
pub(crate) fn occurrence_symbol_span<'a>(
    occurrence: MessageBytes<'a>,
    numbers: &mut Vec<i32>,
) -> Result<Option<SymbolSpan<'a>>, AllocError>
    requires { occurrence.start + length occurrence.bytes.now < 2 ^ 64 }
    // With `Ok` the result is the span with the symbol by which the occurrence covers positions, or `None` if it covers none.
    ensures { IfOk result (λ n. option_to_list (option_map symbol_span_model n) ≡ covering_of (occurrence_of (records_of occurrence.entry))) }
{
    let symbol = last_bytes_and_numbers(2, 1, occurrence, numbers)?;
    if symbol.is_empty() {
        return Ok(None);
    }
    match span_of(numbers.as_slice()) {
        None => Ok(None),
        Some(span) => Ok(Some(SymbolSpan { span, symbol })),
    }
}

/// `row` if it covers the position, and `best` is `None` or less near than `row`; otherwise `best`.
fn nearer_of_two<'a>(
    at: Position,
    best: Option<SymbolSpan<'a>>,
    row: SymbolSpan<'a>,
) -> Option<SymbolSpan<'a>>
    ensures { option_map symbol_span_model result ≡ nearer_if_covering pair_span at (option_map symbol_span_model best.entry) (symbol_span_model row.entry) }
{
    if !is_in_span(at, row.span) {
        return best;
    }
    match best {
        Some(other) if !is_nearer(row.span, other.span) => Some(other),
        _ => Some(row),
    }
}

/// Finds in one pass the nearest covering occurrence among `best` and the occurrences of a document, and the path of the document.
/// `numbers` is scratch space.
fn find_nearest_and_path<'a>(
    document: MessageBytes<'a>,
    at: Position,
    best: Option<SymbolSpan<'a>>,
    numbers: &mut Vec<i32>,
) -> Result<(Option<SymbolSpan<'a>>, &'a [u8]), AllocError>
    requires { document.start + length document.bytes.now < 2 ^ 64 }
    // With `Ok` the first value is the nearest of `best` and those occurrences of the document that cover the position.
    ensures nearest { IfOk result (λ x. option_map symbol_span_model x.0 ≡ nearest_of at (option_map symbol_span_model best.entry) (document_of (records_of document.entry)).occurrences) }
    // With `Ok` the second value is the last path in the document, which is the one that counts.
    ensures path { IfOk result (λ x. latest [] (field_values 1 bytes_in (records_of document.entry)) ≡ x.1.now) }
{
    let mut rest = document;
    let mut best = best;
    let mut path: &[u8] = &[];
    loop {
        let (occurrence, last) = next_message_and_last_bytes(2, 1, path, &mut rest);
        path = last;
        let Some(occurrence) = occurrence else {
            return Ok((best, path));
        };
        if let Some(row) = occurrence_symbol_span(occurrence, numbers)? {
            best = nearer_of_two(at, best, row);
        }
    }
}

/// Whether the string field with this number is `text`. If the message has several records of the field, the last one counts; without a
/// record the field is empty.
fn has_string_field(field: u32, message: MessageBytes<'_>, text: &[u8]) -> bool
    requires { message.start + length message.bytes.now < 2 ^ 64 }
    ensures { result ≡ bytes_eq (latest [] (field_values field bytes_in (records_of message.entry))) text.now }
{
    last_bytes(field, message) == text
}

/// Whether a document of the index has this path.
pub(crate) fn has_document(index: MessageBytes<'_>, path: &[u8]) -> bool
    requires { index.start + length index.bytes.now < 2 ^ 64 }
    // The result is whether one of the documents that the bytes encode has the path.
    ensures { result ≡ has_document path.now (documents_of index.entry) }
{
    let mut rest = index;
    while let Some(document) = next_message(2, &mut rest) {
        if has_string_field(1, document, path) {
            return true;
        }
    }
    false
}

/// The state of a search: whether a document has the requested path, and the nearest covering occurrence in the documents that have it.
#[derive(Clone, Copy)]
struct Search<'a> {
    has_path: bool,
    best: Option<SymbolSpan<'a>>,
}

/// The payload of a document's first record, if that record is of the path's field and its length takes one byte, as most producers write
/// it.
/// It is a guess: the document's path is the payload of the last record of that field, which `last_bytes` finds.
fn first_path<'a>(document: MessageBytes<'a>) -> Option<&'a [u8]>
    requires { document.start + length document.bytes.now < 2 ^ 64 }
{
    let mut rest = document;
    match next_compact_record(&mut rest) {
        Some((wire, text)) if wire.field == 1 => Some(text),
        _ => None,
    }
}

/// Whether `first_path` returns this path for a document.
fn has_first_path(document: MessageBytes<'_>, path: &[u8]) -> bool
    requires { document.start + length document.bytes.now < 2 ^ 64 }
{
    match first_path(document) {
        Some(first) => first == path,
        None => false,
    }
}

/// Extends the search `found` by one document, whose occurrences count if it has the requested path. A document that begins with this path
/// is walked once, which also finds its last path. The last path of a document is the one that counts.
fn search_document<'a>(
    document: MessageBytes<'a>,
    path: &[u8],
    at: Position,
    found: Search<'a>,
    numbers: &mut Vec<i32>,
) -> Result<Search<'a>, AllocError>
    requires { document.start + length document.bytes.now < 2 ^ 64 }
    // With `Ok` the flag is set if it was set or the document has the path.
    ensures has { IfOk result (λ s. s.has_path ≡ (found.entry.has_path || bytes_eq (document_of (records_of document.entry)).relative_path path.now)) }
    // With `Ok` the occurrence is the nearest of the one found before and of those of the document, if the document has the path.
    ensures nearest { IfOk result (λ s. option_map symbol_span_model s.best ≡ nearest_at path.now at (option_map symbol_span_model found.entry.best) (document_of (records_of document.entry))) }
{
    if !has_first_path(document, path) && !has_string_field(1, document, path) {
        return Ok(found);
    }
    let (best, last) = find_nearest_and_path(document, at, found.best, numbers)?;
    if last != path {
        return Ok(found);
    }
    Ok(Search {
        has_path: true,
        best,
    })
}

/// Searches the documents that have the path for the nearest occurrence that covers the position.
fn search_documents<'a>(
    alloc: Global,
    index: MessageBytes<'a>,
    path: &str,
    at: Position,
) -> Result<Search<'a>, AllocError>
    requires { index.start + length index.bytes.now < 2 ^ 64 }
    // With `Ok` the flag is whether a document of the index has the path.
    ensures has { IfOk result (λ s. s.has_path ≡ has_document path.now (documents_of index.entry)) }
    // With `Ok` the occurrence is the nearest covering one in all documents that have the path, or none.
    ensures nearest { IfOk result (λ s. option_map symbol_span_model s.best ≡ fold (nearest_at path.now at) None (documents_of index.entry)) }
{
    let mut rest = index;
    let mut numbers = Vec::new(alloc);
    let mut found = Search {
        has_path: false,
        best: None,
    };
    while let Some(document) = next_message(2, &mut rest) {
        found = search_document(document, path.as_bytes(), at, found, &mut numbers)?;
    }
    Ok(found)
}

/// The symbol string of the nearest occurrence that covers a position of a document, in bytes that encode an index. `None` if no occurrence
/// covers the position.
/// `Store::symbol_at` returns the same symbol for a store of that index; `scip_index::check` checks whether bytes encode an index.
/// The nearest covering occurrence is the one that starts last, then ends first, then comes first. The line and column of `at` are
/// zero-based.
/// Fails with `NoDocument` if no document has the path, and with `Memory` if an allocation fails.
pub fn symbol_in_bytes<'a>(
    alloc: Global,
    bytes: &'a [u8],
    path: &str,
    at: Position,
) -> Result<Option<&'a [u8]>, StoreFault>
    // The bytes encode an index.
    requires means { (index : IndexModel) × Means bytes.now index }
    // With `Ok` a document has the path, and the result is the symbol of the nearest occurrence that covers the position, or none if none
    // covers it. With `NoDocument` no document has the path.
    ensures exact { (index : IndexModel) → Means bytes.now index → IsSymbolLookup index path.now at (map_ok (option_map (λ symbol. symbol.now)) result) }
{
    let found = search_documents(alloc, MessageBytes { start: 0, bytes }, path, at)?;
    if !found.has_path {
        return Err(StoreFault::NoDocument);
    }
    match found.best {
        None => Ok(None),
        Some(symbol_span) => Ok(Some(symbol_span.symbol)),
    }
}

/// A lookup of a symbol's definitions if `defines` is true, and of its references if not.
#[derive(Clone, Copy)]
struct Lookup<'s> {
    symbol: &'s [u8],
    defines: bool,
    /// Whether only documents with the path `path` count, since the symbol is local.
    local: bool,
    path: &'s [u8],
}

/// Whether the symbol string begins with `local `, so that the symbol belongs to one document.
pub(crate) fn is_local(symbol: &[u8]) -> bool
    ensures { result ≡ is_local symbol.now }
{
    symbol.starts_with(b"local ")
}

/// Whether an occurrence has the definition role, the lowest bit of `symbol_roles`.
fn is_definition(occurrence: MessageBytes<'_>) -> bool
    requires { occurrence.start + length occurrence.bytes.now < 2 ^ 64 }
    ensures { result ≡ is_definition (occurrence_of (records_of occurrence.entry)) }
{
    last_number(3, occurrence).cast_unsigned() % 2 == 1
}

/// If an occurrence has this many records after its range and its symbol, or more, `compact_symbol` doesn't read it.
const MAX_EXTRA: usize = 4;

/// Whether the rest of an occurrence is fewer than `MAX_EXTRA` records, each with a key and a number or length of one byte, and none a
/// symbol. With `false` the rest may still have no symbol.
fn has_no_symbol_record(left: MessageBytes<'_>) -> bool
    requires { left.start + length left.bytes.now < 2 ^ 64 }
    // With true the rest has no record of field 2, the symbol.
    ensures { result ≡ true → field_values 2 bytes_in (records_of left.entry) ≡ [] }
{
    let mut rest = left;
    for _ in 0..MAX_EXTRA {
        if rest.bytes.is_empty() {
            return true;
        }
        match next_compact_record(&mut rest) {
            Some((wire, _)) if wire.field != 2 => {}
            _ => return false,
        }
    }
    false
}

/// The symbol string of an occurrence that is a range, a symbol and fewer than `MAX_EXTRA` other records, each with a key and a number or
/// length of one byte. Most producers write occurrences in this form. For any other occurrence the result is `None`.
#[inline(always)]
fn compact_symbol<'a>(occurrence: MessageBytes<'a>) -> Option<&'a [u8]>
    requires { occurrence.start + length occurrence.bytes.now < 2 ^ 64 }
    // With `Some` the result is the symbol of the occurrence: the value of its last record of field 2.
    ensures { IfSome result (λ symbol. latest [] (field_values 2 bytes_in (records_of occurrence.entry)) ≡ symbol.now) }
{
    let mut rest = occurrence;
    let (range, _) = next_compact_record(&mut rest)?;
    let (symbol, text) = next_compact_record(&mut rest)?;
    match symbol.value {
        WireValue::Bytes(_)
            if range.field == 1 && symbol.field == 2 && has_no_symbol_record(rest) => { Some(text) }
        _ => None,
    }
}

/// Whether an occurrence has the requested symbol and role. Works for every form of the occurrence's records.
fn matches_lookup_in_any_form(occurrence: MessageBytes<'_>, lookup: Lookup<'_>) -> bool
    requires { occurrence.start + length occurrence.bytes.now < 2 ^ 64 }
    // The result is whether the occurrence has the symbol of the lookup, and has the definition role if and only if `defines` is true.
    ensures { result ≡ is_match lookup.entry.defines lookup.entry.symbol.now (occurrence_of (records_of occurrence.entry)) }
{
    let (symbol, roles) = last_bytes_and_number(2, 3, occurrence);
    symbol == lookup.symbol && (roles.cast_unsigned() % 2 == 1) == lookup.defines
}

/// Whether an occurrence has the requested symbol and role. For most occurrences `compact_symbol` is faster than the general search.
fn matches_lookup(occurrence: MessageBytes<'_>, lookup: Lookup<'_>) -> bool
    requires { occurrence.start + length occurrence.bytes.now < 2 ^ 64 }
    // The result is whether the occurrence has the symbol of the lookup, and has the definition role if and only if `defines` is true.
    ensures { result ≡ is_match lookup.entry.defines lookup.entry.symbol.now (occurrence_of (records_of occurrence.entry)) }
{
    match compact_symbol(occurrence) {
        Some(symbol) => symbol == lookup.symbol && is_definition(occurrence) == lookup.defines,
        None => matches_lookup_in_any_form(occurrence, lookup),
    }
}

/// Appends the location of an occurrence in a document with this path, if the occurrence matches the lookup and its range denotes a span.
fn append_matching_location<'a>(
    occurrence: MessageBytes<'_>,
    path: &'a str,
    lookup: Lookup<'_>,
    numbers: &mut Vec<i32>,
    locations: &mut Vec<Place<'a>>,
) -> Result<(), AllocError>
    requires { occurrence.start + length occurrence.bytes.now < 2 ^ 64 }
    // With `Ok` the locations have grown by that of the occurrence if it matches and has a span, otherwise by none.
    ensures { OnOk result (map location_model locations.new.items ≡ map location_model locations.old.items ++ location_of_symbol lookup.entry.defines lookup.entry.symbol.now path.now (occurrence_of (records_of occurrence.entry))) }
{
    if matches_lookup(occurrence, lookup) {
        if let Some(span) = occurrence_span(occurrence, numbers)? {
            locations.push(Place {
                path,
                start: span.start,
                end: span.end,
            })?;
        }
    }
    Ok(())
}

/// Appends the locations of the occurrences of a document that match the lookup, and returns the document's path, in one pass. In the
/// locations the document has the given `path`.
fn append_matching_locations<'a, 'd>(
    document: MessageBytes<'d>,
    path: &'a str,
    lookup: Lookup<'_>,
    numbers: &mut Vec<i32>,
    locations: &mut Vec<Place<'a>>,
) -> Result<&'d [u8], AllocError>
    requires { document.start + length document.bytes.now < 2 ^ 64 }
    // With `Ok` the locations have grown by those of the matching occurrences, with the given path.
    ensures added { OnOk result (map location_model locations.new.items ≡ map location_model locations.old.items ++ flat_map (location_of_symbol lookup.entry.defines lookup.entry.symbol.now path.now) (document_of (records_of document.entry)).occurrences) }
    // With `Ok` the result is the last path in the document, which is the one that counts.
    ensures path { IfOk result (λ last. latest [] (field_values 1 bytes_in (records_of document.entry)) ≡ last.now) }
{
    let mut rest = document;
    let mut last: &[u8] = &[];
    loop {
        let (occurrence, passed) = next_message_and_last_bytes(2, 1, last, &mut rest);
        last = passed;
        let Some(occurrence) = occurrence else {
            return Ok(last);
        };
        append_matching_location(occurrence, path, lookup, numbers, locations)?;
    }
}

/// Appends the locations of a document's occurrences that match the lookup, if one pass suffices, and returns whether it did.
/// One pass suffices if the path that the document begins with is short, is UTF-8 and is also the document's last path. For a local symbol
/// that path also has to be the requested one.
/// If it returns `false`, nothing is appended. After an error some locations may be appended.
fn append_locations_in_one_pass<'a>(
    document: MessageBytes<'a>,
    lookup: Lookup<'_>,
    numbers: &mut Vec<i32>,
    locations: &mut Vec<Place<'a>>,
) -> Result<bool, AllocError>
    requires { document.start + length document.bytes.now < 2 ^ 64 }
    // With `Ok(true)` the locations have grown by those of the document's matching occurrences, with `Ok(false)` by none.
    ensures { IfOk result (λ is_added. map location_model locations.new.items ≡ map location_model locations.old.items ++ (if is_added then locations_in_document lookup.entry.defines lookup.entry.local lookup.entry.path.now lookup.entry.symbol.now (document_of (records_of document.entry)) else [])) }
{
    let Some(first) = first_path(document) else {
        return Ok(false);
    };
    if lookup.local && first != lookup.path {
        return Ok(false);
    }
    let Ok(path) = std::str::from_utf8(first) else {
        return Ok(false);
    };
    let before = locations.len();
    let last = append_matching_locations(document, path, lookup, numbers, locations)?;
    if last != first {
        locations.truncate(before);
        return Ok(false);
    }
    Ok(true)
}

/// Appends the locations of those occurrences of a document that match the lookup. Makes a second pass only if
/// `append_locations_in_one_pass` returns `false`.
fn append_document_locations<'a>(
    document: MessageBytes<'a>,
    lookup: Lookup<'_>,
    numbers: &mut Vec<i32>,
    locations: &mut Vec<Place<'a>>,
) -> Result<(), AllocError>
    requires { document.start + length document.bytes.now < 2 ^ 64 }
    // With `Ok`, if the document's path is UTF-8, the added locations are exactly those of its matching occurrences, with that path. For a
    // lookup with `local` and another path none is added.
    ensures { IsUtf8 (document_of (records_of document.entry)).relative_path → OnOk result (map location_model locations.new.items ≡ map location_model locations.old.items ++ locations_in_document lookup.entry.defines lookup.entry.local lookup.entry.path.now lookup.entry.symbol.now (document_of (records_of document.entry))) }
{
    if append_locations_in_one_pass(document, lookup, numbers, locations)? {
        return Ok(());
    }
    let path = last_bytes(1, document);
    if lookup.local && path != lookup.path {
        return Ok(());
    }
    if let Ok(path) = std::str::from_utf8(path) {
        append_matching_locations(document, path, lookup, numbers, locations)?;
    }
    Ok(())
}

/// The locations of the occurrences of an index that match the lookup, in the index's order.
fn matching_locations<'a>(
    alloc: Global,
    index: MessageBytes<'a>,
    lookup: Lookup<'_>,
) -> Result<Vec<Place<'a>>, AllocError>
    requires { index.start + length index.bytes.now < 2 ^ 64 }
    // With `Ok`, if the path of each document is UTF-8, the locations are exactly those of the matching occurrences of all documents, or
    // for a lookup with `local` of the documents with its path.
    ensures { HaveTextPaths (documents_of index.entry) → IfOk result (λ locations. map location_model locations.items ≡ flat_map (locations_in_document lookup.entry.defines lookup.entry.local lookup.entry.path.now lookup.entry.symbol.now) (documents_of index.entry)) }
{
    let mut rest = index;
    let mut numbers = Vec::new(alloc);
    let mut locations = Vec::new(alloc);
    while let Some(document) = next_message(2, &mut rest) {
        append_document_locations(document, lookup, &mut numbers, &mut locations)?;
    }
    Ok(locations)
}

/// The locations of a symbol's definitions if `defines` is true, and of its references if not, in bytes that encode an index.
fn locations_in_bytes<'a>(
    alloc: Global,
    bytes: &'a [u8],
    path: &str,
    symbol: &[u8],
    defines: bool,
) -> Result<Vec<Place<'a>>, AllocError>
    // With `Ok` the locations are exactly those in the index that the bytes encode, in its order.
    ensures { (index : IndexModel) → Means bytes.now index → IfOk result (λ locations. map location_model locations.items ≡ locations_by_role defines index path.now symbol.now) }
{
    let lookup = Lookup {
        symbol,
        defines,
        local: is_local(symbol),
        path: path.as_bytes(),
    };
    matching_locations(alloc, MessageBytes { start: 0, bytes }, lookup)
}

/// The locations where a symbol is defined, in the index's order, in bytes that encode an index. `Store::definitions` returns the same
/// locations if a document has the path; `scip_index::check` checks whether bytes encode an index.
/// A symbol whose string begins with `local ` is looked up in the documents of the path alone, and any other symbol in all documents. If no
/// document has the path, there is no error, and a local symbol has no location.
/// Fails with `AllocError` if an allocation fails.
pub fn definitions_in_bytes<'a>(
    alloc: Global,
    bytes: &'a [u8],
    path: &str,
    symbol: &[u8],
) -> Result<Vec<Place<'a>>, AllocError>
    // The bytes encode an index.
    requires means { (index : IndexModel) × Means bytes.now index }
    // With `Ok` the locations are exactly those of the symbol's definitions in the index that the bytes encode, in its order.
    ensures { (index : IndexModel) → Means bytes.now index → IfOk result (λ locations. map location_model locations.items ≡ definitions index path.now symbol.now) }
{
    locations_in_bytes(alloc, bytes, path, symbol, true)
}

/// The locations where a symbol is used and not defined, in the index's order, in bytes that encode an index. `Store::references` returns
/// the same locations if a document has the path; `scip_index::check` checks whether bytes encode an index.
/// A symbol whose string begins with `local ` is looked up in the documents of the path alone, and any other symbol in all documents. If no
/// document has the path, there is no error, and a local symbol has no location.
/// Fails with `AllocError` if an allocation fails.
pub fn references_in_bytes<'a>(
    alloc: Global,
    bytes: &'a [u8],
    path: &str,
    symbol: &[u8],
) -> Result<Vec<Place<'a>>, AllocError>
    // The bytes encode an index.
    requires means { (index : IndexModel) × Means bytes.now index }
    // With `Ok` the locations are exactly those of the symbol's references in the index that the bytes encode, in its order.
    ensures { (index : IndexModel) → Means bytes.now index → IfOk result (λ locations. map location_model locations.items ≡ references index path.now symbol.now) }
{
    locations_in_bytes(alloc, bytes, path, symbol, false)
}
