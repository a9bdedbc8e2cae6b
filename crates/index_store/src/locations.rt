//! The locations where a symbol is defined or used, found in the entries of a store.
ghost use Rattle.std.specs.Prelude.{◌≡◌, ◌<◌, All, IfOk, length, map};
ghost use Rattle.std.specs.List.{flat_map};
ghost use Rattle.index_store.specs.TableLookup.{is_requested, requested_location};
ghost use Rattle.index_store.specs.Queries.{is_local, location_model};
ghost use Rattle.index_store.specs.Stores.{mention_model};
ghost use Rattle.index_store.specs.Tables.{text_at, texts_in};

use crate::Place;
use crate::row::{PathEntry, SymbolEntry};
use crate::table::StringTable;
use std::alloc::{AllocError, Global};

/// A lookup of a symbol's definitions if `defines` is true, and of its references if not.
#[derive(Clone, Copy)]
pub(crate) struct TableLookup<'a> {
    pub(crate) defines: bool,
    /// Whether only documents with the path `path` count, since the symbol is local.
    pub(crate) local: bool,
    pub(crate) path: &'a str,
}

/// Whether the symbol string begins with `local `, so that the symbol belongs to one document.
pub(crate) fn is_local(symbol: &str) -> bool
    ensures { result ≡ is_local symbol.now }
{
    symbol.as_bytes().starts_with(b"local ")
}

/// Whether the entry has the requested role and, for a local symbol, the requested path.
fn is_requested(
    requested: TableLookup,
    paths: &StringTable<PathEntry>,
    mention: SymbolEntry,
) -> bool
    // The path of the entry is the index of a path in the table.
    requires in_range { mention.path < length (texts_in paths.now) }
    ensures { result ≡ is_requested requested.entry.defines requested.entry.local requested.entry.path.now (mention_model (texts_in paths.now) mention) }
{
    mention.defines == requested.defines
        && (!requested.local || paths.text(mention.path) == requested.path)
}

/// The location of an entry: the path of its document, and its span.
fn location_of<'a>(paths: &'a StringTable<PathEntry>, mention: SymbolEntry) -> Place<'a>
    // The path of the entry is the index of a path in the table.
    requires in_range { mention.path < length (texts_in paths.now) }
    // The location has the path at the index in the entry.
    ensures path { (location_model result).path ≡ text_at (texts_in paths.now) mention.path }
    // The location has the span of the entry.
    ensures span { (location_model result).span ≡ mention.span }
{
    Place {
        path: paths.text(mention.path),
        start: mention.span.start,
        end: mention.span.end,
    }
}

/// The locations of those entries in `mentions` that match the lookup `requested`, in the order of `mentions`.
pub(crate) fn requested_locations<'a>(
    alloc: Global,
    requested: TableLookup<'_>,
    paths: &'a StringTable<PathEntry>,
    mentions: &[SymbolEntry],
) -> Result<Vec<Place<'a>>, AllocError>
    // The path of each entry is the index of a path in the table.
    requires in_range { All (λ m. m.path < length (texts_in paths.now)) mentions.now }
    // With `Ok` the locations are exactly those of the matching entries, in their order.
    ensures { IfOk result (λ locations. map location_model locations.items ≡ flat_map (requested_location requested.entry.defines requested.entry.local requested.entry.path.now) (map (mention_model (texts_in paths.now)) mentions.now)) }
{
    let mut locations = Vec::new(alloc);
    for mention in mentions {
        if is_requested(requested, paths, *mention) {
            locations.push(location_of(paths, *mention))?;
        }
    }
    Ok(locations)
}
