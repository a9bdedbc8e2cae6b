//! The store of an index, for many queries: the index's occurrences by path and by symbol.
ghost use Rattle.std.specs.Prelude.{◌≡◌, [], IfErr, IfOk, None, map, option_map};
ghost use Rattle.std.specs.List.{flat_map};
ghost use Rattle.proto_wire.specs.Faults.{UnlessMemory};
ghost use Rattle.proto_wire.specs.Messages.{IsFirstFault};
ghost use Rattle.scip_index.specs.Meaning.{index_fault};
ghost use Rattle.scip_index.specs.Streaming.{given};
ghost use Rattle.scip_index.specs.Plain.{document_model, index_model, IndexModel};
ghost use Rattle.index_store.specs.declared.fault.StoreFault.TheVariants.{Memory};
ghost use Rattle.index_store.specs.TableLookup.{requested_location, locations_by_role};
ghost use Rattle.index_store.specs.Queries.{map_ok, definitions, occurrences_in, is_local, location_model, references, AreLocationsResult, IsSymbolResult};
ghost use Rattle.index_store.specs.Stores.{mentions_under, paths_of, mention_model, IsStoreOf, IsStoreOfBytes, Keeps};

use crate::builder::StoreBuilder;
use crate::locations::{TableLookup, is_local, requested_locations};
use crate::nearest::nearest_entry;
use crate::row::{PathEntry, SymbolEntry};
use crate::table::StringTable;
use crate::{Place, Position, StoreFault};
use proto_wire::WireFault;
use scip_index::{Document, Index, IndexReader};
use std::alloc::{AllocError, Global};
use std::marker::Model;

/// The occurrences of an index whose range denotes a span, by their document's path and by their symbol string.
#[derive(Drop)]
pub struct Store {
    by_path: StringTable<PathEntry>,
    by_symbol: StringTable<SymbolEntry>,
}

impl Model for Store {
    ghost use Rattle.index_store.specs.Stores.{tables_in, IsSoundStore, Tables};

    ghost Value = { Tables };

    ghost view = { λ s. tables_in s.by_path s.by_symbol };

    ghost invariant = { λ s. IsSoundStore (tables_in s.by_path s.by_symbol) };
}

impl Store {
    /// Builds the store of an index. Fails with `Memory` if an allocation fails, and with no other error.
    pub fn new(alloc: Global, index: Index) -> Result<Store, StoreFault>
        // With `Ok` the result is the store of the index.
        ensures exact { IfOk result (IsStoreOf (index_model index)) }
        // `Memory` is the only error.
        ensures memory { IfErr result (λ fault. fault ≡ Memory) }
    {
        Store::from_documents(alloc, &index.documents)
    }

    /// Builds the store of an index with these documents. Fails with `Memory` if an allocation fails.
    fn from_documents(alloc: Global, documents: &[Document]) -> Result<Store, StoreFault>
        // With `Ok` the store has exactly the paths of the documents and the entries of their occurrences.
        ensures exact { IfOk result (Keeps (paths_of (map document_model documents.now)) (flat_map occurrences_in (map document_model documents.now))) }
        // `Memory` is the only error.
        ensures memory { IfErr result (λ fault. fault ≡ Memory) }
    {
        let mut builder = StoreBuilder::new(alloc);
        builder.add_documents(alloc, documents)?;
        Ok(Store {
            by_path: builder.by_path,
            by_symbol: builder.by_symbol,
        })
    }

    /// Builds the store of the index that a reader reads. The reader's `next` hasn't been called yet.
    /// One document is in memory at a time, and the store has only the occurrences whose range denotes a span.
    /// Fails with the first fault of the bytes, as `scip_index::from_bytes` does, and with `Memory` if an allocation fails.
    pub fn from_reader(alloc: Global, mut reader: IndexReader<'_>) -> Result<Store, WireFault>
        // The reader has returned no document.
        requires fresh { given reader ≡ [] }
        // The reader hasn't failed.
        requires sound { reader.error ≡ None }
        // With `Ok` the reader's bytes encode an index, and the result is the store of that index.
        ensures exact { IfOk result (λ store. IsStoreOfBytes reader.entry.bytes store) }
        // An error is the first fault of the bytes, or `Memory`.
        ensures fault { IfErr result (λ e. UnlessMemory e (IsFirstFault index_fault 0 reader.entry.bytes e)) }
    {
        Store::build_from_reader(alloc, &mut reader)
    }

    /// Builds the store of the index that a reader reads, as `from_reader` does.
    fn build_from_reader(alloc: Global, reader: &mut IndexReader<'_>) -> Result<Store, WireFault>
        // The reader has returned no document.
        requires fresh { given reader.old ≡ [] }
        // The reader hasn't failed.
        requires sound { reader.old.error ≡ None }
        // With `Ok` the reader's bytes encode an index, and the result is the store of that index.
        ensures exact { IfOk result (IsStoreOfBytes reader.old.bytes) }
        // An error is the first fault of the bytes, or `Memory`.
        ensures fault { IfErr result (λ e. UnlessMemory e (IsFirstFault index_fault 0 reader.old.bytes e)) }
    {
        let mut builder = StoreBuilder::new(alloc);
        builder.read_documents(alloc, reader)?;
        Ok(Store {
            by_path: builder.by_path,
            by_symbol: builder.by_symbol,
        })
    }

    /// The symbol string of the nearest occurrence that covers a position of a document, or `None` if none covers it. An occurrence with a
    /// symbol covers the positions from its start up to its end, without its end.
    /// The nearest covering occurrence is the one that starts last, then ends first, then comes first. The line and column of `at` are
    /// zero-based.
    /// Fails with `NoDocument` if no document has the path, and with no other error.
    pub fn symbol_at(&self, path: &str, at: Position) -> Result<Option<&str>, StoreFault>
        // For each index whose store this is: With `Ok` a document has the path, and the result is the symbol of the nearest occurrence
        // that covers the position. The symbol is none if no occurrence covers it. Otherwise the error is `NoDocument`, and no document has
        // the path.
        ensures exact { (index : IndexModel) → IsStoreOf index self.now → IsSymbolResult index path.now at (map_ok (option_map (λ symbol. symbol.now)) result) }
    {
        match self.by_path.text_index(path) {
            None => Err(StoreFault::NoDocument),
            Some(number) => match nearest_entry(self.by_path.rows(number), at) {
                None => Ok(None),
                Some(covering) => Ok(Some(self.by_symbol.text(covering.symbol))),
            },
        }
    }

    /// The locations of a symbol's definitions if `defines` is true, and of its references if not. Doesn't check that a document has the
    /// path.
    fn unchecked_locations<'a>(
        &'a self,
        path: &str,
        symbol: &str,
        defines: bool,
    ) -> Result<Vec<Place<'a>>, AllocError>
        // With `Ok` the locations are those of the symbol's entries that match the role and, for a local symbol, the path.
        ensures { IfOk result (λ locations. map location_model locations.items ≡ flat_map (requested_location defines (is_local symbol.now) path.now) (map (mention_model self.now.paths) (mentions_under self.now symbol.now))) }
    {
        let requested = TableLookup {
            defines,
            local: is_local(symbol),
            path,
        };
        let alloc = self.by_symbol.allocator();
        match self.by_symbol.text_index(symbol) {
            None => Ok(Vec::new(alloc)),
            Some(number) => {
                requested_locations(alloc, requested, &self.by_path, self.by_symbol.rows(number))
            }
        }
    }

    /// The locations of a symbol's definitions if `defines` is true, and of its references if not. Fails with `NoDocument` if no document
    /// has the path, or with `Memory`.
    fn locations<'a>(
        &'a self,
        path: &str,
        symbol: &str,
        defines: bool,
    ) -> Result<Vec<Place<'a>>, StoreFault>
        // For each index whose store this is: with `Ok` a document has the path, and the locations are exactly those in the index, in its
        // order. With `NoDocument` no document has the path.
        ensures exact { (index : IndexModel) → IsStoreOf index self.now → AreLocationsResult index path.now (locations_by_role defines index path.now symbol.now) (map_ok (λ locations. map location_model locations.items) result) }
    {
        match self.by_path.text_index(path) {
            None => Err(StoreFault::NoDocument),
            Some(_) => Ok(self.unchecked_locations(path, symbol, defines)?),
        }
    }

    /// The locations where a symbol is defined, in the index's order. A symbol whose string begins with `local ` is looked up in the
    /// documents of the path alone.
    /// Fails with `NoDocument` if no document has the path, and with `Memory` if an allocation fails.
    pub fn definitions<'a>(&'a self, path: &str, symbol: &str) -> Result<Vec<Place<'a>>, StoreFault>
        // For each index whose store this is: With `Ok` a document has the path, and the locations are exactly those of the symbol's
        // definitions, in the index's order. With `NoDocument` no document has the path.
        ensures exact { (index : IndexModel) → IsStoreOf index self.now → AreLocationsResult index path.now (definitions index path.now symbol.now) (map_ok (λ locations. map location_model locations.items) result) }
    {
        self.locations(path, symbol, true)
    }

    /// The locations where a symbol is used and not defined, in the index's order. A symbol whose string begins with `local ` is looked up
    /// in the documents of the path alone.
    /// Fails with `NoDocument` if no document has the path, and with `Memory` if an allocation fails.
    pub fn references<'a>(&'a self, path: &str, symbol: &str) -> Result<Vec<Place<'a>>, StoreFault>
        // For each index whose store this is: With `Ok` a document has the path, and the locations are exactly those of the symbol's
        // references, in the index's order. With `NoDocument` no document has the path.
        ensures exact { (index : IndexModel) → IsStoreOf index self.now → AreLocationsResult index path.now (references index path.now symbol.now) (map_ok (λ locations. map location_model locations.items) result) }
    {
        self.locations(path, symbol, false)
    }
}
