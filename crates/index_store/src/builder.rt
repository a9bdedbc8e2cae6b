//! The builder of a store's tables.
ghost use Rattle.std.specs.Prelude.{◌≡◌, ◌<◌, ◌++◌, [], ◌∷◌, Some, length, List, None, ℕ, IfErr, OnOk, map};
ghost use Rattle.std.specs.List.{flat_map};
ghost use Rattle.proto_wire.specs.Faults.{UnlessMemory};
ghost use Rattle.proto_wire.specs.Messages.{IsFirstFault};
ghost use Rattle.scip_index.specs.Meaning.{index_fault};
ghost use Rattle.scip_index.specs.Streaming.{given};
ghost use Rattle.scip_index.specs.Plain.{document_model, occurrence_model};
ghost use Rattle.index_store.specs.Queries.{PlacedOccurrence, occurrence_at, occurrences_in, is_definition};
ghost use Rattle.index_store.specs.Stores.{paths_of, tables_of, AreComplete, IsMentionOf, IsStoreOfBytes, Keeps};
ghost use Rattle.index_store.specs.Tables.{text_index, texts_in};

use crate::row::{PathEntry, SymbolEntry};
use crate::span::span_of;
use crate::table::StringTable;
use proto_wire::WireFault;
use scip_index::{Document, IndexReader, Occurrence};
use std::alloc::{AllocError, Global};

/// Builder of a store. It has the added occurrences whose range denotes a span, by their document's path and by their symbol string.
#[derive(Drop)]
pub(crate) struct StoreBuilder {
    pub(crate) by_path: StringTable<PathEntry>,
    pub(crate) by_symbol: StringTable<SymbolEntry>,
}

/// Whether an occurrence has the definition role, the lowest bit of `symbol_roles`.
fn is_definition(occurrence: &Occurrence) -> bool
    ensures { result ≡ is_definition (occurrence_model occurrence.now) }
{
    occurrence.symbol_roles.cast_unsigned() % 2 == 1
}

impl StoreBuilder {
    /// A builder with empty tables.
    pub(crate) fn new(alloc: Global) -> StoreBuilder
        // Each path and each symbol string has a list of entries.
        ensures whole { AreComplete (tables_of result) }
        // The tables have no path and no entry.
        ensures nothing { Keeps [] [] (tables_of result) }
    {
        StoreBuilder {
            by_path: StringTable::new(alloc),
            by_symbol: StringTable::new(alloc),
        }
    }

    /// Adds the entry `mention` of an occurrence to the entries of its symbol string. Unless that string is empty, also adds an entry to
    /// the entries of the occurrence's path.
    fn add_symbol_entry(
        &mut self,
        alloc: Global,
        symbol: &str,
        mention: SymbolEntry,
    ) -> Result<(), AllocError>
        // Each path and each symbol string has a list of entries.
        requires whole { AreComplete (tables_of self.old) }
        // The path of the entry is the index of a path in the table.
        requires within { mention.path < length (texts_in self.old.by_path) }
        // With `Ok` each path and each symbol string has a list of entries.
        ensures whole { OnOk result (AreComplete (tables_of self.new)) }
        // No path is added.
        ensures paths { texts_in self.new.by_path ≡ texts_in self.old.by_path }
        // With `Ok`, if the tables had the entries of the occurrences `found` and `mention` is the entry of an occurrence f, they now have
        // those of `found` and then f.
        ensures retained { (paths : List (List ℕ)) (found : List PlacedOccurrence) (f : PlacedOccurrence) → Keeps paths found (tables_of self.old) → text_index (texts_in self.old.by_path) f.path ≡ Some mention.path → IsMentionOf f symbol.now mention → OnOk result (Keeps paths (found ++ f ∷ []) (tables_of self.new)) }
    {
        let number = self.by_symbol.find_or_insert(alloc, symbol)?;
        self.by_symbol.push(number, mention)?;
        if !symbol.is_empty() {
            let covering = PathEntry {
                span: mention.span,
                symbol: number,
            };
            self.by_path.push(mention.path, covering)?;
        }
        Ok(())
    }

    /// Adds an occurrence of the document whose path has this index, if the occurrence's range denotes a span.
    fn add_occurrence(
        &mut self,
        alloc: Global,
        path: usize,
        occurrence: &Occurrence,
    ) -> Result<(), AllocError>
        // Each path and each symbol string has a list of entries.
        requires whole { AreComplete (tables_of self.old) }
        // `path` is the index of a path in the table.
        requires within { path < length (texts_in self.old.by_path) }
        // With `Ok` each path and each symbol string has a list of entries.
        ensures whole { OnOk result (AreComplete (tables_of self.new)) }
        // No path is added.
        ensures paths { texts_in self.new.by_path ≡ texts_in self.old.by_path }
        // With `Ok`, if the tables had the entries of the occurrences `found`, they now have those of `found` and then of this occurrence.
        ensures retained { (paths : List (List ℕ)) (found : List PlacedOccurrence) (name : List ℕ) → Keeps paths found (tables_of self.old) → text_index (texts_in self.old.by_path) name ≡ Some path → OnOk result (Keeps paths (found ++ occurrence_at name (occurrence_model occurrence.now) ∷ []) (tables_of self.new)) }
    {
        match span_of(occurrence.range.as_slice()) {
            None => Ok(()),
            Some(span) => {
                let mention = SymbolEntry {
                    path,
                    span,
                    defines: is_definition(occurrence),
                };
                self.add_symbol_entry(alloc, occurrence.symbol.as_str(), mention)
            }
        }
    }

    /// Adds a document's path, and those of its occurrences whose range denotes a span.
    fn add_document(&mut self, alloc: Global, document: &Document) -> Result<(), AllocError>
        // Each path and each symbol string has a list of entries.
        requires whole { AreComplete (tables_of self.old) }
        // With `Ok` each path and each symbol string has a list of entries.
        ensures whole { OnOk result (AreComplete (tables_of self.new)) }
        // With `Ok`, if the tables had exactly these paths and the entries of `found`, they now also have those of the document.
        ensures retained { (paths : List (List ℕ)) (found : List PlacedOccurrence) → Keeps paths found (tables_of self.old) → OnOk result (Keeps (paths ++ (document_model document.now).relative_path ∷ []) (found ++ occurrences_in (document_model document.now)) (tables_of self.new)) }
    {
        let path = self
            .by_path
            .find_or_insert(alloc, document.relative_path.as_str())?;
        for occurrence in &document.occurrences {
            self.add_occurrence(alloc, path, occurrence)?;
        }
        Ok(())
    }

    /// Adds the paths of the documents, and those of their occurrences whose range denotes a span, to empty tables.
    pub(crate) fn add_documents(
        &mut self,
        alloc: Global,
        documents: &[Document],
    ) -> Result<(), AllocError>
        // Each path and each symbol string has a list of entries.
        requires whole { AreComplete (tables_of self.old) }
        // The tables have no path and no entry.
        requires nothing { Keeps [] [] (tables_of self.old) }
        // With `Ok` each path and each symbol string has a list of entries.
        ensures whole { OnOk result (AreComplete (tables_of self.new)) }
        // With `Ok` the tables have exactly the paths of the documents and the entries of their occurrences.
        ensures retained { OnOk result (Keeps (paths_of (map document_model documents.now)) (flat_map occurrences_in (map document_model documents.now)) (tables_of self.new)) }
    {
        for document in documents {
            self.add_document(alloc, document)?;
        }
        Ok(())
    }

    /// Adds the documents that a reader reads to empty tables: their paths, and those of their occurrences whose range denotes a span. One
    /// document is in memory at a time.
    pub(crate) fn read_documents(
        &mut self,
        alloc: Global,
        reader: &mut IndexReader<'_>,
    ) -> Result<(), WireFault>
        // Each path and each symbol string has a list of entries.
        requires whole { AreComplete (tables_of self.old) }
        // The tables have no path and no entry.
        requires nothing { Keeps [] [] (tables_of self.old) }
        // The reader has returned no document.
        requires fresh { given reader.old ≡ [] }
        // The reader hasn't failed.
        requires sound { reader.old.error ≡ None }
        // With `Ok` each path and each symbol string has a list of entries.
        ensures whole { OnOk result (AreComplete (tables_of self.new)) }
        // With `Ok` the reader's bytes encode an index, and the tables are those of that index.
        ensures retained { OnOk result (IsStoreOfBytes reader.old.bytes (tables_of self.new)) }
        // An error is the first fault of the bytes, or `Memory`.
        ensures fault { IfErr result (λ e. UnlessMemory e (IsFirstFault index_fault 0 reader.old.bytes e)) }
    {
        'documents: while let Some(document) = reader.next()? {
            self.add_document(alloc, &document)?;
        }
        Ok(())
    }
}
