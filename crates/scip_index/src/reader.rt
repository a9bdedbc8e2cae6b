//! Reads an index one document at a time.
ghost use Rattle.std.specs.Prelude.{◌≡◌, ◌<◌, ◌≤◌, ◌+◌, ◌^◌, ◌++◌, ◌∷◌, [], ℕ, IfErr, IfNone, IfOk, IfSome, List, None, OnOk, Ok, Err, Result, Some, length, map, option_map, take};
ghost use Rattle.std.specs.Option.{option_to_list};
ghost use Rattle.std.specs.Result.{result_err};
ghost use Rattle.proto_wire.specs.declared.fault.WireFault.{WireFault};
ghost use Rattle.proto_wire.specs.Faults.{HasOutcome, UnlessMemory};
ghost use Rattle.proto_wire.specs.Messages.{IsNextFault, IsFirstFault};
ghost use Rattle.proto_wire.specs.Records.{PayloadRecord};
ghost use Rattle.scip_index.specs.Plain.{document_model, metadata_model, symbol_model};
ghost use Rattle.scip_index.specs.Meaning.{index_fault};
ghost use Rattle.scip_index.specs.Streaming.{documents_in, given, HasDocuments, IsFaultAfter, IsRestOutcome, IsReaderAt};

use crate::{Document, Metadata, SymbolInfo};
use proto_wire::{WireFault, decode_messages, merge_message, read_record};
use std::alloc::Global;
use std::marker::Model;

/// The only document of a list of at most one; none if the list is empty.
fn only_document(mut documents: Vec<Document>) -> Option<Document>
    requires { length documents.items ≤ 1 }
    ensures { documents.items ≡ option_to_list result }
{
    documents.pop()
}

/// Decodes the first record of `rest`, which begins at offset `at`. Returns its document, if it has one, with the offset after the record
/// and the remaining bytes.
fn decode_first_record<'a>(
    alloc: Global,
    at: usize,
    rest: &'a [u8],
    metadata: &mut Option<Metadata>,
    externals: &mut Vec<SymbolInfo>,
) -> Result<(Option<Document>, usize, &'a [u8]), WireFault>
    requires some { 0 < length rest.now }
    requires inside { at + length rest.now < 2 ^ 64 }
    ensures taken { IfOk result (λ x. (bytes : List ℕ) (front : List PayloadRecord) →
        IsReaderAt bytes front at rest.now (option_map metadata_model metadata.old) (map symbol_model externals.old.items) →
        (p : PayloadRecord) × IsReaderAt bytes (front ++ p ∷ []) x.1 x.2.now (option_map metadata_model metadata.new) (map symbol_model externals.new.items)
        × (documents_in (front ++ p ∷ []) ≡ documents_in front ++ map document_model (option_to_list x.0))) }
    ensures shorter { IfOk result (λ x. (length x.2.now < length rest.now) × (x.1 + length x.2.now ≡ at + length rest.now)) }
    ensures err { IfErr result (λ e. (bytes : List ℕ) (front : List PayloadRecord) →
        IsReaderAt bytes front at rest.now (option_map metadata_model metadata.old) (map symbol_model externals.old.items) → UnlessMemory e (IsNextFault index_fault 0 bytes front e)) }
{
    let (wire, payload, after) = read_record(at, rest)?;
    let mut documents = Vec::new(alloc);
    merge_message(alloc, 1, metadata, &wire, payload)?;
    decode_messages(alloc, 2, &mut documents, &wire, payload)?;
    decode_messages(alloc, 3, externals, &wire, payload)?;
    Ok((
        only_document(documents),
        at + (rest.len() - after.len()),
        after,
    ))
}

/// Reads records up to the next document. Returns the document with the offset after its record and the remaining bytes, or `None` at the
/// end of the bytes.
fn next_document<'a>(
    alloc: Global,
    at: usize,
    rest: &'a [u8],
    metadata: &mut Option<Metadata>,
    externals: &mut Vec<SymbolInfo>,
) -> Result<(Option<Document>, usize, &'a [u8]), WireFault>
    requires { at + length rest.now < 2 ^ 64 }
    ensures found { IfOk result (λ x. (bytes : List ℕ) (front : List PayloadRecord) →
        IsReaderAt bytes front at rest.now (option_map metadata_model metadata.old) (map symbol_model externals.old.items) →
        (more : List PayloadRecord) × IsReaderAt bytes (front ++ more) x.1 x.2.now (option_map metadata_model metadata.new) (map symbol_model externals.new.items)
        × (documents_in (front ++ more) ≡ documents_in front ++ map document_model (option_to_list x.0))
        × (IfNone x.0 (length x.2.now ≡ 0))) }
    ensures shorter { IfOk result (λ x. IfSome x.0 (λ _. length x.2.now < length rest.now)) }
    ensures err { IfErr result (λ e. (bytes : List ℕ) (front : List PayloadRecord) →
        IsReaderAt bytes front at rest.now (option_map metadata_model metadata.old) (map symbol_model externals.old.items) → UnlessMemory e (IsFaultAfter bytes (documents_in front) e)) }
{
    let mut place = at;
    let mut left = rest;
    'records: while !left.is_empty() {
        let (document, next, after) = decode_first_record(alloc, place, left, metadata, externals)?;
        if document.is_some() {
            return Ok((document, next, after));
        }
        place = next;
        left = after;
    }
    Ok((None, place, left))
}

/// Reads the records up to the end of the bytes, and drops the documents among them.
fn read_rest(
    alloc: Global,
    at: usize,
    rest: &[u8],
    metadata: &mut Option<Metadata>,
    externals: &mut Vec<SymbolInfo>,
) -> Result<(), WireFault>
    requires { at + length rest.now < 2 ^ 64 }
    ensures read { OnOk result ((bytes : List ℕ) (front : List PayloadRecord) →
        IsReaderAt bytes front at rest.now (option_map metadata_model metadata.old) (map symbol_model externals.old.items) →
        IsRestOutcome bytes (Ok (option_map metadata_model metadata.new, map symbol_model externals.new.items))) }
    ensures err { IfErr result (λ e. (bytes : List ℕ) (front : List PayloadRecord) →
        IsReaderAt bytes front at rest.now (option_map metadata_model metadata.old) (map symbol_model externals.old.items) → UnlessMemory e (IsFirstFault index_fault 0 bytes e)) }
{
    let mut place = at;
    let mut left = rest;
    'records: while !left.is_empty() {
        let (_, next, after) = decode_first_record(alloc, place, left, metadata, externals)?;
        place = next;
        left = after;
    }
    Ok(())
}

/// Reads an index one document at a time, so that one document is in memory at a time.
/// Contracts describe a reader by the bytes, the number of bytes that are read, and the error that it has returned, if any. After an error
/// each call returns this error again.
#[derive(Drop)]
pub struct IndexReader<'a> {
    alloc: Global,
    bytes: &'a [u8],
    at: usize,
    rest: &'a [u8],
    metadata: Option<Metadata>,
    externals: Vec<SymbolInfo>,
    error: Option<WireFault>,
}

impl<'a> Model for IndexReader<'a> {
    ghost use Rattle.std.specs.Prelude.{IfNone, map, option_map};
    ghost use Rattle.scip_index.specs.Plain.{metadata_model, symbol_model};
    ghost use Rattle.scip_index.specs.Streaming.{HasRead, ReaderState};

    ghost Value = { ReaderState };

    ghost view = { λ r. record { bytes = r.bytes.now; at = r.at; error = r.error } };

    ghost invariant = { λ r. IfNone r.error (HasRead r.bytes.now r.at r.rest.now (option_map metadata_model r.metadata) (map symbol_model r.externals.items)) };
}

impl<'a> IndexReader<'a> {
    /// A reader that has read nothing. Allocates nothing.
    pub fn new(alloc: Global, bytes: &'a [u8]) -> Self
        // The reader has read none of the bytes, and hasn't failed.
        ensures fresh { result ≡ record { bytes = bytes.now; at = 0; error = None } }
        // The reader has returned no document.
        ensures given { given result ≡ [] }
    {
        IndexReader {
            alloc,
            bytes,
            at: 0,
            rest: bytes,
            metadata: None,
            externals: Vec::new(alloc),
            error: None,
        }
    }

    /// Reads and returns the next document, or `None` at the end of the bytes.
    /// Fails with the first fault of the bytes, as `from_bytes` does, once all documents before the fault are returned. Fails with `Memory`
    /// if an allocation fails.
    pub fn next(&mut self) -> Result<Option<Document>, WireFault>
        // The bytes are unchanged.
        ensures same { self.new.bytes ≡ self.old.bytes }
        // With `Ok` the documents in the bytes that are read are the ones before the call, followed by the returned document, if there is
        // one.
        ensures found { IfNone self.old.error (IfOk result (λ x. given self.new ≡ given self.old ++ map document_model (option_to_list x))) }
        // With `Ok` the bytes that are read encode an index, whose documents are exactly those returned so far.
        ensures sound { IfNone self.old.error (IfOk result (λ _. HasDocuments (take self.new.at self.old.bytes) (given self.new))) }
        // The result is `None` only if the bytes encode an index and all its documents are returned.
        ensures end { IfNone self.old.error (IfOk result (λ x. IfNone x (HasDocuments self.old.bytes (given self.old)))) }
        // With a document the reader has read further, and not beyond the end of the bytes.
        ensures onward { IfNone self.old.error (IfOk result (λ x. IfSome x (λ _. (self.old.at < self.new.at) × (self.new.at ≤ length self.old.bytes)))) }
        // The reader's first error is the first fault of the bytes, and the documents before this fault are exactly those returned so far;
        // or it is `Memory`.
        ensures fault { IfNone self.old.error (IfErr result (λ e. UnlessMemory e (IsFaultAfter self.old.bytes (given self.old) e))) }
        // The reader stores the error of the call, if there is one.
        ensures retained { self.new.error ≡ result_err result }
        // After an error each call returns this error again, and the reader is unchanged.
        ensures again { IfSome self.old.error (λ fault. (result ≡ Err fault) × (self.new ≡ self.old)) }
    {
        if let Some(fault) = self.error {
            return Err(fault);
        }
        match next_document(
            self.alloc,
            self.at,
            self.rest,
            &mut self.metadata,
            &mut self.externals,
        ) {
            Ok((document, at, rest)) => {
                self.at = at;
                self.rest = rest;
                Ok(document)
            }
            Err(fault) => {
                self.error = Some(fault);
                Err(fault)
            }
        }
    }

    /// Reads up to the end of the bytes, and returns the metadata and the external symbols.
    /// Fails with the first fault of the bytes, as `from_bytes` does, and with `Memory` if an allocation fails. If `next` has failed,
    /// returns its error again.
    pub fn rest(self) -> Result<(Option<Metadata>, Vec<SymbolInfo>), WireFault>
        // If the reader hasn't failed, the result is the metadata and the external symbols of the index that the bytes encode, or their
        // first fault, or `Memory`.
        ensures exact { IfNone self.entry.error (HasOutcome (λ x. (option_map metadata_model x.0, map symbol_model x.1.items)) result (IsRestOutcome self.entry.bytes)) }
        // If the reader has failed, the result is its error.
        ensures again { IfSome self.entry.error (λ fault. result ≡ Err fault) }
    {
        if let Some(fault) = self.error {
            return Err(fault);
        }
        let IndexReader {
            alloc,
            at,
            rest,
            mut metadata,
            mut externals,
            ..
        } = self;
        read_rest(alloc, at, rest, &mut metadata, &mut externals)?;
        Ok((metadata, externals))
    }
}
