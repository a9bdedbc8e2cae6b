//! Writes an index to a sink one document at a time.
ghost use Rattle.std.specs.Prelude.{◌≡◌, IfNone, IfSome, None, OnOk, Some, map};
ghost use Rattle.std.specs.List.{AllByRecursion};
ghost use Rattle.std.specs.Result.{result_err};
ghost use Rattle.byte_sink.specs.Sinks.{failures_after, failures_by, Writes};
ghost use Rattle.proto_wire.specs.Writers.{result_of_error, is_failure, WritesRecord};
ghost use Rattle.scip_index.specs.declared.writer.Stage.TheVariants.{Fresh, Open, Ended};
ghost use Rattle.scip_index.specs.Fits.{DocumentFits, MetadataFits, SymbolFits};
ghost use Rattle.scip_index.specs.Plain.{document_model, metadata_model, symbol_model};
ghost use Rattle.scip_index.specs.Written.{document_part, externals_part, metadata_part};
ghost use Rattle.scip_index.specs.Writers.{after_write, MayCall};

use crate::{Document, Metadata, SymbolInfo};
use byte_sink::{Sink, SinkFault, write_fully};
use proto_wire::{Scratch, WireFault, append_message, append_messages};
use std::alloc::{AllocError, Global};
use std::marker::Model;

/// The progress of a writer.
#[derive(Clone, Copy)]
pub enum Stage {
    /// Nothing is written.
    Fresh,
    /// The metadata is written, and maybe documents.
    Open,
    /// Everything is written.
    Ended,
}

/// Encodes the metadata's record in the buffer and writes it. After an error the sink has taken a prefix of the record.
fn write_metadata<S: Sink>(
    scratch: &mut Scratch,
    bytes: &mut Vec<u8>,
    metadata: &Metadata,
    sink: &mut S,
) -> Result<(), SinkFault>
    ensures writes { Writes (S.taken sink.old) (S.taken sink.new) result (metadata_part (Some (metadata_model metadata.now))) }
    ensures fits { OnOk result (MetadataFits (metadata_model metadata.now)) }
    ensures failures { S.failures sink.new ≡ failures_after result (S.failures sink.old) }
{
    bytes.clear();
    append_message(scratch, bytes, 1, metadata).map_err(|_| SinkFault::Memory)?;
    write_fully(sink, bytes)
}

/// Encodes a document's record in the buffer and writes it. After an error the sink has taken a prefix of the record.
fn write_document<S: Sink>(
    scratch: &mut Scratch,
    bytes: &mut Vec<u8>,
    document: &Document,
    sink: &mut S,
) -> Result<(), SinkFault>
    ensures writes { Writes (S.taken sink.old) (S.taken sink.new) result (document_part (document_model document.now)) }
    ensures fits { OnOk result (DocumentFits (document_model document.now)) }
    ensures failures { S.failures sink.new ≡ failures_after result (S.failures sink.old) }
{
    bytes.clear();
    append_message(scratch, bytes, 2, document).map_err(|_| SinkFault::Memory)?;
    write_fully(sink, bytes)
}

/// Replaces the content of the buffer by the records of the external symbols.
fn encode_externals(
    scratch: &mut Scratch,
    bytes: &mut Vec<u8>,
    externals: &[SymbolInfo],
) -> Result<(), AllocError>
    ensures bytes { OnOk result (bytes.new.items ≡ externals_part (map symbol_model externals.now)) }
    ensures fits { OnOk result (AllByRecursion SymbolFits (map symbol_model externals.now)) }
{
    bytes.clear();
    append_messages(scratch, bytes, 3, externals)
}

/// Encodes the records of the external symbols in the buffer and writes them. After an error the sink has taken a prefix of the records.
fn write_externals<S: Sink>(
    scratch: &mut Scratch,
    bytes: &mut Vec<u8>,
    externals: &[SymbolInfo],
    sink: &mut S,
) -> Result<(), SinkFault>
    ensures writes { Writes (S.taken sink.old) (S.taken sink.new) result (externals_part (map symbol_model externals.now)) }
    ensures fits { OnOk result (AllByRecursion SymbolFits (map symbol_model externals.now)) }
    ensures failures { S.failures sink.new ≡ failures_after result (S.failures sink.old) }
{
    encode_externals(scratch, bytes, externals).map_err(|_| SinkFault::Memory)?;
    write_fully(sink, bytes)
}

/// Writes an index to a sink by calls of `metadata`, `document` and `end`, in this order. The bytes of one document are in memory at a
/// time.
/// Contracts describe a writer by its stage and the error that it has returned, if any. From then on each call returns this error again and
/// writes nothing.
#[derive(Drop)]
pub struct IndexWriter {
    stage: Stage,
    error: Option<SinkFault>,
    scratch: Scratch,
    bytes: Vec<u8>,
}

impl Model for IndexWriter {
    ghost use Rattle.scip_index.specs.Writers.{WriterState};

    ghost Value = { WriterState };

    ghost view = { λ w. record { stage = w.stage; error = w.error } };
}

impl IndexWriter {
    /// A writer that has written nothing. Allocates nothing.
    pub fn new(alloc: Global) -> Self
        // The writer is at stage `Fresh`, and hasn't failed.
        ensures { result ≡ record { stage = Fresh; error = None } }
    {
        IndexWriter {
            stage: Stage::Fresh,
            error: None,
            scratch: Scratch::new(alloc),
            bytes: Vec::new(alloc),
        }
    }

    /// Fails with the writer's error, if the writer has failed.
    fn ensure_ok(&self) -> Result<(), WireFault>
        ensures { result ≡ result_of_error self.now.error }
    {
        match self.error {
            None => Ok(()),
            Some(error) => Err(WireFault::from(error)),
        }
    }

    /// Advances to the stage `next` if the write that returned `put` succeeded, and otherwise stores its error.
    fn store_error(&mut self, put: Result<(), SinkFault>, next: Stage) -> Result<(), WireFault>
        requires { self.old.error ≡ None }
        ensures retained { self.new ≡ after_write self.old put next }
        ensures answer { result ≡ result_of_error (result_err put) }
    {
        match put {
            Ok(()) => {
                self.stage = next;
                Ok(())
            }
            Err(error) => {
                self.error = Some(error);
                Err(WireFault::from(error))
            }
        }
    }

    /// Writes the metadata's record. This is the first call.
    /// Fails with `Device` if the sink fails, and with `Memory` if an allocation fails. The sink has then taken a prefix of the record.
    pub fn metadata<S: Sink>(&mut self, metadata: &Metadata, sink: &mut S) -> Result<(), WireFault>
        // The writer is at stage `Fresh`, or has failed.
        requires { MayCall self.old Fresh }
        // With `Ok` the sink took the whole record, otherwise a prefix of it.
        ensures writes { IfNone self.old.error (WritesRecord (S.taken sink.old) (S.taken sink.new) result (metadata_part (Some (metadata_model metadata.now)))) }
        // With `Ok` the numbers of the metadata fit their types and its strings are UTF-8, so the record can be decoded.
        ensures fits { OnOk result (MetadataFits (metadata_model metadata.now)) }
        // If the writer hadn't failed before, the sink counts a failure if and only if the result is `Device`.
        ensures failures { IfNone self.old.error (S.failures sink.new ≡ failures_by is_failure result (S.failures sink.old)) }
        // The result is the error that the writer now has, or `Ok` if it has none.
        ensures retained { result ≡ result_of_error self.new.error }
        // If the writer had failed before, the writer and the sink are unchanged.
        ensures again { IfSome self.old.error (λ _. (self.new ≡ self.old) × (sink.new ≡ sink.old)) }
        // With `Ok` the writer is at stage `Open`.
        ensures stage { OnOk result (self.new.stage ≡ Open) }
    {
        self.ensure_ok()?;
        let put = write_metadata(&mut self.scratch, &mut self.bytes, metadata, sink);
        self.store_error(put, Stage::Open)
    }

    /// Writes a document's record. This is called any number of times, after `metadata`.
    /// Fails with `Device` if the sink fails, and with `Memory` if an allocation fails. The sink has then taken a prefix of the record.
    pub fn document<S: Sink>(&mut self, document: &Document, sink: &mut S) -> Result<(), WireFault>
        // The writer is at stage `Open`, or has failed.
        requires { MayCall self.old Open }
        // With `Ok` the sink took the whole record, otherwise a prefix of it.
        ensures writes { IfNone self.old.error (WritesRecord (S.taken sink.old) (S.taken sink.new) result (document_part (document_model document.now))) }
        // With `Ok` the numbers of the document fit their types and its strings are UTF-8, so the record can be decoded.
        ensures fits { OnOk result (DocumentFits (document_model document.now)) }
        // If the writer hadn't failed before, the sink counts a failure if and only if the result is `Device`.
        ensures failures { IfNone self.old.error (S.failures sink.new ≡ failures_by is_failure result (S.failures sink.old)) }
        // The result is the error that the writer now has, or `Ok` if it has none.
        ensures retained { result ≡ result_of_error self.new.error }
        // If the writer had failed before, the writer and the sink are unchanged.
        ensures again { IfSome self.old.error (λ _. (self.new ≡ self.old) × (sink.new ≡ sink.old)) }
        // With `Ok` the writer is at stage `Open`.
        ensures stage { OnOk result (self.new.stage ≡ Open) }
    {
        self.ensure_ok()?;
        let put = write_document(&mut self.scratch, &mut self.bytes, document, sink);
        self.store_error(put, Stage::Open)
    }

    /// Writes the records of the external symbols. This is the last call.
    /// Fails with `Device` if the sink fails, and with `Memory` if an allocation fails. The sink has then taken a prefix of the records.
    pub fn end<S: Sink>(&mut self, externals: &[SymbolInfo], sink: &mut S) -> Result<(), WireFault>
        // The writer is at stage `Open`, or has failed.
        requires { MayCall self.old Open }
        // With `Ok` the sink took all of the records, otherwise a prefix of them.
        ensures writes { IfNone self.old.error (WritesRecord (S.taken sink.old) (S.taken sink.new) result (externals_part (map symbol_model externals.now))) }
        // With `Ok` the strings of the external symbols are UTF-8, so the records can be decoded.
        ensures fits { OnOk result (AllByRecursion SymbolFits (map symbol_model externals.now)) }
        // If the writer hadn't failed before, the sink counts a failure if and only if the result is `Device`.
        ensures failures { IfNone self.old.error (S.failures sink.new ≡ failures_by is_failure result (S.failures sink.old)) }
        // The result is the error that the writer now has, or `Ok` if it has none.
        ensures retained { result ≡ result_of_error self.new.error }
        // If the writer had failed before, the writer and the sink are unchanged.
        ensures again { IfSome self.old.error (λ _. (self.new ≡ self.old) × (sink.new ≡ sink.old)) }
        // With `Ok` the writer is at stage `Ended`.
        ensures stage { OnOk result (self.new.stage ≡ Ended) }
    {
        self.ensure_ok()?;
        let put = write_externals(&mut self.scratch, &mut self.bytes, externals, sink);
        self.store_error(put, Stage::Ended)
    }
}
