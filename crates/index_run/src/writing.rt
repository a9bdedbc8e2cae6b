//! Writing an index to a sink, document by document.
ghost use Rattle.std.specs.Prelude.{◌≡◌, IfErr, IsSome, None, OnOk, map};
ghost use Rattle.proto_wire.specs.Writers.{is_failure, WritesRecord};
ghost use Rattle.byte_sink.specs.Sinks.{failures_after, failures_by, is_device, Writes};
ghost use Rattle.scip_index.specs.declared.writer.Stage.TheVariants.{Open};
ghost use Rattle.scip_index.specs.Plain.{document_model, index_model};
ghost use Rattle.scip_index.specs.Written.{documents_part, written};
ghost use Rattle.index_run.specs.WriterFaults.{IsOfSink};

use byte_sink::{Sink, SinkFault};
use proto_wire::WireFault;
use scip_index::laws::written_form_is_concatenation;
use scip_index::{Document, Index, IndexWriter};
use std::alloc::Global;

/// Writes the documents one after the other, and drops each once it is written. After an error the sink took a prefix of their records.
fn write_documents<S: Sink>(
    writer: &mut IndexWriter,
    documents: Vec<Document>,
    sink: &mut S,
) -> Result<(), WireFault>
    // The writer has written the metadata, and accepts more records.
    requires stage { writer.old.stage ≡ Open }
    // The writer hasn't failed.
    requires well { writer.old.error ≡ None }
    // With `Ok` the sink took the records, after an error a prefix of them.
    ensures writes { WritesRecord (S.taken sink.old) (S.taken sink.new) result (documents_part (map document_model documents.items)) }
    // The sink counts a failure if and only if the result is `Device`.
    ensures failures { S.failures sink.new ≡ failures_by is_failure result (S.failures sink.old) }
    // The error is `Device` or `Memory`.
    ensures of_sink { IfErr result IsOfSink }
    // With `Ok` the writer still accepts more records.
    ensures stage { OnOk result (writer.new.stage ≡ Open) }
    // With `Ok` the writer hasn't failed.
    ensures well { OnOk result (writer.new.error ≡ None) }
{
    for document in documents {
        writer.document(&document, sink)?;
    }
    Ok(())
}

/// Writes the metadata, the documents and the external symbols of an index that has metadata. After an error the sink took a prefix of
/// them.
fn write_parts<S: Sink>(alloc: Global, index: Index, sink: &mut S) -> Result<(), WireFault>
    // The index has metadata.
    requires { IsSome index.metadata }
    // With `Ok` the sink took the records, after an error a prefix of them.
    ensures writes { WritesRecord (S.taken sink.old) (S.taken sink.new) result (written (index_model index)) }
    // The sink counts a failure if and only if the result is `Device`.
    ensures failures { S.failures sink.new ≡ failures_by is_failure result (S.failures sink.old) }
    // The error is `Device` or `Memory`.
    ensures of_sink { IfErr result IsOfSink }
{
    written_form_is_concatenation();
    let mut writer = IndexWriter::new(alloc);
    match &index.metadata {
        None => unreachable!(),
        Some(metadata) => writer.metadata(metadata, sink)?,
    }
    write_documents(&mut writer, index.documents, sink)?;
    writer.end(index.external_symbols.as_slice(), sink)
}

/// Converts the fault of an index writer, which is `Device` or `Memory`, to the sink fault of the same name.
pub(crate) fn sink_fault(fault: &WireFault) -> SinkFault
    // The fault is `Device` or `Memory`.
    requires { IsOfSink fault.now }
    // The result is `Device` if and only if the fault is.
    ensures { is_device result ≡ is_failure fault.now }
{
    match fault {
        WireFault::Device => SinkFault::Device,
        WireFault::Memory => SinkFault::Memory,
        WireFault::Truncated { .. }
        | WireFault::LongVarint { .. }
        | WireFault::Group { .. }
        | WireFault::ZeroField { .. }
        | WireFault::BadText { .. } => unreachable!(),
    }
}

/// Writes an index that has metadata in its binary form (scip.proto, `Index`), document by document. Drops each document once written.
/// Fails with the fault of the sink, `Device` or `Memory`; the sink then has a prefix of the index's bytes.
pub fn write_index<S: Sink>(alloc: Global, index: Index, sink: &mut S) -> Result<(), SinkFault>
    // The index has metadata.
    requires { IsSome index.metadata }
    // With `Ok` the sink took the whole written form, otherwise a prefix of it.
    ensures writes { Writes (S.taken sink.old) (S.taken sink.new) result (written (index_model index)) }
    // The sink counts a failure if and only if the result is `Device`.
    ensures failures { S.failures sink.new ≡ failures_after result (S.failures sink.old) }
{
    match write_parts(alloc, index, sink) {
        Ok(()) => Ok(()),
        Err(fault) => Err(sink_fault(&fault)),
    }
}
