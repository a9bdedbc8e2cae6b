//! Writes an index whose documents are already encoded: the given bytes of each document are written as they are.
ghost use Rattle.std.specs.Prelude.{◌≡◌, ◌++◌, None, OnOk, Some, map};
ghost use Rattle.std.specs.List.{flat_map};
ghost use Rattle.byte_sink.specs.Sinks.{failures_after, Writes};
ghost use Rattle.scip_index.specs.declared.writer.Stage.TheVariants.{Fresh, Open};
ghost use Rattle.scip_index.specs.Plain.{metadata_model, symbol_model};
ghost use Rattle.scip_index.specs.Written.{externals_part, metadata_part};

use crate::writing::sink_fault;
use byte_sink::{Sink, SinkFault, write_fully};
use scip_index::{IndexWriter, Metadata, SymbolInfo};
use std::alloc::Global;

/// Writes the record of the metadata. After an error the sink took a prefix of this record.
fn write_metadata<S: Sink>(
    writer: &mut IndexWriter,
    metadata: &Metadata,
    sink: &mut S,
) -> Result<(), SinkFault>
    // The writer has written nothing yet.
    requires stage { writer.old.stage ≡ Fresh }
    // The writer hasn't failed.
    requires well { writer.old.error ≡ None }
    // With `Ok` the sink took the record of the metadata, otherwise a prefix of that.
    ensures writes { Writes (S.taken sink.old) (S.taken sink.new) result (metadata_part (Some (metadata_model metadata.now))) }
    // The sink counts a failure if and only if the result is `Device`.
    ensures failures { S.failures sink.new ≡ failures_after result (S.failures sink.old) }
    // With `Ok` the writer has written the metadata, and accepts more records.
    ensures stage { OnOk result (writer.new.stage ≡ Open) }
    // With `Ok` the writer hasn't failed.
    ensures well { OnOk result (writer.new.error ≡ None) }
{
    match writer.metadata(metadata, sink) {
        Ok(()) => Ok(()),
        Err(fault) => Err(sink_fault(&fault)),
    }
}

/// Writes the encoded documents as they are, one after the other, and drops each once it is written. After an error the sink took a prefix
/// of them.
fn write_records<S: Sink>(records: Vec<Vec<u8>>, sink: &mut S) -> Result<(), SinkFault>
    // With `Ok` the sink took all bytes of the documents, in order, otherwise a prefix of that.
    ensures writes { Writes (S.taken sink.old) (S.taken sink.new) result (flat_map (λ row. row.items) records.items) }
    // The sink counts a failure if and only if the result is `Device`.
    ensures failures { S.failures sink.new ≡ failures_after result (S.failures sink.old) }
{
    for record in records {
        write_fully(sink, &record)?;
    }
    Ok(())
}

/// Writes the records of the external symbols. After an error the sink took a prefix of these records.
fn write_externals<S: Sink>(
    writer: &mut IndexWriter,
    external_symbols: &[SymbolInfo],
    sink: &mut S,
) -> Result<(), SinkFault>
    // The writer has written the metadata, and accepts more records.
    requires stage { writer.old.stage ≡ Open }
    // The writer hasn't failed.
    requires well { writer.old.error ≡ None }
    // With `Ok` the sink took the records of the external symbols, otherwise a prefix of that.
    ensures writes { Writes (S.taken sink.old) (S.taken sink.new) result (externals_part (map symbol_model external_symbols.now)) }
    // The sink counts a failure if and only if the result is `Device`.
    ensures failures { S.failures sink.new ≡ failures_after result (S.failures sink.old) }
{
    match writer.end(external_symbols, sink) {
        Ok(()) => Ok(()),
        Err(fault) => Err(sink_fault(&fault)),
    }
}

/// Writes an index (scip.proto, `Index`): the record of its metadata, the given records of its documents, and the records of its external
/// symbols.
/// Drops each document's record once it is written. Fails with the fault of the sink, `Device` or `Memory`; the sink then has a prefix of
/// the index.
pub fn write_encoded_index<S: Sink>(
    alloc: Global,
    metadata: &Metadata,
    records: Vec<Vec<u8>>,
    external_symbols: &[SymbolInfo],
    sink: &mut S,
) -> Result<(), SinkFault>
    // With `Ok` the sink took the records of the metadata, the documents and the external symbols, otherwise a prefix of them.
    ensures writes { Writes (S.taken sink.old) (S.taken sink.new) result
        (metadata_part (Some (metadata_model metadata.now)) ++ flat_map (λ row. row.items) records.items ++ externals_part (map symbol_model external_symbols.now)) }
    // The sink counts a failure if and only if the result is `Device`.
    ensures failures { S.failures sink.new ≡ failures_after result (S.failures sink.old) }
{
    let mut writer = IndexWriter::new(alloc);
    write_metadata(&mut writer, metadata, sink)?;
    write_records(records, sink)?;
    write_externals(&mut writer, external_symbols, sink)
}
