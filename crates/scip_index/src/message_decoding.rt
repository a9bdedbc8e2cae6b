//! The decoding of the messages of an index, record by record.
ghost use Rattle.std.specs.Prelude.{◌≡◌, IfErr, IfOk, None, OnOk, Result};
ghost use Rattle.proto_wire.specs.declared.fault.WireFault.{WireFault};
ghost use Rattle.proto_wire.specs.Faults.{IsFaultOrMemory, HasOutcome};
ghost use Rattle.proto_wire.specs.Messages.{fault_of};
ghost use Rattle.proto_wire.specs.Readings.{payload_records};
ghost use Rattle.scip_index.specs.Plain.{document_model, index_model, metadata_model, occurrence_model, symbol_model, tool_model, IndexModel};
ghost use Rattle.scip_index.specs.Meaning.{document_fault, document_of, index_fault, index_of, metadata_fault, metadata_of, occurrence_fault, occurrence_of, symbol_fault, symbol_of, tool_fault, tool_of, IsIndexOutcome};

use crate::{Document, Index, Metadata, Occurrence, SymbolInfo, ToolInfo};
use proto_wire::{
    Message, WireFault, WireRecord, decode_messages, decode_number, decode_numbers, decode_text,
    decode_texts, merge_message, read_message,
};
use std::alloc::Global;

impl Message for Occurrence {
    ghost means = { λ o pieces. occurrence_model o ≡ occurrence_of pieces };

    ghost fault_in = { occurrence_fault };

    #[tactic(auto, unfolding(proto_wire::specs::Messages::field_values))]
    fn blank(alloc: Global) -> Occurrence {
        Occurrence {
            range: Vec::new(alloc),
            symbol: String::new(alloc),
            symbol_roles: 0,
            enclosing_range: Vec::new(alloc),
        }
    }

    fn decode_record(
        &mut self,
        alloc: Global,
        wire: &WireRecord,
        payload: &[u8],
    ) -> Result<(), WireFault> {
        decode_numbers(1, &mut self.range, wire, payload)?;
        decode_text(alloc, 2, &mut self.symbol, wire, payload)?;
        decode_number(3, &mut self.symbol_roles, wire);
        decode_numbers(7, &mut self.enclosing_range, wire, payload)?;
        Ok(())
    }
}

impl Message for SymbolInfo {
    ghost means = { λ s pieces. symbol_model s ≡ symbol_of pieces };

    ghost fault_in = { symbol_fault };

    #[tactic(auto, unfolding(proto_wire::specs::Messages::field_values))]
    fn blank(alloc: Global) -> SymbolInfo {
        SymbolInfo {
            symbol: String::new(alloc),
            display_name: String::new(alloc),
        }
    }

    fn decode_record(
        &mut self,
        alloc: Global,
        wire: &WireRecord,
        payload: &[u8],
    ) -> Result<(), WireFault> {
        decode_text(alloc, 1, &mut self.symbol, wire, payload)?;
        decode_text(alloc, 6, &mut self.display_name, wire, payload)?;
        Ok(())
    }
}

impl Message for Document {
    ghost means = { λ d pieces. document_model d ≡ document_of pieces };

    ghost fault_in = { document_fault };

    #[tactic(auto, unfolding(proto_wire::specs::Messages::field_values))]
    fn blank(alloc: Global) -> Document {
        Document {
            relative_path: String::new(alloc),
            occurrences: Vec::new(alloc),
            symbols: Vec::new(alloc),
            language: String::new(alloc),
            position_encoding: 0,
        }
    }

    fn decode_record(
        &mut self,
        alloc: Global,
        wire: &WireRecord,
        payload: &[u8],
    ) -> Result<(), WireFault> {
        decode_text(alloc, 1, &mut self.relative_path, wire, payload)?;
        decode_messages(alloc, 2, &mut self.occurrences, wire, payload)?;
        decode_messages(alloc, 3, &mut self.symbols, wire, payload)?;
        decode_text(alloc, 4, &mut self.language, wire, payload)?;
        decode_number(6, &mut self.position_encoding, wire);
        Ok(())
    }
}

impl Message for ToolInfo {
    ghost means = { λ t pieces. tool_model t ≡ tool_of pieces };

    ghost fault_in = { tool_fault };

    #[tactic(auto, unfolding(proto_wire::specs::Messages::field_values))]
    fn blank(alloc: Global) -> ToolInfo {
        ToolInfo {
            name: String::new(alloc),
            version: String::new(alloc),
            arguments: Vec::new(alloc),
        }
    }

    fn decode_record(
        &mut self,
        alloc: Global,
        wire: &WireRecord,
        payload: &[u8],
    ) -> Result<(), WireFault> {
        decode_text(alloc, 1, &mut self.name, wire, payload)?;
        decode_text(alloc, 2, &mut self.version, wire, payload)?;
        decode_texts(alloc, 3, &mut self.arguments, wire, payload)?;
        Ok(())
    }
}

impl Message for Metadata {
    ghost means = { λ m pieces. metadata_model m ≡ metadata_of pieces };

    ghost fault_in = { metadata_fault };

    #[tactic(auto, unfolding(proto_wire::specs::Messages::field_values))]
    fn blank(alloc: Global) -> Metadata {
        Metadata {
            version: 0,
            tool_info: None,
            project_root: String::new(alloc),
            text_document_encoding: 0,
        }
    }

    fn decode_record(
        &mut self,
        alloc: Global,
        wire: &WireRecord,
        payload: &[u8],
    ) -> Result<(), WireFault> {
        decode_number(1, &mut self.version, wire);
        merge_message(alloc, 2, &mut self.tool_info, wire, payload)?;
        decode_text(alloc, 3, &mut self.project_root, wire, payload)?;
        decode_number(4, &mut self.text_document_encoding, wire);
        Ok(())
    }
}

impl Message for Index {
    ghost means = { λ i pieces. index_model i ≡ index_of pieces };

    ghost fault_in = { index_fault };

    #[tactic(auto, unfolding(proto_wire::specs::Messages::field_values))]
    fn blank(alloc: Global) -> Index {
        Index {
            metadata: None,
            documents: Vec::new(alloc),
            external_symbols: Vec::new(alloc),
        }
    }

    fn decode_record(
        &mut self,
        alloc: Global,
        wire: &WireRecord,
        payload: &[u8],
    ) -> Result<(), WireFault> {
        merge_message(alloc, 1, &mut self.metadata, wire, payload)?;
        decode_messages(alloc, 2, &mut self.documents, wire, payload)?;
        decode_messages(alloc, 3, &mut self.external_symbols, wire, payload)?;
        Ok(())
    }
}

/// Decodes an index. The contract of `from_bytes` follows from this one.
fn decode_index(alloc: Global, bytes: &[u8]) -> Result<Index, WireFault>
    ensures clean { OnOk result (fault_of index_fault 0 bytes.now ≡ None) }
    ensures means { IfOk result (λ i. index_model i ≡ index_of (payload_records 0 bytes.now).0) }
    ensures err { IfErr result (λ e. IsFaultOrMemory e (fault_of index_fault 0 bytes.now)) }
{
    read_message(alloc, 0, bytes)
}

/// Decodes the index that the bytes encode (scip.proto; Protocol Buffers encoding).
/// Fields come in any order. Of several records of a number or a string the last one counts; several records of a singular message are
/// merged. Ranges are packed or not. Unknown fields, and fields with another wire type, are skipped.
/// Fails with the first fault of the bytes, with the offset of its record's key in bytes from 0: `Truncated`, `LongVarint`, `ZeroField`,
/// `Group` or `BadText`. A record's own fault comes before the faults inside it, and these before the next record's.
/// Fails with `Memory` if an allocation fails.
pub fn from_bytes(alloc: Global, bytes: &[u8]) -> Result<Index, WireFault>
    // The result is the index that the bytes encode, or their first fault, or `Memory`.
    ensures exact { HasOutcome index_model result (IsIndexOutcome bytes.now) }
    // Each outcome of the bytes, an index or a first fault, is the result, unless the result is `Memory`.
    ensures only { (o : Result IndexModel WireFault) → IsIndexOutcome bytes.now o → HasOutcome index_model result (λ p. p ≡ o) }
{
    decode_index(alloc, bytes)
}
