//! Checks whether bytes encode an index: validates each message record by record, and builds none.
ghost use Rattle.std.specs.Prelude.{◌≡◌, ◌+◌, ◌<◌, ◌^◌, length, true, IfErr, OnOk, None};
ghost use Rattle.proto_wire.specs.Faults.{IsFaultOrMemory, UnlessMemory};
ghost use Rattle.proto_wire.specs.Messages.{fault_of, field_fault, message_fault, payload_record, IsFirstFault};
ghost use Rattle.proto_wire.specs.Readings.{payload_records};
ghost use Rattle.scip_index.specs.Meaning.{document_fault, index_fault, index_of, metadata_fault, occurrence_fault, symbol_fault, tool_fault, Means};

use proto_wire::{
    Message, MessageBytes, WireFault, WireRecord, check_message, check_numbers, check_text,
    next_compact_record, read_message,
};
use std::alloc::Global;

/// An `Occurrence` that is validated and not built.
#[derive(Drop)]
struct CheckedOccurrence;

impl Message for CheckedOccurrence {
    ghost means = { λ _ _. Unit {0} };

    ghost fault_in = { occurrence_fault };

    fn blank(_alloc: Global) -> CheckedOccurrence {
        CheckedOccurrence
    }

    fn decode_record(
        &mut self,
        _alloc: Global,
        wire: &WireRecord,
        payload: &[u8],
    ) -> Result<(), WireFault> {
        check_numbers(1, wire, payload)?;
        check_text(2, wire, payload)?;
        check_numbers(7, wire, payload)
    }
}

/// The number of records after its range and its symbol from which `is_simple_valid_occurrence` doesn't accept an occurrence.
const MAX_EXTRA: usize = 4;

/// Whether the rest of an occurrence is fewer than `MAX_EXTRA` records without a fault, none of them a range or a symbol. Each has a key of
/// one byte, and a number or length of one byte. With `false` the rest may still have no fault.
fn is_simple_valid_rest(left: MessageBytes<'_>) -> bool
    requires { left.start + length left.bytes.now < 2 ^ 64 }
    ensures { result ≡ true → fault_of occurrence_fault left.entry.start left.entry.bytes.now ≡ None }
{
    let mut rest = left;
    for _ in 0..MAX_EXTRA {
        if rest.bytes.is_empty() {
            return true;
        }
        let Some((wire, payload)) = next_compact_record(&mut rest) else {
            return false;
        };
        if wire.field < 3 || check_numbers(7, &wire, payload).is_err() {
            return false;
        }
    }
    false
}

/// Whether an occurrence has no fault and is a range, a symbol and fewer than `MAX_EXTRA` other records, each with a key and a number or
/// length of one byte. With `false` it may still have no fault.
/// Most producers write occurrences in this form, and it is validated faster than the general form.
fn is_simple_valid_occurrence(occurrence: MessageBytes<'_>) -> bool
    requires { occurrence.start + length occurrence.bytes.now < 2 ^ 64 }
    ensures { result ≡ true → fault_of occurrence_fault occurrence.entry.start occurrence.entry.bytes.now ≡ None }
{
    let mut rest = occurrence;
    let Some((range, numbers)) = next_compact_record(&mut rest) else {
        return false;
    };
    let Some((symbol, text)) = next_compact_record(&mut rest) else {
        return false;
    };
    if range.field != 1 || symbol.field != 2 || !is_simple_valid_rest(rest) {
        return false;
    }
    check_numbers(1, &range, numbers).is_ok() && check_text(2, &symbol, text).is_ok()
}

/// Validates the occurrence in a record of a document, if the record has one. Fails with the occurrence's first fault.
fn check_occurrence(alloc: Global, wire: &WireRecord, payload: &[u8]) -> Result<(), WireFault>
    requires { wire.now.body + length payload.now < 2 ^ 64 }
    ensures clean { let p = payload_record wire.now payload.now in OnOk result (field_fault 2 wire.now (message_fault occurrence_fault p) ≡ None) }
    ensures err { let p = payload_record wire.now payload.now in IfErr result (λ e. IsFaultOrMemory e (field_fault 2 wire.now (message_fault occurrence_fault p))) }
{
    let occurrence = MessageBytes {
        start: wire.body,
        bytes: payload,
    };
    if wire.field == 2 && is_simple_valid_occurrence(occurrence) {
        return Ok(());
    }
    check_message::<CheckedOccurrence>(alloc, 2, wire, payload)
}

/// A `SymbolInfo` that is validated and not built.
#[derive(Drop)]
struct CheckedSymbol;

impl Message for CheckedSymbol {
    ghost means = { λ _ _. Unit {0} };

    ghost fault_in = { symbol_fault };

    fn blank(_alloc: Global) -> CheckedSymbol {
        CheckedSymbol
    }

    fn decode_record(
        &mut self,
        _alloc: Global,
        wire: &WireRecord,
        payload: &[u8],
    ) -> Result<(), WireFault> {
        check_text(1, wire, payload)?;
        check_text(6, wire, payload)
    }
}

/// A `Document` that is validated and not built.
#[derive(Drop)]
struct CheckedDocument;

impl Message for CheckedDocument {
    ghost means = { λ _ _. Unit {0} };

    ghost fault_in = { document_fault };

    fn blank(_alloc: Global) -> CheckedDocument {
        CheckedDocument
    }

    fn decode_record(
        &mut self,
        alloc: Global,
        wire: &WireRecord,
        payload: &[u8],
    ) -> Result<(), WireFault> {
        // the later fields have nothing to validate
        if wire.field > 4 {
            return Ok(());
        }
        check_text(1, wire, payload)?;
        check_occurrence(alloc, wire, payload)?;
        check_message::<CheckedSymbol>(alloc, 3, wire, payload)?;
        check_text(4, wire, payload)
    }
}

/// A `ToolInfo` that is validated and not built.
#[derive(Drop)]
struct CheckedTool;

impl Message for CheckedTool {
    ghost means = { λ _ _. Unit {0} };

    ghost fault_in = { tool_fault };

    fn blank(_alloc: Global) -> CheckedTool {
        CheckedTool
    }

    fn decode_record(
        &mut self,
        _alloc: Global,
        wire: &WireRecord,
        payload: &[u8],
    ) -> Result<(), WireFault> {
        check_text(1, wire, payload)?;
        check_text(2, wire, payload)?;
        check_text(3, wire, payload)
    }
}

/// A `Metadata` that is validated and not built.
#[derive(Drop)]
struct CheckedMetadata;

impl Message for CheckedMetadata {
    ghost means = { λ _ _. Unit {0} };

    ghost fault_in = { metadata_fault };

    fn blank(_alloc: Global) -> CheckedMetadata {
        CheckedMetadata
    }

    fn decode_record(
        &mut self,
        alloc: Global,
        wire: &WireRecord,
        payload: &[u8],
    ) -> Result<(), WireFault> {
        check_message::<CheckedTool>(alloc, 2, wire, payload)?;
        check_text(3, wire, payload)
    }
}

/// An `Index` that is validated and not built.
#[derive(Drop)]
struct CheckedIndex;

impl Message for CheckedIndex {
    ghost means = { λ _ _. Unit {0} };

    ghost fault_in = { index_fault };

    fn blank(_alloc: Global) -> CheckedIndex {
        CheckedIndex
    }

    fn decode_record(
        &mut self,
        alloc: Global,
        wire: &WireRecord,
        payload: &[u8],
    ) -> Result<(), WireFault> {
        check_message::<CheckedMetadata>(alloc, 1, wire, payload)?;
        check_message::<CheckedDocument>(alloc, 2, wire, payload)?;
        check_message::<CheckedSymbol>(alloc, 3, wire, payload)
    }
}

/// Validates the bytes. The contract of `check` follows from this one.
fn check_index(alloc: Global, bytes: &[u8]) -> Result<(), WireFault>
    ensures clean { OnOk result (fault_of index_fault 0 bytes.now ≡ None) }
    ensures err { IfErr result (λ e. IsFaultOrMemory e (fault_of index_fault 0 bytes.now)) }
{
    let _index: CheckedIndex = read_message(alloc, 0, bytes)?;
    Ok(())
}

/// Checks that the bytes encode an index, without building it. Allocates nothing.
/// Fails with the first fault of the bytes, as `from_bytes` does.
pub fn check(alloc: Global, bytes: &[u8]) -> Result<(), WireFault>
    // With `Ok` the bytes encode the index that their records determine.
    ensures means { OnOk result (Means bytes.now (index_of (payload_records 0 bytes.now).0)) }
    // An error is the first fault of the bytes, or `Memory`.
    ensures fault { IfErr result (λ e. UnlessMemory e (IsFirstFault index_fault 0 bytes.now e)) }
{
    check_index(alloc, bytes)
}
