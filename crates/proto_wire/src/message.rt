//! The decoding of messages, record by record.
ghost use Rattle.std.specs.Prelude.{◌≡◌, ◌<◌, ◌+◌, ◌^◌, ◌++◌, ◌∷◌, [], List, Option, None, length, OnOk, OnErr, IfOk, IfErr};
ghost use Rattle.proto_wire.specs.declared.fault.WireFault.{WireFault};
ghost use Rattle.proto_wire.specs.Faults.{IsFaultOrMemory};
ghost use Rattle.proto_wire.specs.Records.{PayloadRecord};
ghost use Rattle.proto_wire.specs.Readings.{payload_records};
ghost use Rattle.proto_wire.specs.Messages.{AddsMessages, IsMerged, if_field, field_fault, fault_of, message_fault, nested_records, payload_record};

use crate::fault::WireFault;
use crate::record::{WireRecord, WireValue, read_record};
use std::alloc::Global;

/// A message that is decoded one record at a time. If bytes are merged into a message, their records follow the records that it was decoded
/// from.
pub trait Message {
    /// The message is the one that these records encode.
    ghost means: { Self → List PayloadRecord → Type 0 };

    /// The first fault inside a record.
    ghost fault_in: { PayloadRecord → Option WireFault };

    /// The message that no records encode: each field has its default.
    fn blank(alloc: Global) -> Self
        ensures { means result [] };

    /// Decodes a record and its payload into the message. Fails with the first fault inside the record, and with `Memory` if an allocation
    /// fails. The message is then unspecified.
    fn decode_record(
        &mut self,
        alloc: Global,
        wire: &WireRecord,
        payload: &[u8],
    ) -> Result<(), WireFault>
        requires { wire.now.body + length payload.now < 2 ^ 64 }
        ensures clean { OnOk result (fault_in (payload_record wire.now payload.now) ≡ None) }
        ensures means { OnOk result ((front : List PayloadRecord) → means self.old front → means self.new (front ++ payload_record wire.now payload.now ∷ [])) }
        ensures err { IfErr result (λ e. IsFaultOrMemory e (fault_in (payload_record wire.now payload.now))) };
}

/// Decodes all records of the bytes, which begin at offset `start` of the whole input, into the message.
/// Fails with the first fault of the bytes, and with `Memory` if an allocation fails. The fault of a record itself comes before the faults
/// inside it. After an error the message is unspecified.
fn decode_into<M: Message>(
    alloc: Global,
    message: &mut M,
    start: usize,
    bytes: &[u8],
) -> Result<(), WireFault>
    requires { start + length bytes.now < 2 ^ 64 }
    ensures clean { OnOk result (fault_of M.fault_in start bytes.now ≡ None) }
    ensures means { OnOk result ((front : List PayloadRecord) → M.means message.old front → M.means message.new (front ++ (payload_records start bytes.now).0)) }
    ensures err { IfErr result (λ e. IsFaultOrMemory e (fault_of M.fault_in start bytes.now)) }
{
    let mut at = start;
    let mut rest = bytes;
    while !rest.is_empty() {
        let (wire, payload, after) = read_record(at, rest)?;
        message.decode_record(alloc, &wire, payload)?;
        at += rest.len() - after.len();
        rest = after;
    }
    Ok(())
}

/// Decodes the message that the bytes encode, which begin at offset `start` of the whole input. Fails with the first fault of the bytes,
/// and with `Memory` if an allocation fails.
pub fn read_message<M: Message + Drop>(
    alloc: Global,
    start: usize,
    bytes: &[u8],
) -> Result<M, WireFault>
    // Offsets fit 64 bits.
    requires { start + length bytes.now < 2 ^ 64 }
    // With `Ok` there is no fault.
    ensures clean { OnOk result (fault_of M.fault_in start bytes.now ≡ None) }
    // With `Ok` the result is what the records encode.
    ensures means { IfOk result (λ m. M.means m (payload_records start bytes.now).0) }
    // The error is the first fault, or `Memory`.
    ensures err { IfErr result (λ e. IsFaultOrMemory e (fault_of M.fault_in start bytes.now)) }
{
    let mut message = M::blank(alloc);
    decode_into(alloc, &mut message, start, bytes)?;
    Ok(message)
}

/// Appends the message in the record, if the record is of this repeated field. A record of another field or wire type has none.
/// Fails with the first fault of the message, and with `Memory` if an allocation fails. The list is then unchanged.
#[tactic(auto, unfolding(crate::specs::Messages::if_field, crate::specs::Messages::field_fault))]
pub fn decode_messages<M: Message + Drop>(
    alloc: Global,
    field: u32,
    messages: &mut Vec<M>,
    wire: &WireRecord,
    payload: &[u8],
) -> Result<(), WireFault>
    // Offsets fit 64 bits.
    requires { wire.now.body + length payload.now < 2 ^ 64 }
    // With `Ok` there is no fault.
    ensures clean { let p = payload_record wire.now payload.now in OnOk result (field_fault field wire.now (message_fault M.fault_in p) ≡ None) }
    // With `Ok` the result is what the records encode.
    ensures means { let p = payload_record wire.now payload.now in OnOk result (AddsMessages M.means (if_field field wire.now (nested_records p)) messages.old.items messages.new.items) }
    // The error is the first fault, or `Memory`.
    ensures err { let p = payload_record wire.now payload.now in IfErr result (λ e. IsFaultOrMemory e (field_fault field wire.now (message_fault M.fault_in p))) }
    // After an error the list is unchanged.
    ensures retained { OnErr result (messages.new.items ≡ messages.old.items) }
{
    if wire.field != field {
        return Ok(());
    }
    if let WireValue::Bytes(_) = wire.value {
        let message = read_message(alloc, wire.body, payload)?;
        messages.push(message)?;
    }
    Ok(())
}

/// Validates the message in the record if the record is of this field, and fails as `decode_messages` does. Stores no message.
#[tactic(auto, unfolding(crate::specs::Messages::field_fault))]
pub fn check_message<M: Message + Drop>(
    alloc: Global,
    field: u32,
    wire: &WireRecord,
    payload: &[u8],
) -> Result<(), WireFault>
    // Offsets fit 64 bits.
    requires { wire.now.body + length payload.now < 2 ^ 64 }
    // With `Ok` there is no fault.
    ensures clean { let p = payload_record wire.now payload.now in OnOk result (field_fault field wire.now (message_fault M.fault_in p) ≡ None) }
    // The error is the first fault, or `Memory`.
    ensures err { let p = payload_record wire.now payload.now in IfErr result (λ e. IsFaultOrMemory e (field_fault field wire.now (message_fault M.fault_in p))) }
{
    if wire.field != field {
        return Ok(());
    }
    if let WireValue::Bytes(_) = wire.value {
        let _message: M = read_message(alloc, wire.body, payload)?;
    }
    Ok(())
}

/// Merges the message in the record into the present one, if the record is of this singular field. A record of another field or wire type
/// changes nothing.
/// Fails with the first fault of the message, and with `Memory` if an allocation fails. The message is then `None`.
#[tactic(auto, unfolding(crate::specs::Messages::if_field, crate::specs::Messages::field_fault))]
pub fn merge_message<M: Message + Drop>(
    alloc: Global,
    field: u32,
    message: &mut Option<M>,
    wire: &WireRecord,
    payload: &[u8],
) -> Result<(), WireFault>
    // Offsets fit 64 bits.
    requires { wire.now.body + length payload.now < 2 ^ 64 }
    // With `Ok` there is no fault.
    ensures clean { let p = payload_record wire.now payload.now in OnOk result (field_fault field wire.now (message_fault M.fault_in p) ≡ None) }
    // With `Ok` the result is what the records encode.
    ensures means { let p = payload_record wire.now payload.now in OnOk result ((front : List (List PayloadRecord)) → IsMerged M.means message.old front → IsMerged M.means message.new (front ++ if_field field wire.now (nested_records p))) }
    // The error is the first fault, or `Memory`.
    ensures err { let p = payload_record wire.now payload.now in IfErr result (λ e. IsFaultOrMemory e (field_fault field wire.now (message_fault M.fault_in p))) }
{
    if wire.field != field {
        return Ok(());
    }
    if let WireValue::Bytes(_) = wire.value {
        let mut merged = match message.take() {
            Some(there) => there,
            None => M::blank(alloc),
        };
        decode_into(alloc, &mut merged, wire.body, payload)?;
        *message = Some(merged);
    }
    Ok(())
}
