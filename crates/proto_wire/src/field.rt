//! The fields of a message, each decoded from one record. Records of other fields or wire types are skipped.
ghost use Rattle.std.specs.Prelude.{◌≡◌, ◌++◌, ◌↔◌, [], ℤ, List, None, Some, Result, OnOk, OnErr, IfErr, length, map, take, true};
ghost use Rattle.proto_wire.specs.declared.fault.WireFault.{WireFault};
ghost use Rattle.proto_wire.specs.declared.fault.WireFault.TheVariants.{Memory};
ghost use Rattle.std.specs.Result.{result_err, result_unwrap_or};
ghost use Rattle.std.specs.String.{string_bytes};
ghost use Rattle.proto_wire.specs.Faults.{IsFaultOrMemory, HasOutcome};
ghost use Rattle.proto_wire.specs.Packed.{varint_to_int32, packed, IsPackedOutcome};
ghost use Rattle.proto_wire.specs.Messages.{payload_record, latest, if_field, field_fault, value_number, numbers_in, numbers_fault, bytes_in, text_fault};

use crate::fault::WireFault;
use crate::record::{WireRecord, WireValue};
use crate::varint::read_varint;
use std::alloc::{AllocError, Global};

/// The low 32 bits of a varint's number, as a signed number (Protocol Buffers encoding, `varint_to_int32`).
pub(crate) fn varint_to_int32(number: u64) -> i32
    ensures { result ≡ varint_to_int32 number }
{
    ((number % (1 << 32)) as u32).cast_signed()
}

/// Appends the numbers of a packed payload, whose record's key is at offset `at`. After an error some numbers may be appended.
fn decode_packed_into(numbers: &mut Vec<i32>, payload: &[u8], at: usize) -> Result<(), WireFault>
    ensures clean { OnOk result (result_err (packed at payload.now) ≡ None) }
    ensures numbers { OnOk result (numbers.new.items ≡ numbers.old.items ++ result_unwrap_or (packed at payload.now) []) }
    ensures err { IfErr result (λ e. IsFaultOrMemory e (result_err (packed at payload.now))) }
    ensures retained { take (length numbers.old.items) numbers.new.items ≡ numbers.old.items }
{
    let mut rest = payload;
    while !rest.is_empty() {
        let (number, after) = read_varint(at, rest)?;
        numbers.push(varint_to_int32(number))?;
        rest = after;
    }
    Ok(())
}

/// Decodes a packed payload whose record's key is at offset `at` (Protocol Buffers encoding, "Packed Repeated Fields"). A number is the low
/// 32 bits of a varint.
/// Fails with `Truncated` or `LongVarint`, with the offset `at`, and with `Memory` if an allocation fails.
pub fn packed_values(alloc: Global, payload: &[u8], at: usize) -> Result<Vec<i32>, WireFault>
    // The result is the list of numbers of the payload, or the fault of its first wrong varint, or `Memory`.
    ensures exact { HasOutcome (λ v. v.items) result (IsPackedOutcome at payload.now) }
    // Each outcome of the payload, a list of numbers or a fault, is the result, unless the result is `Memory`.
    ensures only { (o : Result (List ℤ) WireFault) → IsPackedOutcome at payload.now o → HasOutcome (λ v. v.items) result (λ p. p ≡ o) }
{
    let mut numbers = Vec::new(alloc);
    decode_packed_into(&mut numbers, payload, at)?;
    Ok(numbers)
}

/// Appends the numbers of the record, packed or not, if the record is of this repeated field.
/// Fails with `Truncated` or `LongVarint`, with the offset of the record's key, and with `Memory` if an allocation fails. Some numbers may
/// then be appended.
#[tactic(auto, unfolding(crate::specs::Messages::if_field, crate::specs::Messages::field_fault))]
pub fn decode_numbers(
    field: u32,
    numbers: &mut Vec<i32>,
    wire: &WireRecord,
    payload: &[u8],
) -> Result<(), WireFault>
    // With `Ok` a record of this field has no fault.
    ensures clean { let p = payload_record wire.now payload.now in OnOk result (field_fault field wire.now (numbers_fault p) ≡ None) }
    // With `Ok` the numbers of a record of this field are appended.
    ensures numbers { let p = payload_record wire.now payload.now in OnOk result (numbers.new.items ≡ numbers.old.items ++ if_field field wire.now (numbers_in p)) }
    // The error is the fault of the record, or `Memory`.
    ensures err { let p = payload_record wire.now payload.now in IfErr result (λ e. IsFaultOrMemory e (field_fault field wire.now (numbers_fault p))) }
    // The earlier numbers are a prefix of the new ones, also after an error.
    ensures retained { take (length numbers.old.items) numbers.new.items ≡ numbers.old.items }
{
    if wire.field != field {
        return Ok(());
    }
    match wire.value {
        WireValue::Varint(number) => {
            numbers.push(varint_to_int32(number))?;
            Ok(())
        }
        WireValue::Bytes(_) => decode_packed_into(numbers, payload, wire.at),
        WireValue::Eight | WireValue::Four => Ok(()),
    }
}

/// Validates a packed payload whose record's key is at offset `at`. Fails with `Truncated` or `LongVarint`, with this offset. Stores no
/// number.
fn check_packed(payload: &[u8], at: usize) -> Result<(), WireFault>
    ensures clean { OnOk result (result_err (packed at payload.now) ≡ None) }
    ensures err { IfErr result (λ e. result_err (packed at payload.now) ≡ Some e) }
{
    let mut rest = payload;
    while !rest.is_empty() {
        let (_, after) = read_varint(at, rest)?;
        rest = after;
    }
    Ok(())
}

/// Validates the numbers of the record if it is of this repeated field, and fails as `decode_numbers` does. Allocates nothing.
#[tactic(auto, unfolding(crate::specs::Messages::field_fault))]
pub fn check_numbers(field: u32, wire: &WireRecord, payload: &[u8]) -> Result<(), WireFault>
    // With `Ok` a record of this field has no fault.
    ensures clean { let p = payload_record wire.now payload.now in OnOk result (field_fault field wire.now (numbers_fault p) ≡ None) }
    // The error is the fault of the record.
    ensures err { let p = payload_record wire.now payload.now in IfErr result (λ e. field_fault field wire.now (numbers_fault p) ≡ Some e) }
{
    if wire.field != field {
        return Ok(());
    }
    match wire.value {
        WireValue::Bytes(_) => check_packed(payload, wire.at),
        WireValue::Varint(_) | WireValue::Eight | WireValue::Four => Ok(()),
    }
}

/// Whether the fault is `Memory`.
fn is_memory_fault(fault: WireFault) -> bool
    ensures { result ≡ true ↔ fault ≡ Memory }
{
    match fault {
        WireFault::Memory => true,
        WireFault::Truncated { .. }
        | WireFault::LongVarint { .. }
        | WireFault::Group { .. }
        | WireFault::ZeroField { .. }
        | WireFault::BadText { .. }
        | WireFault::Device => false,
    }
}

/// Appends the numbers of the record, as `decode_numbers` does, but none of a payload that isn't a sequence of varints.
/// Fails with `AllocError` if an allocation fails. Some numbers may then be appended.
#[tactic(auto, unfolding(crate::specs::Messages::if_field))]
pub(crate) fn append_field_numbers(
    field: u32,
    numbers: &mut Vec<i32>,
    wire: &WireRecord,
    payload: &[u8],
) -> Result<(), AllocError>
    ensures numbers { let p = payload_record wire.now payload.now in OnOk result (numbers.new.items ≡ numbers.old.items ++ if_field field wire.now (numbers_in p)) }
{
    let before = numbers.len();
    match decode_numbers(field, numbers, wire, payload) {
        Ok(()) => Ok(()),
        Err(fault) if is_memory_fault(fault) => Err(AllocError),
        Err(_) => {
            numbers.truncate(before);
            Ok(())
        }
    }
}

/// Stores the number of the record if the record is of this field: the low 32 bits of its varint.
#[tactic(auto, unfolding(crate::specs::Messages::if_field))]
pub fn decode_number(field: u32, number: &mut i32, wire: &WireRecord)
    // The number is that of the record if the record is of this field and has one, and otherwise unchanged.
    ensures { number.new ≡ latest number.old (if_field field wire.now (value_number wire.now.value)) }
{
    if wire.field != field {
        return;
    }
    if let WireValue::Varint(given) = wire.value {
        *number = varint_to_int32(given);
    }
}

/// Validates the string of the record if the record is of this field, and fails as `decode_text` does. Allocates nothing.
#[tactic(auto, unfolding(crate::specs::Messages::field_fault))]
pub fn check_text(field: u32, wire: &WireRecord, payload: &[u8]) -> Result<(), WireFault>
    // With `Ok` a record of this field has no fault.
    ensures clean { let p = payload_record wire.now payload.now in OnOk result (field_fault field wire.now (text_fault p) ≡ None) }
    // The error is the fault of the record.
    ensures err { let p = payload_record wire.now payload.now in IfErr result (λ e. field_fault field wire.now (text_fault p) ≡ Some e) }
{
    if wire.field != field {
        return Ok(());
    }
    if let WireValue::Bytes(_) = wire.value {
        let Ok(_) = std::str::from_utf8(payload) else {
            return Err(WireFault::BadText { at: wire.at });
        };
    }
    Ok(())
}

/// Stores the string of the record if the record is of this field.
/// Fails with `BadText`, with the offset of the record's key, if the payload isn't UTF-8, and with `Memory` if an allocation fails. The
/// string is then unchanged.
#[tactic(auto, unfolding(crate::specs::Messages::if_field, crate::specs::Messages::field_fault))]
pub fn decode_text(
    alloc: Global,
    field: u32,
    text: &mut String,
    wire: &WireRecord,
    payload: &[u8],
) -> Result<(), WireFault>
    // With `Ok` a record of this field has no fault.
    ensures clean { let p = payload_record wire.now payload.now in OnOk result (field_fault field wire.now (text_fault p) ≡ None) }
    // With `Ok` the string is that of the record if the record is of this field and has a payload, and otherwise unchanged.
    ensures text { let p = payload_record wire.now payload.now in OnOk result (string_bytes text.new ≡ latest (string_bytes text.old) (if_field field wire.now (bytes_in p))) }
    // The error is the fault of the record, or `Memory`.
    ensures err { let p = payload_record wire.now payload.now in IfErr result (λ e. IsFaultOrMemory e (field_fault field wire.now (text_fault p))) }
    // After an error nothing is changed.
    ensures retained { OnErr result (string_bytes text.new ≡ string_bytes text.old) }
{
    if wire.field != field {
        return Ok(());
    }
    if let WireValue::Bytes(_) = wire.value {
        let Ok(given) = std::str::from_utf8(payload) else {
            return Err(WireFault::BadText { at: wire.at });
        };
        *text = String::from_str(alloc, given)?;
    }
    Ok(())
}

/// Appends the string of the record if the record is of this repeated field.
/// Fails with `BadText`, with the offset of the record's key, if the payload isn't UTF-8, and with `Memory` if an allocation fails. The
/// list is then unchanged.
#[tactic(auto, unfolding(crate::specs::Messages::if_field, crate::specs::Messages::field_fault))]
pub fn decode_texts(
    alloc: Global,
    field: u32,
    texts: &mut Vec<String>,
    wire: &WireRecord,
    payload: &[u8],
) -> Result<(), WireFault>
    // With `Ok` a record of this field has no fault.
    ensures clean { let p = payload_record wire.now payload.now in OnOk result (field_fault field wire.now (text_fault p) ≡ None) }
    // With `Ok` the string of a record of this field is appended.
    ensures texts { let p = payload_record wire.now payload.now in OnOk result (map string_bytes texts.new.items ≡ map string_bytes texts.old.items ++ if_field field wire.now (bytes_in p)) }
    // The error is the fault of the record, or `Memory`.
    ensures err { let p = payload_record wire.now payload.now in IfErr result (λ e. IsFaultOrMemory e (field_fault field wire.now (text_fault p))) }
    // After an error nothing is changed.
    ensures retained { OnErr result (texts.new.items ≡ texts.old.items) }
{
    if wire.field != field {
        return Ok(());
    }
    if let WireValue::Bytes(_) = wire.value {
        let Ok(given) = std::str::from_utf8(payload) else {
            return Err(WireFault::BadText { at: wire.at });
        };
        let text = String::from_str(alloc, given)?;
        texts.push(text)?;
    }
    Ok(())
}
