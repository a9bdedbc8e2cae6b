//! Lookups in the bytes of a message: they walk its records, build no message and copy nothing.
//! A wrong record ends a walk, so the bytes should be validated first. For any bytes a lookup considers the records before the first wrong
//! one.
ghost use Rattle.std.specs.Prelude.{◌≡◌, ◌<◌, ◌≤◌, ◌+◌, ◌^◌, ◌∷◌, [], pos, FitsSigned, IfNone, IfOk, IfSome, OnOk, length};
ghost use Rattle.std.specs.Int.{w32};
ghost use Rattle.proto_wire.specs.MessageBytes.{records_of, IsRecordBefore};
ghost use Rattle.proto_wire.specs.Messages.{bytes_in, field_values, if_field, latest, value_number, number_in, numbers_in, payload_record, nested_records};

use crate::field::{append_field_numbers, varint_to_int32};
use crate::record::{WireRecord, WireValue, read_compact_record, read_record};
use std::alloc::AllocError;

/// The bytes of a message, and the offset of the first byte in the whole input.
#[derive(Clone, Copy)]
pub struct MessageBytes<'a> {
    pub start: usize,
    pub bytes: &'a [u8],
}

/// Reads the next record and removes it from `rest`. Returns it with its payload, or `None` at the end or at a wrong record.
#[inline(always)]
fn next_record<'a>(rest: &mut MessageBytes<'a>) -> Option<(WireRecord, &'a [u8])>
    requires { rest.old.start + length rest.old.bytes.now < 2 ^ 64 }
    ensures none { IfNone result (records_of rest.old ≡ []) }
    ensures some { IfSome result (λ x. records_of rest.old ≡ payload_record x.0 x.1.now ∷ records_of rest.new) }
    ensures shorter { IfSome result (λ _. length rest.new.bytes.now < length rest.old.bytes.now) }
    ensures within { rest.new.start + length rest.new.bytes.now ≡ rest.old.start + length rest.old.bytes.now }
    ensures inside { IfSome result (λ x. x.0.body + length x.1.now ≤ rest.old.start + length rest.old.bytes.now) }
{
    if rest.bytes.is_empty() {
        return None;
    }
    match read_record(rest.start, rest.bytes) {
        Err(_) => None,
        Ok((wire, payload, after)) => {
            rest.start += rest.bytes.len() - after.len();
            rest.bytes = after;
            Some((wire, payload))
        }
    }
}

/// Reads the next record and removes it from `rest`, if its key takes one byte, and its number or length takes one byte too. Most records
/// have this form. Returns the record with its payload, or `None` for a record of another form.
#[inline(always)]
pub fn next_compact_record<'a>(rest: &mut MessageBytes<'a>) -> Option<(WireRecord, &'a [u8])>
    // Offsets fit 64 bits.
    requires { rest.old.start + length rest.old.bytes.now < 2 ^ 64 }
    // The result is the first record, and the rest has the other records and their fault.
    ensures first { IfSome result (λ x. IsRecordBefore rest.old rest.new (payload_record x.0 x.1.now)) }
    // The end of the rest is unchanged.
    ensures within { rest.new.start + length rest.new.bytes.now ≡ rest.old.start + length rest.old.bytes.now }
{
    let (wire, payload, after) = read_compact_record(rest.start, rest.bytes)?;
    rest.start += rest.bytes.len() - after.len();
    rest.bytes = after;
    Some((wire, payload))
}

/// The bytes of the message in a record, if the record is of this field.
#[tactic(auto, unfolding(crate::specs::Messages::if_field))]
fn nested_message<'a>(field: u32, wire: &WireRecord, payload: &'a [u8]) -> Option<MessageBytes<'a>>
    ensures none { IfNone result (if_field field wire.now (nested_records (payload_record wire.now payload.now)) ≡ []) }
    ensures some { IfSome result (λ m. if_field field wire.now (nested_records (payload_record wire.now payload.now)) ≡ records_of m ∷ []) }
    ensures here { IfSome result (λ m. m.start + length m.bytes.now ≡ wire.now.body + length payload.now) }
{
    if wire.field != field {
        return None;
    }
    match wire.value {
        WireValue::Bytes(_) => Some(MessageBytes {
            start: wire.body,
            bytes: payload,
        }),
        WireValue::Varint(_) | WireValue::Eight | WireValue::Four => None,
    }
}

/// The payload of a record, if the record is of this field and has one, and otherwise `last`.
#[tactic(auto, unfolding(crate::specs::Messages::if_field))]
fn bytes_or_last<'a>(field: u32, last: &'a [u8], wire: &WireRecord, payload: &'a [u8]) -> &'a [u8]
    ensures { result.now ≡ latest last.now (if_field field wire.now (bytes_in (payload_record wire.now payload.now))) }
{
    if wire.field != field {
        return last;
    }
    match wire.value {
        WireValue::Bytes(_) => payload,
        WireValue::Varint(_) | WireValue::Eight | WireValue::Four => last,
    }
}

/// The number of a record, if the record is of this field and has one, and otherwise `last`.
#[tactic(auto, unfolding(crate::specs::Messages::if_field))]
fn number_or_last(field: u32, last: i32, wire: &WireRecord) -> i32
    ensures exact { result ≡ latest last (if_field field wire.now (value_number wire.now.value)) }
    ensures fits { FitsSigned w32 result }
{
    if wire.field != field {
        return last;
    }
    match wire.value {
        WireValue::Varint(number) => varint_to_int32(number),
        WireValue::Bytes(_) | WireValue::Eight | WireValue::Four => last,
    }
}

/// Returns the next message of this field, and removes its record and the records before it from `rest`. `None` if no message of this
/// field is left.
pub fn next_message<'a>(field: u32, rest: &mut MessageBytes<'a>) -> Option<MessageBytes<'a>>
    // Offsets fit 64 bits.
    requires { rest.old.start + length rest.old.bytes.now < 2 ^ 64 }
    // Without a result there is no further message of this field.
    ensures none { IfNone result (field_values field nested_records (records_of rest.old) ≡ []) }
    // The result is the first message of this field, and the rest has the other messages.
    ensures some { IfSome result (λ m. field_values field nested_records (records_of rest.old) ≡ records_of m ∷ field_values field nested_records (records_of rest.new)) }
    // With a result the rest is shorter.
    ensures shorter { IfSome result (λ _. length rest.new.bytes.now < length rest.old.bytes.now) }
    // The end of the rest is unchanged.
    ensures within { rest.new.start + length rest.new.bytes.now ≡ rest.old.start + length rest.old.bytes.now }
    // The result ends within the rest before the call.
    ensures inside { IfSome result (λ m. m.start + length m.bytes.now ≤ rest.old.start + length rest.old.bytes.now) }
{
    while let Some((wire, payload)) = next_record(rest) {
        if let Some(message) = nested_message(field, &wire, payload) {
            return Some(message);
        }
    }
    None
}

/// Returns the next message of `field`, as `next_message` does, and the last payload of `bytes_field` in the records that are removed from
/// `rest`, or `before` if they have none.
/// One pass replaces two. If no message of `field` is left, all records are removed.
pub fn next_message_and_last_bytes<'a>(
    field: u32,
    bytes_field: u32,
    before: &'a [u8],
    rest: &mut MessageBytes<'a>,
) -> (Option<MessageBytes<'a>>, &'a [u8])
    // Offsets fit 64 bits.
    requires { rest.old.start + length rest.old.bytes.now < 2 ^ 64 }
    // Without a result there is no further message of this field.
    ensures none { IfNone result.0 (field_values field nested_records (records_of rest.old) ≡ []) }
    // The result is the first message of this field, and the rest has the other messages.
    ensures some { IfSome result.0 (λ m. field_values field nested_records (records_of rest.old) ≡ records_of m ∷ field_values field nested_records (records_of rest.new)) }
    // Without a message the payload is the last one of all removed records, or `before`.
    ensures whole { IfNone result.0 (latest before.now (field_values bytes_field bytes_in (records_of rest.old)) ≡ result.1.now) }
    // With a message the payload is the last one of the removed records, or `before`.
    ensures so_far { IfSome result.0 (λ _. latest before.now (field_values bytes_field bytes_in (records_of rest.old)) ≡ latest result.1.now (field_values bytes_field bytes_in (records_of rest.new))) }
    // With a result the rest is shorter.
    ensures shorter { IfSome result.0 (λ _. length rest.new.bytes.now < length rest.old.bytes.now) }
    // The end of the rest is unchanged.
    ensures within { rest.new.start + length rest.new.bytes.now ≡ rest.old.start + length rest.old.bytes.now }
    // The result ends within the rest before the call.
    ensures inside { IfSome result.0 (λ m. m.start + length m.bytes.now ≤ rest.old.start + length rest.old.bytes.now) }
{
    let mut last = before;
    while let Some((wire, payload)) = next_record(rest) {
        last = bytes_or_last(bytes_field, last, &wire, payload);
        if let Some(message) = nested_message(field, &wire, payload) {
            return (Some(message), last);
        }
    }
    (None, last)
}

/// The last payload of this field; empty if there is none.
pub fn last_bytes<'a>(field: u32, message: MessageBytes<'a>) -> &'a [u8]
    // Offsets fit 64 bits.
    requires { message.start + length message.bytes.now < 2 ^ 64 }
    // The result is the last payload of the field, or is empty.
    ensures { result.now ≡ latest [] (field_values field bytes_in (records_of message.entry)) }
{
    let mut rest = message;
    let mut last: &[u8] = &[];
    while let Some((wire, payload)) = next_record(&mut rest) {
        last = bytes_or_last(field, last, &wire, payload);
    }
    last
}

/// The last number of this field; 0 if there is none.
pub fn last_number(field: u32, message: MessageBytes<'_>) -> i32
    // Offsets fit 64 bits.
    requires { message.start + length message.bytes.now < 2 ^ 64 }
    // The result is the last number of the field, or 0.
    ensures { result ≡ latest (pos 0) (field_values field number_in (records_of message.entry)) }
{
    let mut rest = message;
    let mut last = 0;
    while let Some((wire, _)) = next_record(&mut rest) {
        last = number_or_last(field, last, &wire);
    }
    last
}

/// The last payload of one field, or empty bytes, and the last number of another field, or 0, in one pass.
pub fn last_bytes_and_number<'a>(
    text_field: u32,
    number_field: u32,
    message: MessageBytes<'a>,
) -> (&'a [u8], i32)
    // Offsets fit 64 bits.
    requires { message.start + length message.bytes.now < 2 ^ 64 }
    // The first result is the last payload of its field, or is empty.
    ensures text { result.0.now ≡ latest [] (field_values text_field bytes_in (records_of message.entry)) }
    // The second result is the last number of its field, or 0.
    ensures number { result.1 ≡ latest (pos 0) (field_values number_field number_in (records_of message.entry)) }
{
    let mut rest = message;
    let mut text: &[u8] = &[];
    let mut number = 0;
    while let Some((wire, payload)) = next_record(&mut rest) {
        text = bytes_or_last(text_field, text, &wire, payload);
        number = number_or_last(number_field, number, &wire);
    }
    (text, number)
}

/// Replaces the content of `numbers` by the numbers of this repeated field, packed or not. A payload that isn't a sequence of varints has
/// none.
/// Fails with `AllocError` if an allocation fails. Some numbers may then be in the list.
pub fn read_field_numbers(
    field: u32,
    message: MessageBytes<'_>,
    numbers: &mut Vec<i32>,
) -> Result<(), AllocError>
    // Offsets fit 64 bits.
    requires { message.start + length message.bytes.now < 2 ^ 64 }
    // With `Ok` the list has exactly the numbers of the field, in order.
    ensures { OnOk result (numbers.new.items ≡ field_values field numbers_in (records_of message.entry)) }
{
    let mut rest = message;
    numbers.clear();
    while let Some((wire, payload)) = next_record(&mut rest) {
        append_field_numbers(field, numbers, &wire, payload)?;
    }
    Ok(())
}

/// The last payload of one field, or empty bytes. Replaces the content of `numbers` by the numbers of another field, as
/// `read_field_numbers` does, in one pass.
pub fn last_bytes_and_numbers<'a>(
    text_field: u32,
    numbers_field: u32,
    message: MessageBytes<'a>,
    numbers: &mut Vec<i32>,
) -> Result<&'a [u8], AllocError>
    // Offsets fit 64 bits.
    requires { message.start + length message.bytes.now < 2 ^ 64 }
    // The first result is the last payload of its field, or is empty.
    ensures text { IfOk result (λ text. text.now ≡ latest [] (field_values text_field bytes_in (records_of message.entry))) }
    // With `Ok` the list has exactly the numbers of the field, in order.
    ensures numbers { OnOk result (numbers.new.items ≡ field_values numbers_field numbers_in (records_of message.entry)) }
{
    let mut rest = message;
    let mut text: &[u8] = &[];
    numbers.clear();
    while let Some((wire, payload)) = next_record(&mut rest) {
        text = bytes_or_last(text_field, text, &wire, payload);
        append_field_numbers(numbers_field, numbers, &wire, payload)?;
    }
    Ok(text)
}
