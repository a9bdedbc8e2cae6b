//! The reader of wire records (Protocol Buffers encoding, "Message Structure"). A record is a key and a value.
ghost use Rattle.std.specs.Prelude.{◌≡◌, ◌<◌, ◌≤◌, ◌+◌, ◌-◌, ◌^◌, List, Result, length, IfOk, IfSome, Ok};
ghost use Rattle.proto_wire.specs.declared.record.WireRecord.{WireRecord};
ghost use Rattle.proto_wire.specs.declared.fault.WireFault.{WireFault};
ghost use Rattle.proto_wire.specs.Faults.{Matches, HasExactOutcome, HasOutcome};
ghost use Rattle.proto_wire.specs.Records.{IsFirst, IsOutcome};
ghost use Rattle.proto_wire.specs.Readings.{payload_record_view, fixed_in, payload_in, record_in, value_in};

use crate::fault::WireFault;
use crate::varint::read_varint;
use std::alloc::Global;

/// The maximum field number, 2^29 - 1.
const MAX_FIELD: u64 = 536_870_911;

/// The value of a record, by its wire type. The bytes of a value other than a varint aren't stored here.
#[derive(Clone, Copy)]
pub enum WireValue {
    /// Type 0: a varint, modulo 2^64.
    Varint(u64),
    /// Type 1: eight bytes.
    Eight,
    /// Type 2: a payload, by its number of bytes.
    Bytes(usize),
    /// Type 5: four bytes.
    Four,
}

/// A record of a message. Offsets are in bytes from the start of the whole input.
#[derive(Clone, Copy)]
pub struct WireRecord {
    /// The field number, from 1 to 536,870,911.
    pub field: u32,
    /// The value, without its bytes.
    pub value: WireValue,
    /// The offset of the key.
    pub at: usize,
    /// The offset of the payload, or of the value if the wire type has no length.
    pub body: usize,
}

/// A decoded key: its field number, its offset, and the offset of the byte after it.
#[derive(Clone, Copy)]
struct Key {
    field: u32,
    at: usize,
    body: usize,
}

impl Key {
    fn record(self, value: WireValue) -> WireRecord
        ensures { result ≡ record { field = self.field; value = value; at = self.at; body = self.body } }
    {
        WireRecord {
            field: self.field,
            value,
            at: self.at,
            body: self.body,
        }
    }
}

/// Reads a value of `count` bytes that has no length prefix. Returns its record with the remaining bytes.
fn read_fixed(
    key: Key,
    value: WireValue,
    count: usize,
    bytes: &[u8],
) -> Result<(WireRecord, &[u8], &[u8]), WireFault>
    ensures value { Matches payload_record_view result (fixed_in count value key.field key.at key.body bytes.now) }
    ensures shorter { IfOk result (λ x. length x.2.now ≤ length bytes.now) }
    ensures inside { IfOk result (λ x. x.0.body + length x.1.now ≤ key.body) }
{
    if bytes.len() < count {
        return Err(WireFault::Truncated { at: key.at });
    }
    Ok((key.record(value), &[], &bytes[count..]))
}

/// Reads a length and a payload of that many bytes. Returns the record with its payload and the remaining bytes.
fn read_payload(key: Key, bytes: &[u8]) -> Result<(WireRecord, &[u8], &[u8]), WireFault>
    requires { key.body + length bytes.now < 2 ^ 64 }
    ensures value { Matches payload_record_view result (payload_in key.field key.at key.body bytes.now) }
    ensures shorter { IfOk result (λ x. length x.2.now ≤ length bytes.now) }
    ensures inside { IfOk result (λ x. x.0.body + length x.1.now ≤ key.body + length bytes.now) }
{
    let (count, rest) = read_varint(key.at, bytes)?;
    let count = count as usize;
    if rest.len() < count {
        return Err(WireFault::Truncated { at: key.at });
    }
    let body = key.body + (bytes.len() - rest.len());
    let (payload, rest) = rest.split_at(count);
    Ok((
        Key { body, ..key }.record(WireValue::Bytes(count)),
        payload,
        rest,
    ))
}

/// Reads a value of the wire type `kind`. Returns the record with its payload and the remaining bytes.
#[tactic(auto, unfolding(crate::specs::Readings::value_in))]
fn read_value(key: Key, kind: u64, bytes: &[u8]) -> Result<(WireRecord, &[u8], &[u8]), WireFault>
    requires { key.body + length bytes.now < 2 ^ 64 }
    ensures value { Matches payload_record_view result (value_in kind key.field key.at key.body bytes.now) }
    ensures shorter { IfOk result (λ x. length x.2.now ≤ length bytes.now) }
    ensures inside { IfOk result (λ x. x.0.body + length x.1.now ≤ key.body + length bytes.now) }
{
    match kind {
        0 => {
            let (number, rest) = read_varint(key.at, bytes)?;
            Ok((key.record(WireValue::Varint(number)), &[], rest))
        }
        1 => read_fixed(key, WireValue::Eight, 8, bytes),
        2 => read_payload(key, bytes),
        5 => read_fixed(key, WireValue::Four, 4, bytes),
        _ => Err(WireFault::Group { at: key.at }),
    }
}

/// Reads the first record. Returns it with its payload and the remaining bytes.
#[tactic(auto, unfolding(crate::specs::Readings::record_in))]
fn read_first_record(at: usize, bytes: &[u8]) -> Result<(WireRecord, &[u8], &[u8]), WireFault>
    requires { at + length bytes.now < 2 ^ 64 }
    ensures value { Matches payload_record_view result (record_in at bytes.now) }
    ensures shorter { IfOk result (λ x. length x.2.now < length bytes.now) }
    ensures inside { IfOk result (λ x. x.0.body + length x.1.now ≤ at + length bytes.now) }
{
    let (key, rest) = read_varint(at, bytes)?;
    let field = key / 8;
    if field == 0 || field > MAX_FIELD {
        return Err(WireFault::ZeroField { at });
    }
    let body = at + (bytes.len() - rest.len());
    let field = field as u32;
    read_value(Key { field, at, body }, key % 8, rest)
}

/// Reads the first record if its key takes one byte, and its number or length takes one byte too. Most records have this form. No loop over
/// the bytes of a varint is needed.
#[inline(always)]
pub(crate) fn read_compact_record(at: usize, bytes: &[u8]) -> Option<(WireRecord, &[u8], &[u8])>
    requires { at + length bytes.now < 2 ^ 64 }
    ensures exact { IfSome result (λ x. IsFirst at bytes.now (Ok (payload_record_view x))) }
    ensures shorter { IfSome result (λ x. length x.2.now < length bytes.now) }
    ensures inside { IfSome result (λ x. x.0.body + length x.1.now ≤ at + length bytes.now) }
{
    let [key, next, rest @ ..] = bytes else {
        return None;
    };
    let (key, next) = (*key, *next);
    if key < 8 || key >= 128 || next >= 128 {
        return None;
    }
    let field = u32::from(key / 8);
    let count = usize::from(next);
    match key % 8 {
        0 => {
            let value = WireValue::Varint(u64::from(next));
            Some((
                WireRecord {
                    field,
                    value,
                    at,
                    body: at + 1,
                },
                &[],
                rest,
            ))
        }
        2 if count <= rest.len() => {
            let value = WireValue::Bytes(count);
            let (payload, after) = rest.split_at(count);
            Some((
                WireRecord {
                    field,
                    value,
                    at,
                    body: at + 2,
                },
                payload,
                after,
            ))
        }
        _ => None,
    }
}

/// Reads the first record if its key takes one byte and its value has eight or four bytes without a length prefix.
fn read_compact_fixed(at: usize, bytes: &[u8]) -> Option<(WireRecord, &[u8], &[u8])>
    requires { at + length bytes.now < 2 ^ 64 }
    ensures exact { IfSome result (λ x. IsFirst at bytes.now (Ok (payload_record_view x))) }
    ensures shorter { IfSome result (λ x. length x.2.now < length bytes.now) }
    ensures inside { IfSome result (λ x. x.0.body + length x.1.now ≤ at + length bytes.now) }
{
    let [key, _, rest @ ..] = bytes else {
        return None;
    };
    let key = *key;
    if key < 8 || key >= 128 {
        return None;
    }
    let field = u32::from(key / 8);
    let body = at + 1;
    match key % 8 {
        1 if rest.len() >= 7 => {
            let key = Key { field, at, body };
            Some((key.record(WireValue::Eight), &[], &rest[7..]))
        }
        5 if rest.len() >= 3 => {
            let key = Key { field, at, body };
            Some((key.record(WireValue::Four), &[], &rest[3..]))
        }
        _ => None,
    }
}

/// Reads the first record, whatever its form. It isn't inlined, so that `read_record`, which is, stays small.
#[inline(never)]
fn read_general_record(at: usize, bytes: &[u8]) -> Result<(WireRecord, &[u8], &[u8]), WireFault>
    requires { at + length bytes.now < 2 ^ 64 }
    ensures exact { HasExactOutcome payload_record_view result (IsFirst at bytes.now) }
    ensures shorter { IfOk result (λ x. length x.2.now < length bytes.now) }
    ensures inside { IfOk result (λ x. x.0.body + length x.1.now ≤ at + length bytes.now) }
{
    match read_compact_fixed(at, bytes) {
        Some(found) => Ok(found),
        None => read_first_record(at, bytes),
    }
}

/// Reads the first record of the bytes, which begin at offset `at` of the whole input (Protocol Buffers encoding, "Message Structure").
/// Returns the record, its payload, which is empty if the wire type has no length, and the remaining bytes.
/// Fails with the first fault of the record: `Truncated`, `LongVarint`, `ZeroField` or `Group`, with the offset `at`.
#[inline(always)]
pub fn read_record(at: usize, bytes: &[u8]) -> Result<(WireRecord, &[u8], &[u8]), WireFault>
    // Offsets fit 64 bits.
    requires { at + length bytes.now < 2 ^ 64 }
    // The result is the first record with its payload and the remaining bytes, or the record's fault.
    ensures exact { HasExactOutcome payload_record_view result (IsFirst at bytes.now) }
    // The record has at least one byte.
    ensures shorter { IfOk result (λ x. length x.2.now < length bytes.now) }
    // The payload ends within the bytes.
    ensures inside { IfOk result (λ x. x.0.body + length x.1.now ≤ at + length bytes.now) }
{
    match read_compact_record(at, bytes) {
        Some(found) => Ok(found),
        None => read_general_record(at, bytes),
    }
}

/// Reads all records of the bytes (Protocol Buffers encoding, "Message Structure").
/// Fails with the fault of the first wrong record, with the offset of its key: `Truncated`, `LongVarint`, `ZeroField` or `Group`. Fails
/// with `Memory` if an allocation fails.
pub fn records(alloc: Global, bytes: &[u8]) -> Result<Vec<WireRecord>, WireFault>
    // The result is the list of records that the bytes are, or the fault of the first wrong record, or `Memory`.
    ensures exact { HasOutcome (λ v. v.items) result (IsOutcome bytes.now) }
    // Each outcome of the bytes, a list of records or a first fault, is the result, unless the result is `Memory`.
    ensures only { (o : Result (List WireRecord) WireFault) → IsOutcome bytes.now o → HasOutcome (λ v. v.items) result (λ p. p ≡ o) }
{
    let mut found = Vec::new(alloc);
    let mut at = 0;
    let mut rest = bytes;
    while !rest.is_empty() {
        let (record, _, after) = read_record(at, rest)?;
        found.push(record)?;
        at += rest.len() - after.len();
        rest = after;
    }
    Ok(found)
}
