//! The encoding of keys, numbers and payloads, which all writers of this crate use.
ghost use Rattle.std.specs.Prelude.{◌≡◌, ◌<◌, ◌++◌, FitsSigned, OnOk};
ghost use Rattle.std.specs.Int.{w32};
ghost use Rattle.std.specs.List.{AllByRecursion};
ghost use Rattle.proto_wire.specs.Varints.{varint};
ghost use Rattle.proto_wire.specs.Writing.{sign_extended_bits, head_of, key_of, number_field, packed_payload, payload_field, spelled};

use crate::varint::append_varint;
use std::alloc::AllocError;

/// Appends the key of this field number and wire type.
fn append_key(out: &mut Vec<u8>, field: u32, kind: u64) -> Result<(), AllocError>
    requires { kind < 8 }
    ensures { OnOk result (out.new.items ≡ out.old.items ++ key_of field kind) }
{
    append_varint(out, 8 * u64::from(field) + kind)
}

/// Appends a record with a varint.
pub(crate) fn append_varint_field(
    out: &mut Vec<u8>,
    field: u32,
    number: u64,
) -> Result<(), AllocError>
    ensures { OnOk result (out.new.items ≡ out.old.items ++ spelled (number_field field number)) }
{
    append_key(out, field, 0)?;
    append_varint(out, number)
}

/// Appends the head of a record with a payload of `count` bytes: the key of this field number, and the length.
pub(crate) fn append_payload_head(
    out: &mut Vec<u8>,
    field: u32,
    count: usize,
) -> Result<(), AllocError>
    ensures { OnOk result (out.new.items ≡ out.old.items ++ head_of field count) }
{
    append_key(out, field, 2)?;
    append_varint(out, count as u64)
}

/// Appends a record with this payload.
pub(crate) fn append_payload_field(
    out: &mut Vec<u8>,
    field: u32,
    payload: &[u8],
) -> Result<(), AllocError>
    ensures { OnOk result (out.new.items ≡ out.old.items ++ spelled (payload_field field payload.now)) }
{
    append_payload_head(out, field, payload.len())?;
    out.extend_from_slice(payload)
}

/// The 64 bits that encode a signed number: a negative one is sign-extended and takes ten bytes.
pub(crate) fn sign_extended_bits(number: i32) -> u64
    ensures { result ≡ sign_extended_bits number }
{
    i64::from(number).cast_unsigned()
}

/// Appends each number as a varint of its 64 sign-extended bits, as in the payload of a packed field.
pub(crate) fn append_packed_numbers(out: &mut Vec<u8>, numbers: &[i32]) -> Result<(), AllocError>
    ensures bytes { OnOk result (out.new.items ≡ out.old.items ++ packed_payload numbers.now) }
    ensures fits { OnOk result (AllByRecursion (FitsSigned w32) numbers.now) }
{
    for number in numbers {
        append_varint(out, sign_extended_bits(*number))?;
    }
    Ok(())
}
