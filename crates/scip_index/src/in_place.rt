//! Appends length-delimited fields without a buffer. The bytes are those that `append_message` and `append_packed` of `proto_wire` append.
ghost use Rattle.std.specs.Prelude.{◌≡◌, ◌<◌, ◌+◌, ◌++◌, ◌∷◌, [], ℕ, List, OnOk, length, vec_len};
ghost use Rattle.proto_wire.specs.Varints.{varint};
ghost use Rattle.proto_wire.specs.Writing.{packed_fields, packed_payload, payload_field, spelled, spelled_fields, text_fields};

use proto_wire::{Scratch, Written, append_message, append_varint};
use std::alloc::AllocError;

/// Stores the length `size` of a payload after its key. The key is at index `start`, followed by one reserved byte and the payload. Inserts
/// a second byte if the length needs two.
fn store_length(out: &mut Vec<u8>, start: usize, size: usize) -> Result<(), AllocError>
    requires there { start + 1 < vec_len out.old }
    requires few { size < 16384 }
    ensures { (old payload : List ℕ) (key : ℕ) → out.old.items ≡ (old ++ key ∷ 0 ∷ []) ++ payload → start ≡ length old →
        OnOk result (out.new.items ≡ (old ++ key ∷ varint size) ++ payload) }
{
    if size < 128 {
        out[start + 1] = size as u8;
        return Ok(());
    }
    out[start + 1] = (size % 128) as u8 + 128;
    out.insert(start + 2, (size / 128) as u8)?;
    Ok(())
}

/// Appends a message as a field of this number, as `append_message` does. Stores the message's length once its bytes are appended.
pub fn append_message_in_place<M: Written>(
    scratch: &mut Scratch,
    out: &mut Vec<u8>,
    field: u32,
    message: &M,
) -> Result<(), AllocError>
    requires some { 0 < field }
    requires few { field < 16 }
    ensures { OnOk result (out.new.items ≡ out.old.items ++ spelled (payload_field field (M.written message.now))) }
{
    /// A message of this length or more is written through a buffer.
    const LONG: usize = 16_384;
    let start = out.len();
    out.extend_from_slice(&[field as u8 * 8 + 2, 0])?;
    message.encode_into(scratch, out)?;
    let size = out.len() - start - 2;
    if size < LONG {
        return store_length(out, start, size);
    }
    out.truncate(start);
    append_message(scratch, out, field, message)
}

/// Appends bytes as a field of this number, unless they are empty, as `append_text` does.
pub(crate) fn append_bytes_field(
    out: &mut Vec<u8>,
    field: u32,
    bytes: &[u8],
) -> Result<(), AllocError>
    requires some { 0 < field }
    requires few { field < 16 }
    ensures { OnOk result (out.new.items ≡ out.old.items ++ spelled_fields (text_fields field bytes.now)) }
{
    if bytes.is_empty() {
        return Ok(());
    }
    out.push(field as u8 * 8 + 2)?;
    append_varint(out, bytes.len() as u64)?;
    out.extend_from_slice(bytes)
}

/// Numbers of a packed field, each a varint.
#[derive(Clone, Copy)]
struct PackedNumbers<'a> {
    numbers: &'a [i32],
}

impl Written for PackedNumbers<'_> {
    ghost written = { λ n. packed_payload n.numbers.now };

    ghost fits = { λ _. Unit {0} };

    fn encode_into(&self, _scratch: &mut Scratch, out: &mut Vec<u8>) -> Result<(), AllocError> {
        for number in self.numbers {
            append_varint(out, i64::from(*number).cast_unsigned())?;
        }
        Ok(())
    }
}

/// Appends `numbers` as one packed field with the field number `field`, unless the list is empty, as `append_packed` does.
pub(crate) fn append_numbers_field(
    scratch: &mut Scratch,
    out: &mut Vec<u8>,
    field: u32,
    numbers: &[i32],
) -> Result<(), AllocError>
    requires some { 0 < field }
    requires few { field < 16 }
    ensures { OnOk result (out.new.items ≡ out.old.items ++ spelled_fields (packed_fields field numbers.now)) }
{
    if numbers.is_empty() {
        return Ok(());
    }
    append_message_in_place(scratch, out, field, &PackedNumbers { numbers })
}
