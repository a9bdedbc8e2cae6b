//! The encoding of the fields of a message as records. Zeros, empty strings and empty lists of numbers are left out. A field number is from
//! 1 to 536,870,911.
ghost use Rattle.std.specs.Prelude.{◌≡◌, ◌++◌, ℕ, FitsSigned, IfSome, List, map, OnOk};
ghost use Rattle.std.specs.Int.{w32};
ghost use Rattle.std.specs.List.{AllByRecursion};
ghost use Rattle.std.specs.Option.{option_to_list};
ghost use Rattle.std.specs.String.{string_bytes};
ghost use Rattle.proto_wire.specs.Records.{IsField};
ghost use Rattle.proto_wire.specs.Writing.{number_fields, packed_fields, payload_field, payload_fields, spelled, spelled_fields, text_fields};

use crate::encoding::{
    append_packed_numbers, append_payload_field, append_varint_field, sign_extended_bits,
};
use crate::scratch::Scratch;
use std::alloc::AllocError;

/// Appends `number` as the field with the field number `field`, unless it is 0. A negative number takes ten bytes.
/// Fails with `AllocError` if an allocation fails. The bytes are then unspecified.
pub fn append_number(out: &mut Vec<u8>, field: u32, number: i32) -> Result<(), AllocError>
    // The field number is valid.
    requires { IsField field }
    // With `Ok` exactly the records of the field are appended.
    ensures bytes { OnOk result (out.new.items ≡ out.old.items ++ spelled_fields (number_fields field number)) }
    // The number fits 32 bits, as every `i32` does.
    ensures fits { FitsSigned w32 number }
{
    if number == 0 {
        return Ok(());
    }
    append_varint_field(out, field, sign_extended_bits(number))
}

/// Appends a string as a field of this number, unless it is empty.
/// Fails with `AllocError` if an allocation fails. The bytes are then unspecified.
pub fn append_text(out: &mut Vec<u8>, field: u32, text: &str) -> Result<(), AllocError>
    // The field number is valid.
    requires { IsField field }
    // With `Ok` exactly the records of the field are appended.
    ensures { OnOk result (out.new.items ≡ out.old.items ++ spelled_fields (text_fields field text.now)) }
{
    if text.is_empty() {
        return Ok(());
    }
    append_payload_field(out, field, text.as_bytes())
}

/// Appends `numbers` as one packed field with the field number `field`, unless the list is empty.
/// Fails with `AllocError` if an allocation fails. The bytes are then unspecified.
pub fn append_packed(
    scratch: &mut Scratch,
    out: &mut Vec<u8>,
    field: u32,
    numbers: &[i32],
) -> Result<(), AllocError>
    // The field number is valid.
    requires { IsField field }
    // With `Ok` exactly the records of the field are appended.
    ensures bytes { OnOk result (out.new.items ≡ out.old.items ++ spelled_fields (packed_fields field numbers.now)) }
    // The numbers fit 32 bits, as every `i32` does.
    ensures fits { OnOk result (AllByRecursion (FitsSigned w32) numbers.now) }
{
    if numbers.is_empty() {
        return Ok(());
    }
    let mut packed = scratch.take_buffer();
    append_packed_numbers(&mut packed, numbers)?;
    append_payload_field(out, field, &packed)?;
    scratch.give_back(packed)
}

/// A message that can be encoded.
pub trait Written {
    /// The written form of the message.
    ghost written: { Self → List ℕ };

    /// Each number of the message fits the type of its field. The Rust types guarantee it.
    ghost fits: { Self → Type 0 };

    /// Appends the written form of the message. Fails with `AllocError` if an allocation fails. The bytes are then unspecified.
    fn encode_into(&self, scratch: &mut Scratch, out: &mut Vec<u8>) -> Result<(), AllocError>
        ensures bytes { OnOk result (out.new.items ≡ out.old.items ++ written self.now) }
        ensures fits { OnOk result (fits self.now) };
}

/// Appends a message as a field of this number, even if its written form is empty. It is encoded in a scratch buffer first, as its length
/// precedes it.
/// Fails with `AllocError` if an allocation fails. The bytes are then unspecified.
pub fn append_message<M: Written>(
    scratch: &mut Scratch,
    out: &mut Vec<u8>,
    field: u32,
    message: &M,
) -> Result<(), AllocError>
    // The field number is valid.
    requires { IsField field }
    // With `Ok` exactly the records of the field are appended.
    ensures bytes { OnOk result (out.new.items ≡ out.old.items ++ spelled (payload_field field (M.written message.now))) }
    // With `Ok` the numbers of the message fit their types.
    ensures fits { OnOk result (M.fits message.now) }
{
    let mut payload = scratch.take_buffer();
    message.encode_into(scratch, &mut payload)?;
    append_payload_field(out, field, &payload)?;
    scratch.give_back(payload)
}

/// Appends each message as a field of this number, even if its written form is empty.
/// Fails with `AllocError` if an allocation fails. The bytes are then unspecified.
pub fn append_messages<M: Written>(
    scratch: &mut Scratch,
    out: &mut Vec<u8>,
    field: u32,
    messages: &[M],
) -> Result<(), AllocError>
    // The field number is valid.
    requires { IsField field }
    // With `Ok` exactly the records of the field are appended.
    ensures bytes { OnOk result (out.new.items ≡ out.old.items ++ spelled_fields (payload_fields field (map M.written messages.now))) }
    // With `Ok` the numbers of the message fit their types.
    ensures fits { OnOk result (AllByRecursion M.fits messages.now) }
{
    for message in messages {
        append_message(scratch, out, field, message)?;
    }
    Ok(())
}

/// Appends a message as a field of this number, unless it is `None`, even if its written form is empty.
/// Fails with `AllocError` if an allocation fails. The bytes are then unspecified.
pub fn append_optional_message<M: Written>(
    scratch: &mut Scratch,
    out: &mut Vec<u8>,
    field: u32,
    message: &Option<M>,
) -> Result<(), AllocError>
    // The field number is valid.
    requires { IsField field }
    // With `Ok` exactly the records of the field are appended.
    ensures bytes { OnOk result (out.new.items ≡ out.old.items ++ spelled_fields (payload_fields field (map M.written (option_to_list message.now)))) }
    // With `Ok` the numbers of the message fit their types.
    ensures fits { OnOk result (IfSome message.now M.fits) }
{
    match message {
        None => Ok(()),
        Some(there) => append_message(scratch, out, field, there),
    }
}

/// Appends each string as a field of this number, even an empty one.
/// Fails with `AllocError` if an allocation fails. The bytes are then unspecified.
pub fn append_texts(out: &mut Vec<u8>, field: u32, texts: &[String]) -> Result<(), AllocError>
    // The field number is valid.
    requires { IsField field }
    // With `Ok` exactly the records of the field are appended.
    ensures { OnOk result (out.new.items ≡ out.old.items ++ spelled_fields (payload_fields field (map string_bytes texts.now))) }
{
    for text in texts {
        append_payload_field(out, field, text.as_bytes())?;
    }
    Ok(())
}
