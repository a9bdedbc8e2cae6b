//! The writer of records to a sink.
ghost use Rattle.std.specs.Prelude.{◌≡◌, IfNone, IfOk, IfSome, IsOkUnless};
ghost use Rattle.std.specs.Result.{result_err};
ghost use Rattle.byte_sink.specs.Sinks.{failures_after, failures_by, Writes};
ghost use Rattle.proto_wire.specs.Records.{IsField};
ghost use Rattle.proto_wire.specs.Writing.{head_of, number_field, packed_payload, payload_field, spelled};
ghost use Rattle.proto_wire.specs.Writers.{result_of_error, is_failure, WritesRecord};

use crate::WireFault;
use crate::encoding::{append_packed_numbers, append_payload_head, append_varint_field};
use byte_sink::{Sink, SinkFault, write_fully};
use std::alloc::Global;
use std::marker::Model;

/// Writes a record with a varint. After an error the sink has taken a prefix of it.
fn write_number<S: Sink>(
    alloc: Global,
    field: u32,
    number: u64,
    sink: &mut S,
) -> Result<(), SinkFault>
    ensures writes { Writes (S.taken sink.old) (S.taken sink.new) result (spelled (number_field field number)) }
    ensures failures { S.failures sink.new ≡ failures_after result (S.failures sink.old) }
{
    let mut record = Vec::new(alloc);
    append_varint_field(&mut record, field, number).map_err(|_| SinkFault::Memory)?;
    write_fully(sink, &record)
}

/// The bytes that precede a payload of `count` bytes: a key and the length.
fn payload_head(alloc: Global, field: u32, count: usize) -> Result<Vec<u8>, SinkFault>
    ensures bytes { IfOk result (λ v. v.items ≡ head_of field count) }
    ensures memory { IsOkUnless result SinkFault.Memory }
{
    let mut payload_head = Vec::new(alloc);
    append_payload_head(&mut payload_head, field, count).map_err(|_| SinkFault::Memory)?;
    Ok(payload_head)
}

/// Writes a record with this payload. After an error the sink has taken a prefix of it.
fn write_payload<S: Sink>(
    alloc: Global,
    field: u32,
    payload: &[u8],
    sink: &mut S,
) -> Result<(), SinkFault>
    ensures writes { Writes (S.taken sink.old) (S.taken sink.new) result (spelled (payload_field field payload.now)) }
    ensures failures { S.failures sink.new ≡ failures_after result (S.failures sink.old) }
{
    let payload_head = payload_head(alloc, field, payload.len())?;
    write_fully(sink, &payload_head)?;
    write_fully(sink, payload)
}

/// Writes a record with these numbers, packed. After an error the sink has taken a prefix of it.
fn write_packed_numbers<S: Sink>(
    alloc: Global,
    field: u32,
    numbers: &[i32],
    sink: &mut S,
) -> Result<(), SinkFault>
    ensures writes { Writes (S.taken sink.old) (S.taken sink.new) result (spelled (payload_field field (packed_payload numbers.now))) }
    ensures failures { S.failures sink.new ≡ failures_after result (S.failures sink.old) }
{
    let mut payload = Vec::new(alloc);
    append_packed_numbers(&mut payload, numbers).map_err(|_| SinkFault::Memory)?;
    write_payload(alloc, field, &payload, sink)
}

/// Writes records to a sink, one for each call. Contracts describe a writer by the error that it has returned, if any. From then on each
/// call returns this error again and writes nothing.
#[derive(Drop)]
pub struct Writer {
    error: Option<SinkFault>,
}

impl Model for Writer {
    ghost use Rattle.std.specs.Prelude.{Option};
    ghost use Rattle.byte_sink.specs.declared.sink.SinkFault.{SinkFault};

    ghost Value = { Option SinkFault };

    ghost view = { λ w. w.error };
}

impl Writer {
    /// A writer that hasn't failed. Allocates nothing.
    pub fn new() -> Self
        // The writer has no error.
        ensures { result ≡ None }
    {
        Writer { error: None }
    }

    /// Fails with the writer's error, if the writer has failed.
    fn ensure_ok(&self) -> Result<(), WireFault>
        ensures { result ≡ result_of_error self.now }
    {
        match self.error {
            None => Ok(()),
            Some(error) => Err(WireFault::from(error)),
        }
    }

    /// Stores the error of the write that returned `put`, if it failed, and returns it as a `WireFault`.
    fn store_error(&mut self, put: Result<(), SinkFault>) -> Result<(), WireFault>
        requires { self.old ≡ None }
        ensures retained { self.new ≡ result_err put }
        ensures answer { result ≡ result_of_error (result_err put) }
    {
        match put {
            Ok(()) => Ok(()),
            Err(error) => {
                self.error = Some(error);
                Err(WireFault::from(error))
            }
        }
    }

    /// Writes a record of this field, from 1 to 536,870,911, with a number as its minimal varint.
    /// Fails with `Device` if the sink fails, and with `Memory` if an allocation fails. The sink has then taken a prefix of the record.
    pub fn varint<S: Sink>(
        &mut self,
        alloc: Global,
        field: u32,
        number: u64,
        sink: &mut S,
    ) -> Result<(), WireFault>
        // The field number is valid.
        requires { IsField field }
        // If the writer hadn't failed before: With `Ok` the sink took the whole record, otherwise a prefix of it.
        ensures writes { IfNone self.old (WritesRecord (S.taken sink.old) (S.taken sink.new) result (spelled (number_field field number))) }
        // If the writer hadn't failed before, the sink counts a failure if and only if the result is `Device`.
        ensures failures { IfNone self.old (S.failures sink.new ≡ failures_by is_failure result (S.failures sink.old)) }
        // The result is the error that the writer now has, or `Ok` if it has none.
        ensures retained { result ≡ result_of_error self.new }
        // If the writer had failed before, the writer and the sink are unchanged.
        ensures again { IfSome self.old (λ _. (self.new ≡ self.old) × (sink.new ≡ sink.old)) }
    {
        self.ensure_ok()?;
        let put = write_number(alloc, field, number, sink);
        self.store_error(put)
    }

    /// Writes a record of this field, from 1 to 536,870,911, with a string, which may be empty.
    /// Fails with `Device` if the sink fails, and with `Memory` if an allocation fails. The sink has then taken a prefix of the record.
    pub fn text<S: Sink>(
        &mut self,
        alloc: Global,
        field: u32,
        text: &str,
        sink: &mut S,
    ) -> Result<(), WireFault>
        // The field number is valid.
        requires { IsField field }
        // If the writer hadn't failed before: With `Ok` the sink took the whole record, otherwise a prefix of it.
        ensures writes { IfNone self.old (WritesRecord (S.taken sink.old) (S.taken sink.new) result (spelled (payload_field field text.now))) }
        // If the writer hadn't failed before, the sink counts a failure if and only if the result is `Device`.
        ensures failures { IfNone self.old (S.failures sink.new ≡ failures_by is_failure result (S.failures sink.old)) }
        // The result is the error that the writer now has, or `Ok` if it has none.
        ensures retained { result ≡ result_of_error self.new }
        // If the writer had failed before, the writer and the sink are unchanged.
        ensures again { IfSome self.old (λ _. (self.new ≡ self.old) × (sink.new ≡ sink.old)) }
    {
        self.ensure_ok()?;
        let put = write_payload(alloc, field, text.as_bytes(), sink);
        self.store_error(put)
    }

    /// Writes a record of this field, from 1 to 536,870,911, with these numbers, packed. A negative one takes ten bytes.
    /// Fails with `Device` if the sink fails, and with `Memory` if an allocation fails. The sink has then taken a prefix of the record.
    pub fn packed<S: Sink>(
        &mut self,
        alloc: Global,
        field: u32,
        numbers: &[i32],
        sink: &mut S,
    ) -> Result<(), WireFault>
        // The field number is valid.
        requires { IsField field }
        // If the writer hadn't failed before: With `Ok` the sink took the whole record, otherwise a prefix of it.
        ensures writes { IfNone self.old (WritesRecord (S.taken sink.old) (S.taken sink.new) result (spelled (payload_field field (packed_payload numbers.now)))) }
        // If the writer hadn't failed before, the sink counts a failure if and only if the result is `Device`.
        ensures failures { IfNone self.old (S.failures sink.new ≡ failures_by is_failure result (S.failures sink.old)) }
        // The result is the error that the writer now has, or `Ok` if it has none.
        ensures retained { result ≡ result_of_error self.new }
        // If the writer had failed before, the writer and the sink are unchanged.
        ensures again { IfSome self.old (λ _. (self.new ≡ self.old) × (sink.new ≡ sink.old)) }
    {
        self.ensure_ok()?;
        let put = write_packed_numbers(alloc, field, numbers, sink);
        self.store_error(put)
    }

    /// Writes a record of this field, from 1 to 536,870,911, with the bytes of a message as its payload.
    /// Fails with `Device` if the sink fails, and with `Memory` if an allocation fails. The sink has then taken a prefix of the record.
    pub fn message<S: Sink>(
        &mut self,
        alloc: Global,
        field: u32,
        message: &[u8],
        sink: &mut S,
    ) -> Result<(), WireFault>
        // The field number is valid.
        requires { IsField field }
        // If the writer hadn't failed before: With `Ok` the sink took the whole record, otherwise a prefix of it.
        ensures writes { IfNone self.old (WritesRecord (S.taken sink.old) (S.taken sink.new) result (spelled (payload_field field message.now))) }
        // If the writer hadn't failed before, the sink counts a failure if and only if the result is `Device`.
        ensures failures { IfNone self.old (S.failures sink.new ≡ failures_by is_failure result (S.failures sink.old)) }
        // The result is the error that the writer now has, or `Ok` if it has none.
        ensures retained { result ≡ result_of_error self.new }
        // If the writer had failed before, the writer and the sink are unchanged.
        ensures again { IfSome self.old (λ _. (self.new ≡ self.old) × (sink.new ≡ sink.old)) }
    {
        self.ensure_ok()?;
        let put = write_payload(alloc, field, message, sink);
        self.store_error(put)
    }
}
