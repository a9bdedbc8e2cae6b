//! The wire format of Protocol Buffers (Protocol Buffers encoding): reads and writes records, and decodes messages record by record.
//! Depends on `byte_sink` for the output of `Writer` and on `thiserror` for errors.
//! The main calls are `records`, `read_message` and the methods of `Writer`. `records` returns exactly the records that the bytes are, or
//! the first fault.
//! `Writer` writes a whole record, or a prefix of it if the sink fails. Records that are written can be read back.
#![tactic(auto)]

mod encoding;
mod fault;
mod field;
mod field_encoding;
mod inside;
pub mod laws;
mod message;
mod record;
mod scratch;
mod varint;
mod writer;

pub use fault::WireFault;
pub use field::{
    check_numbers, check_text, decode_number, decode_numbers, decode_text, decode_texts,
    packed_values,
};
pub use field_encoding::{
    Written, append_message, append_messages, append_number, append_optional_message,
    append_packed, append_text, append_texts,
};
pub use inside::{
    MessageBytes, last_bytes, last_bytes_and_number, last_bytes_and_numbers, last_number,
    next_compact_record, next_message, next_message_and_last_bytes, read_field_numbers,
};
pub use message::{Message, check_message, decode_messages, merge_message, read_message};
pub use record::{WireRecord, WireValue, read_record, records};
pub use scratch::Scratch;
pub use varint::append_varint;
pub use writer::Writer;
