//! The messages of a SCIP index (scip.proto), decoded from bytes and encoded as bytes (Protocol Buffers encoding).
//! `IndexReader` and `IndexWriter` have one document in memory at a time; `check` validates the records of an index and builds no message.
//! Depends on `proto_wire` for records and on `byte_sink` for the output of a writer.
//! The main calls are `from_bytes` and `to_bytes`. `from_bytes` returns exactly the index that the bytes encode, or their first fault.
//! `to_bytes` returns the one written form of an index, which encodes this index and no other.
#![tactic(auto)]

mod borrowed;
mod checked_messages;
mod compact;
mod in_place;
mod index;
pub mod laws;
mod message_decoding;
mod message_encoding;
mod range;
mod reader;
mod record_head;
mod writer;

pub use borrowed::{BorrowedOccurrence, BorrowedSymbol};
pub use checked_messages::check;
pub use compact::{append_compact_occurrence, is_compact};
pub use in_place::append_message_in_place;
pub use index::{Document, Index, Metadata, Occurrence, SymbolInfo, ToolInfo};
pub use message_decoding::from_bytes;
pub use message_encoding::to_bytes;
pub use range::{Range, TokenSpan};
pub use reader::IndexReader;
pub use record_head::{LARGE_DOCUMENT, head_capacity, prepend_record_head};
pub use writer::{IndexWriter, Stage};
