//! The head of a document's record, its key and its length. It is written once the document's bytes are, into bytes reserved before them.
ghost use Rattle.std.specs.Prelude.{◌≡◌, ◌≤◌, ◌++◌, ℕ, List, IfOk, length, vec_len};
ghost use Rattle.proto_wire.specs.Writing.{head_of, payload_field, spelled};

use proto_wire::append_varint;
use std::alloc::{AllocError, Global};

/// The number of bytes from which a document is large. The buffer of a small document grows by doubling. That of a large one grows by all
/// that is estimated to follow, in one step, because a document's bytes exist twice while they are moved.
pub const LARGE_DOCUMENT: usize = 262_144;

/// The number of bytes to reserve for the head of a document of about `count` bytes: that of its key and its length.
pub fn head_capacity(count: usize) -> usize {
    if count < 16_384 {
        3
    } else if count < 2_097_152 {
        4
    } else {
        5
    }
}

/// The head of a document of `count` bytes.
fn document_head(alloc: Global, count: usize) -> Result<Vec<u8>, AllocError>
    ensures { IfOk result (λ v. v.items ≡ head_of 2 count) }
{
    /// The maximum number of bytes of a head.
    const MOST: usize = 11;
    let mut document_head = Vec::with_capacity(alloc, MOST)?;
    document_head.push(18)?;
    append_varint(&mut document_head, count as u64)?;
    Ok(document_head)
}

/// Overwrites the first bytes with a head.
fn overwrite_head(bytes: &mut [u8], document_head: &[u8])
    requires { length document_head.now ≤ length bytes.old }
    ensures { (prefix payload : List ℕ) → bytes.old ≡ prefix ++ payload → length document_head.now ≡ length prefix → bytes.new ≡ document_head.now ++ payload }
{
    bytes[..document_head.len()].copy_from_slice(document_head);
}

/// Shrinks the capacity of a document's bytes to their length. A large document keeps up to an eighth of its length as spare capacity,
/// since its bytes exist twice while it is shrunk.
fn shrink_capacity(bytes: &mut Vec<u8>)
    ensures { bytes.new.items ≡ bytes.old.items }
{
    let spare = bytes.capacity().saturating_sub(bytes.len());
    if bytes.len() < LARGE_DOCUMENT || spare > bytes.len() / 8 {
        bytes.shrink_to_fit();
    }
}

/// Returns the record of a document. In `bytes` the document's bytes follow `capacity` reserved ones. A head of `capacity` bytes is written
/// there, without a copy of the document's bytes; a head of another length requires a copy.
pub fn prepend_record_head(
    alloc: Global,
    bytes: Vec<u8>,
    capacity: usize,
) -> Result<Vec<u8>, AllocError>
    requires { capacity ≤ vec_len bytes }
    ensures { (prefix payload : List ℕ) → bytes.items ≡ prefix ++ payload → capacity ≡ length prefix → IfOk result (λ v. v.items ≡ spelled (payload_field 2 payload)) }
{
    let mut record = bytes;
    let mut document_head = document_head(alloc, record.len() - capacity)?;
    if document_head.len() != capacity {
        document_head.extend_from_slice(&record[capacity..])?;
        return Ok(document_head);
    }
    overwrite_head(record.as_mut_slice(), document_head.as_slice());
    shrink_capacity(&mut record);
    Ok(record)
}
