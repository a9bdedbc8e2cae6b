//! An index that is read one document at a time, whole and without its last byte. An error is returned again.
use crate::bytes::{FOREIGN, describe_fault, describe_rest};
use scip_index::IndexReader;
use std::alloc::{AllocError, Global};
use std::test::Fail;

const CUT_OFF: &str = "the record at 27 is cut off";

/// The number of bytes that are left out, the results of the next three calls, and the data besides the documents.
const ROWS: &[(usize, [&str; 3], &str)] = &[
    (0, ["document a", "no document", "no document"], "some, 0"),
    (1, ["document a", CUT_OFF, CUT_OFF], CUT_OFF),
];

fn describe_next(alloc: Global, reader: &mut IndexReader) -> Result<String, AllocError> {
    match &reader.next() {
        Ok(Some(document)) => format!(in alloc; "document {}", document.relative_path),
        Ok(None) => String::from_str(alloc, "no document"),
        Err(fault) => describe_fault(alloc, *fault),
    }
}

/// Whether a reader of these bytes returns this many of these documents, and then these other data.
fn reader_returns(
    alloc: Global,
    bytes: &[u8],
    documents: &[&str],
    rest: &str,
) -> Result<bool, AllocError> {
    let mut reader = IndexReader::new(alloc, bytes);
    for want in documents {
        if describe_next(alloc, &mut reader)?.as_str() != *want {
            return Ok(false);
        }
    }
    Ok(describe_rest(alloc, reader)?.as_str() == rest)
}

#[test]
fn a_reader_repeats_its_fault(rt: HostRuntime) -> Result<(), Fail> {
    for (left_out, documents, rest) in ROWS {
        let bytes = &FOREIGN[..FOREIGN.len().saturating_sub(*left_out)];
        assert!(rt; reader_returns(rt.alloc(), bytes, &[], rest)?);
        assert!(rt; reader_returns(rt.alloc(), bytes, &documents[..1], rest)?);
        assert!(rt; reader_returns(rt.alloc(), bytes, &documents[..2], rest)?);
        assert!(rt; reader_returns(rt.alloc(), bytes, documents.as_slice(), rest)?);
    }
    Ok(())
}
