//! Output to a sink that takes one byte at a time and fails: records, the parts of an index, and the lines of a query.
use crate::bytes::MODULE;
use crate::listed::{self, Ask, DEFINES};
use index_store::{Position, QueryFault, Which, query};
use proto_wire::{WireFault, Writer};
use scip_index::{Document, Index, IndexWriter, Metadata, from_bytes};
use std::alloc::{AllocError, Global};
use std::test::Fail;
use test_doubles::FailingSink;
use texts::LocationStyle;

/// An output.
#[derive(Clone, Copy)]
enum What {
    /// Four records: 150, the string "testing", packed numbers, and an empty message.
    Records,
    /// The index of a module.
    Index,
    /// The lines of a symbol's references.
    Lines,
    /// This query on an index with definitions.
    Asked(Ask),
}

/// A document with two references of a symbol, at the first columns of two lines.
const USES: &[u8] =
    b"\x12\x17\x0a\x01a\x12\x08\x0a\x03\x01\x00\x01\x12\x01s\x12\x08\x0a\x03\x02\x00\x01\x12\x01s";

const ROWS: &[(What, &[u8])] = &[
    (
        What::Records,
        b"\x08\x96\x01\x12\x07testing\x22\x0b\x03\xfe\xff\xff\xff\xff\xff\xff\xff\xff\x01\xfa\xff\xff\xff\x0f\x00",
    ),
    (What::Index, MODULE),
    (What::Lines, b"a:1:0-1:1\na:2:0-2:1\n"),
    (
        What::Asked(Ask::Symbols(Some("a"))),
        b"a:0:7-0:8 s\na:2:0-2:2 local 0\na:5:0-6:1 u\na:7:0-7:1 w\n",
    ),
    (What::Asked(Ask::Symbol("b\n", 0, 0)), b"\\tv\n"),
    (What::Asked(Ask::References(None, "s")), b"a:1:0-1:1\n"),
];

/// Whether everything was written, so that the device didn't fail.
fn is_written(put: Result<(), WireFault>) -> Result<bool, AllocError> {
    match put {
        Ok(()) => Ok(true),
        Err(WireFault::Device) => Ok(false),
        Err(_) => Err(AllocError),
    }
}

fn write_four(alloc: Global, writer: &mut Writer, sink: &mut FailingSink) -> Result<(), WireFault> {
    writer.varint(alloc, 1, 150, sink)?;
    writer.text(alloc, 2, "testing", sink)?;
    writer.packed(alloc, 4, &[3, -2], sink)?;
    writer.message(alloc, 536_870_911, b"", sink)
}

/// Writes the records. After an error nothing more is written, even if the sink has room again.
fn write_records(alloc: Global, sink: &mut FailingSink) -> Result<bool, AllocError> {
    let mut writer = Writer::new();
    if is_written(write_four(alloc, &mut writer, sink))? {
        return Ok(true);
    }
    sink.writes = 100;
    is_written(writer.varint(alloc, 1, 150, sink))
}

/// Writes the parts of an index. After an error of the metadata nothing more is written, even if the sink has room again.
fn write_parts(
    alloc: Global,
    metadata: &Metadata,
    document: &Document,
    sink: &mut FailingSink,
) -> Result<(), WireFault> {
    let mut writer = IndexWriter::new(alloc);
    let Err(_) = writer.metadata(metadata, sink) else {
        writer.document(document, sink)?;
        return writer.end(&[], sink);
    };
    sink.writes = 100;
    writer.end(&[], sink)
}

/// Whether the metadata and the first document are written.
fn write_index(alloc: Global, index: &Index, sink: &mut FailingSink) -> Result<bool, AllocError> {
    match (&index.metadata, index.documents.first()) {
        (Some(metadata), Some(document)) => is_written(write_parts(
            alloc, metadata, document, sink,
        )),
        _ => Err(AllocError),
    }
}

/// Whether the output is written, so that the device didn't fail.
fn is_output_written(put: Result<(), QueryFault>) -> Result<bool, AllocError> {
    match put {
        Ok(()) => Ok(true),
        Err(QueryFault::Device) => Ok(false),
        Err(_) => Err(AllocError),
    }
}

/// Whether the lines are written.
fn write_lines(alloc: Global, sink: &mut FailingSink) -> Result<bool, AllocError> {
    let at = Position { line: 2, column: 0 };
    let (which, style) = (Which::References, LocationStyle::Plain);
    is_output_written(query(alloc, USES, "a", at, which, style, sink))
}

fn put(alloc: Global, what: What, sink: &mut FailingSink) -> Result<bool, AllocError> {
    match what {
        What::Records => write_records(alloc, sink),
        What::Index => match from_bytes(alloc, MODULE) {
            Ok(index) => write_index(alloc, &index, sink),
            Err(_) => Err(AllocError),
        },
        What::Lines => write_lines(alloc, sink),
        What::Asked(ask) => is_output_written(listed::put(alloc, DEFINES, ask, sink)),
    }
}

/// Whether a sink with room for this many bytes has exactly these, and failed once if there are more. No call writes zero bytes.
fn check_prefix(alloc: Global, what: What, whole: &[u8], room: usize) -> Result<bool, AllocError> {
    let mut sink = FailingSink::new(alloc, room as u64);
    let all = put(alloc, what, &mut sink)?;
    Ok(
        all == (room == whole.len())
            && sink.taken.len() == room
            && whole.starts_with(sink.taken.as_slice())
            && sink.failures == u64::from(!all)
            && sink.empty == 0,
    )
}

/// The smallest room for which the sink has other bytes.
fn first_difference(alloc: Global, what: What, whole: &[u8]) -> Result<Option<usize>, AllocError> {
    for room in 0..=whole.len() {
        if !check_prefix(alloc, what, whole, room)? {
            return Ok(Some(room));
        }
    }
    Ok(None)
}

#[test]
fn a_sink_that_fails_has_a_prefix(rt: HostRuntime) -> Result<(), Fail> {
    for (what, whole) in ROWS {
        assert_eq!(rt; first_difference(rt.alloc(), *what, whole)?, None);
    }
    Ok(())
}
