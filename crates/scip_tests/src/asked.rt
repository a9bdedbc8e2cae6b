//! Queries on the bytes of an index, compared with those on a store that a reader of the index fills.
ghost use Rattle.scip_index.specs.Meaning.{Means};
ghost use Rattle.scip_index.specs.Plain.{IndexModel};

use crate::bytes::describe_fault;
use crate::description::expect;
use index_store::{
    Place, Position, Store, StoreFault, definitions_in_bytes, references_in_bytes, symbol_in_bytes,
};
use scip_index::{IndexReader, check};
use std::alloc::{AllocError, Global};
use std::process::Abort;
use std::test::Fail;

/// Queried positions, each in document `a`.
const POSITIONS: &[Position] = &[
    Position { line: 0, column: 0 },
    Position { line: 0, column: 7 },
    Position { line: 0, column: 8 },
    Position { line: 2, column: 1 },
];

/// The bytes of an index, and the expected results for the symbol at the second position: its string, its definitions and its references.
const ROWS: &[(&[u8], &str)] = &[
    // An unpacked range and an unknown field.
    (
        b"\x12\x19\x0a\x01a\x12\x11\x08\x00\x08\x07\x08\x08\x12\x07local 0\x18\x01\x98\x06\x01\x0a\x02\x20\x01",
        "local 0: a 0:7-0:8; ",
    ),
    // Two documents of one path, and a third one of another.
    (
        b"\x12\x0f\x0a\x01a\x12\x0a\x0a\x03\x00\x07\x08\x12\x01s\x18\x00\x12\x0d\x12\x08\x0a\x03\x01\x00\x02\x12\x01s\x0a\x01a\x12\x0f\x12\x0a\x0a\x03\x02\x00\x02\x12\x01s\x18\x03\x0a\x01b",
        "s: b 2:0-2:2; used a 0:7-0:8; used a 1:0-1:2; ",
    ),
    // A definition after unknown numbers of three, five, six and ten bytes.
    (
        b"\x12\x2b\x0a\x01a\x12\x26\x0a\x03\x00\x07\x08\x12\x01s\x78\xff\xff\x01\x78\xff\xff\xff\xff\x01\x78\xff\xff\xff\xff\xff\x01\x78\xff\xff\xff\xff\xff\xff\xff\xff\xff\x01\x18\x01",
        "s: a 0:7-0:8; ",
    ),
    // The last of two symbols and of two roles counts, after six records.
    (
        b"\x12\x1a\x0a\x01a\x12\x15\x0a\x03\x00\x07\x08\x12\x01t\x20\x00\x20\x00\x20\x00\x20\x00\x18\x01\x12\x01s",
        "s: a 0:7-0:8; ",
    ),
    // Symbol information in another order, and overlapping occurrences.
    (
        b"\x12\x1e\x0a\x01a\x12\x0c\x0a\x03\x00\x07\x08\x20\x01\x12\x01s\x18\x00\x12\x0b\x18\x01\x12\x01s\x0a\x04\x00\x01\x02\x03",
        "s: a 0:1-2:3; used a 0:7-0:8; ",
    ),
    // Five numbers are no range.
    (
        b"\x12\x13\x0a\x01a\x12\x0e\x0a\x05\x00\x07\x08\x09\x0a\x12\x01s\x18\x01\x20\x00",
        "no symbol",
    ),
    // Packed numbers of two bytes, and an unpacked one.
    (
        b"\x12\x15\x0a\x01a\x12\x10\x0a\x04\x80\x00\x87\x00\x08\x88\x00\x12\x01s\x18\x01\x20\x00",
        "s: a 0:7-0:8; ",
    ),
    // A symbol without a range, and a range without a symbol.
    (
        b"\x12\x10\x0a\x01a\x12\x03\x12\x01s\x12\x06\x0a\x03\x00\x07\x08\x18",
        "the record at 17 is cut off",
    ),
    (
        b"\x12\x10\x0a\x01a\x12\x03\x12\x01s\x12\x06\x0a\x03\x00\x07\x08\x00",
        "the record at 17 has no field number",
    ),
    (
        b"\x12\x0f\x0a\x01a\x12\x03\x12\x01s\x12\x05\x0a\x03\x00\x07\x08",
        "no symbol",
    ),
    // The last path of a document counts, at any offset.
    (
        b"\x12\x10\x0a\x01a\x12\x08\x0a\x03\x00\x07\x08\x12\x01s\x0a\x01b",
        "no document",
    ),
    (
        b"\x12\x12\x0a\x01b\x12\x0a\x0a\x03\x00\x07\x08\x12\x01s\x18\x01\x0a\x01a",
        "s: a 0:7-0:8; ",
    ),
    (
        b"\x12\x15\x0a\x01a\x12\x0a\x0a\x03\x00\x07\x08\x12\x01s\x18\x01\x0a\x01b\x0a\x01a",
        "s: a 0:7-0:8; ",
    ),
    // Occurrences of a document that begins with the path and has another path later don't count for the path.
    (
        b"\x12\x10\x0a\x01a\x12\x08\x0a\x03\x00\x07\x08\x12\x01t\x0a\x01b\x12\x0f\x0a\x01a\x12\x0a\x0a\x03\x00\x00\x09\x12\x01s\x18\x01",
        "s: a 0:0-0:9; ",
    ),
    (
        b"\x12\x12\x0a\x01a\x12\x0a\x0a\x03\x00\x07\x08\x12\x01s\x18\x01\x0a\x01b\x12\x0d\x0a\x01a\x12\x08\x0a\x03\x00\x00\x09\x12\x01s",
        "s: b 0:7-0:8; used a 0:0-0:9; ",
    ),
    // A local symbol is looked up only in the documents of the path, whatever path they begin with.
    (
        b"\x12\x18\x0a\x01b\x12\x10\x0a\x03\x00\x07\x08\x12\x07local 0\x18\x01\x0a\x01a\x12\x18\x0a\x01a\x12\x10\x0a\x03\x00\x00\x09\x12\x07local 0\x18\x01\x0a\x01b\x12\x15\x0a\x01b\x12\x10\x0a\x03\x00\x00\x09\x12\x07local 0\x18\x01",
        "local 0: a 0:7-0:8; ",
    ),
    // Any other symbol is looked up in all documents: two without a path, one whose first path field is a number, and one with a path of
    // 128 bytes.
    (
        b"\x12\x0f\x0a\x01a\x12\x0a\x0a\x03\x00\x07\x08\x12\x01s\x18\x01\x12\x0c\x12\x0a\x0a\x03\x00\x00\x09\x12\x01s\x18\x01\x12\x0e\x08\x00\x12\x0a\x0a\x03\x00\x01\x09\x12\x01s\x18\x01\x12\x11\x08\x00\x12\x0a\x0a\x03\x00\x02\x09\x12\x01s\x18\x01\x0a\x01b\x12\x8f\x01\x0a\x80\x01pppppppppppppppppppppppppppppppppppppppppppppppppppppppppppppppppppppppppppppppppppppppppppppppppppppppppppppppppppppppppppppppp\x12\x0a\x0a\x03\x00\x03\x09\x12\x01s\x18\x01",
        "s: a 0:7-0:8;  0:0-0:9;  0:1-0:9; b 0:2-0:9; pppppppppppppppppppppppppppppppppppppppppppppppppppppppppppppppppppppppppppppppppppppppppppppppppppppppppppppppppppppppppppppppp 0:3-0:9; ",
    ),
    // Records of four and of eight bytes in a document and in an occurrence, as its range, and a truncated record.
    (
        b"\x12\x22\x0a\x01a\x3d\x00\x00\x00\x00\x39\x00\x00\x00\x00\x00\x00\x00\x00\x12\x0f\x0a\x03\x00\x07\x08\x12\x01s\x18\x01\x3d\x00\x00\x00\x00",
        "s: a 0:7-0:8; ",
    ),
    (
        b"\x12\x0d\x0a\x01a\x12\x08\x0d\x00\x07\x08\x00\x12\x01s",
        "no symbol",
    ),
    (
        b"\x12\x09\x0a\x01a\x12\x04\x3d\x00\x00\x00",
        "the record at 7 is cut off",
    ),
    (b"\x12\x03\x0a\x01a", "no symbol"),
    (b"", "no document"),
    (
        b"\x12\x05\x12\x03\x0a\x01\x80",
        "the record at 4 is cut off",
    ),
];

/// Appends locations, each after a word.
fn append_occurrences(
    text: &mut String,
    word: &str,
    places: &[Place<'_>],
) -> Result<(), AllocError> {
    for place in places {
        write!(
            text,
            "{word}{} {}:{}-{}:{}; ",
            place.path, place.start.line, place.start.column, place.end.line, place.end.column
        )?;
    }
    Ok(())
}

/// Appends a symbol, its definitions and its references.
fn describe_answer(
    alloc: Global,
    symbol: &[u8],
    defined: &[Place<'_>],
    used: &[Place<'_>],
) -> Result<String, AllocError> {
    let mut text = String::from_utf8_lossy(alloc, symbol)?;
    text.push_str(": ")?;
    append_occurrences(&mut text, "", defined)?;
    append_occurrences(&mut text, "used ", used)?;
    Ok(text)
}

/// The error of the lookup of a symbol.
fn describe_no_store(alloc: Global, fault: StoreFault) -> Result<String, AllocError> {
    match fault {
        StoreFault::NoDocument => String::from_str(alloc, "no document"),
        StoreFault::Memory => Err(AllocError),
    }
}

/// The results of queries on the bytes.
fn describe_queries(alloc: Global, bytes: &[u8], at: Position) -> Result<String, AllocError>
    requires { (index : IndexModel) × Means bytes.now index }
{
    match symbol_in_bytes(alloc, bytes, "a", at) {
        Ok(None) => String::from_str(alloc, "no symbol"),
        Ok(Some(symbol)) => {
            let defined = definitions_in_bytes(alloc, bytes, "a", symbol)?;
            let used = references_in_bytes(alloc, bytes, "a", symbol)?;
            describe_answer(alloc, symbol, defined.as_slice(), used.as_slice())
        }
        Err(fault) => describe_no_store(alloc, fault),
    }
}

/// The results of queries on a store for a symbol.
fn describe_symbol_uses(alloc: Global, store: &Store, symbol: &str) -> Result<String, AllocError> {
    match (
        store.definitions("a", symbol),
        store.references("a", symbol),
    ) {
        (Ok(defined), Ok(used)) => describe_answer(
            alloc,
            symbol.as_bytes(),
            defined.as_slice(),
            used.as_slice(),
        ),
        _ => Err(AllocError),
    }
}

/// The results of queries on a store.
fn describe_store_query(alloc: Global, store: &Store, at: Position) -> Result<String, AllocError> {
    match store.symbol_at("a", at) {
        Ok(None) => String::from_str(alloc, "no symbol"),
        Ok(Some(symbol)) => describe_symbol_uses(alloc, store, symbol),
        Err(fault) => describe_no_store(alloc, fault),
    }
}

/// The results of queries on a store that is built from a reader, or the first fault.
fn describe_read(alloc: Global, bytes: &[u8], at: Position) -> Result<String, AllocError> {
    match Store::from_reader(alloc, IndexReader::new(alloc, bytes)) {
        Ok(store) => describe_store_query(alloc, &store, at),
        Err(fault) => describe_fault(alloc, fault),
    }
}

/// The results of queries on validated bytes, or the first fault.
fn describe_checked(alloc: Global, bytes: &[u8], at: Position) -> Result<String, AllocError> {
    match check(alloc, bytes) {
        Ok(()) => describe_queries(alloc, bytes, at),
        Err(fault) => describe_fault(alloc, fault),
    }
}

/// Checks that both kinds of queries agree at each position.
fn check_agreement<R: Abort + AllocGlobal>(rt: &R, bytes: &[u8]) -> Result<(), AllocError> {
    for at in POSITIONS {
        let read = describe_read(rt.alloc(), bytes, *at)?;
        expect(
            rt,
            describe_checked(rt.alloc(), bytes, *at)?.as_str(),
            read.as_str(),
        );
    }
    Ok(())
}

#[test]
fn queries_agree_with_a_store(rt: HostRuntime) -> Result<(), Fail> {
    let at = Position { line: 0, column: 7 };
    for (bytes, want) in ROWS {
        expect(&rt, describe_read(rt.alloc(), bytes, at)?.as_str(), want);
        check_agreement(&rt, bytes)?;
    }
    Ok(())
}

#[test]
fn queries_agree_with_a_store_on_all_bytes(rt: HostRuntime) -> Result<(), Fail> {
    for (_, bytes, _) in crate::bytes::ROWS {
        check_agreement(&rt, bytes)?;
    }
    Ok(())
}
