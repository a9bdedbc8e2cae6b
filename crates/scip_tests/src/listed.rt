//! The output of queries on an index: its definitions, the symbol at a position, and the locations of a symbol by its string.
use crate::description::expect;
use index_store::{
    Position, QueryFault, Which, list_symbols, query_fault_text, query_symbol, write_symbol,
};
use std::alloc::{AllocError, Global};
use std::process::Abort;
use std::test::Fail;
use test_doubles::FailingSink;
use texts::LocationStyle;

/// Three documents, the first and the last with one path. The first has a definition and a reference of `s`, definitions of a local symbol,
/// of no symbol, of one without a range, and one with a second role, on two lines.
/// The second has control characters in its path and in a symbol.
pub(crate) const DEFINES: &[u8] =
    b"\x12\x4c\x0a\x01a\x12\x0a\x0a\x03\x00\x07\x08\x12\x01s\x18\x01\x12\x08\x0a\x03\x01\x00\x01\x12\x01s\x12\x10\x0a\x03\x02\x00\x02\x12\x07local 0\x18\x01\x12\x07\x0a\x03\x03\x00\x01\x18\x01\x12\x09\x0a\x02\x04\x00\x12\x01t\x18\x01\x12\x0b\x0a\x04\x05\x00\x06\x01\x12\x01u\x18\x03\x12\x11\x0a\x02b\x0a\x12\x0b\x0a\x03\x00\x00\x01\x12\x02\x09v\x18\x01\x12\x0f\x0a\x01a\x12\x0a\x0a\x03\x07\x00\x01\x12\x01w\x18\x01";

/// A query.
#[derive(Clone, Copy)]
pub(crate) enum Ask {
    /// The definitions in the documents of a path, or in all documents.
    Symbols(Option<&'static str>),
    /// The symbol at a line and a column of a document.
    Symbol(&'static str, u32, u32),
    /// The definitions of a symbol, with the path of a document or without.
    Definitions(Option<&'static str>, &'static str),
    /// Its references.
    References(Option<&'static str>, &'static str),
}

/// A query with its expected output or error.
pub(crate) const ROWS: &[(Ask, &str)] = &[
    (
        Ask::Symbols(None),
        "a:0:7-0:8 s\na:5:0-6:1 u\nb\\n:0:0-0:1 \\tv\na:7:0-7:1 w\n",
    ),
    (
        Ask::Symbols(Some("a")),
        "a:0:7-0:8 s\na:2:0-2:2 local 0\na:5:0-6:1 u\na:7:0-7:1 w\n",
    ),
    (Ask::Symbols(Some("b\n")), "b\\n:0:0-0:1 \\tv\n"),
    (Ask::Symbols(Some("c")), "NoDocument"),
    (Ask::Symbols(Some("")), "NoDocument"),
    (Ask::Symbol("a", 0, 7), "s\n"),
    (Ask::Symbol("a", 1, 0), "s\n"),
    (Ask::Symbol("a", 2, 1), "local 0\n"),
    (Ask::Symbol("b\n", 0, 0), "\\tv\n"),
    (Ask::Symbol("a", 0, 8), ""),
    (Ask::Symbol("c", 0, 7), "NoDocument"),
    (Ask::Definitions(None, "s"), "a:0:7-0:8\n"),
    (Ask::Definitions(Some("b\n"), "s"), "a:0:7-0:8\n"),
    (Ask::Definitions(Some("c"), "s"), "NoDocument"),
    (Ask::Definitions(None, "\tv"), "b\\n:0:0-0:1\n"),
    (Ask::Definitions(None, "x"), ""),
    (Ask::Definitions(Some("a"), "local 0"), "a:2:0-2:2\n"),
    (Ask::Definitions(Some("b\n"), "local 0"), ""),
    (Ask::Definitions(None, "local 0"), ""),
    (Ask::References(None, "s"), "a:1:0-1:1\n"),
    (Ask::References(Some("a"), "s"), "a:1:0-1:1\n"),
    (Ask::References(Some("a"), "local 0"), ""),
];

/// Runs a query on an index.
pub(crate) fn put(
    alloc: Global,
    bytes: &[u8],
    ask: Ask,
    sink: &mut FailingSink,
) -> Result<(), QueryFault> {
    let style = LocationStyle::Plain;
    match ask {
        Ask::Symbols(path) => list_symbols(alloc, bytes, path, style, sink),
        Ask::Symbol(path, line, column) => {
            write_symbol(alloc, bytes, path, Position { line, column }, sink)
        }
        Ask::Definitions(path, symbol) => {
            let which = Which::Definitions;
            query_symbol(alloc, bytes, path, symbol, which, style, sink)
        }
        Ask::References(path, symbol) => {
            let which = Which::References;
            query_symbol(alloc, bytes, path, symbol, which, style, sink)
        }
    }
}

/// The output, or the error; after an error nothing was written.
fn description(alloc: Global, bytes: &[u8], ask: Ask) -> Result<String, AllocError> {
    let mut sink = FailingSink::new(alloc, 10_000);
    match put(alloc, bytes, ask, &mut sink) {
        Ok(()) => String::from_utf8_lossy(alloc, sink.taken.as_slice()),
        Err(QueryFault::Memory) => Err(AllocError),
        Err(fault) if sink.taken.is_empty() => query_fault_text(alloc, &fault),
        Err(_) => String::from_str(alloc, "a refusal behind something that is put"),
    }
}

fn check_answer<R: Abort + AllocGlobal>(
    rt: &R,
    bytes: &[u8],
    ask: Ask,
    want: &str,
) -> Result<(), AllocError> {
    expect(rt, description(rt.alloc(), bytes, ask)?.as_str(), want);
    Ok(())
}

#[test]
fn symbols_of_an_index_are_listed(rt: HostRuntime) -> Result<(), Fail> {
    for (ask, want) in ROWS {
        check_answer(&rt, DEFINES, *ask, want)?;
    }
    Ok(())
}

#[test]
fn malformed_indexes_are_rejected(rt: HostRuntime) -> Result<(), Fail> {
    let cut = &DEFINES[..DEFINES.len() - 1];
    for (ask, _) in ROWS {
        check_answer(&rt, cut, *ask, "Truncated 97")?;
    }
    Ok(())
}
