//! The test cases, and the results as text.
use crate::boards::{Step, describe_board};
use crate::documents::describe_document;
use crate::graphs::{File, describe_files};
use crate::interfaces::{describe_exports, describe_lookup};
use std::alloc::Global;
use std::process::Abort;
use std::test::Fail;

/// What a test case computes.
pub(crate) enum Asked {
    /// The interface of a module.
    Seen(&'static [u8]),
    /// The lookup of a field by a record and a name in the interface.
    Found(&'static [u8], u32, &'static str),
    /// Whether a module without imports has a document in a package, or the error.
    Package(&'static [u8], &'static str),
    /// The graph of files, with these modules completed.
    Files(&'static [File], &'static [bool]),
    /// Calls of a scheduler.
    Board(&'static [Step]),
}

/// A test case with its expected result.
pub(crate) type Row = (Asked, &'static str);

fn description(alloc: Global, asked: &Asked) -> Result<String, Fail> {
    match asked {
        Asked::Seen(text) => describe_exports(alloc, text),
        Asked::Found(text, record, name) => describe_lookup(alloc, text, *record, name.as_bytes()),
        Asked::Package(text, name) => describe_document(alloc, text, name),
        Asked::Files(files, done) => describe_files(alloc, files, done),
        Asked::Board(steps) => Ok(describe_board(alloc, steps)?),
    }
}

/// Checks test cases.
pub(crate) fn check_rows<R: Abort + AllocGlobal>(rt: &R, rows: &[Row]) -> Result<(), Fail> {
    for (asked, want) in rows {
        let description = description(rt.alloc(), asked)?;
        assert_eq!(rt; description.as_str(), *want);
    }
    Ok(())
}
