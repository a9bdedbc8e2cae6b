//! The test cases, and the results as text.
use crate::module_scopes::{describe_by_tree, describe_scopes};
use crate::tables::{describe_names, describe_steps, describe_token, describe_type_exprs};
use crate::tokens::{describe_location, describe_token_list};
use crate::trees::describe_value;
use crate::walks::describe_walks;
use ob_scan::ScanFault;
use std::alloc::Global;
use std::process::Abort;
use std::test::Fail;

/// What a test case computes.
pub(crate) enum Asked {
    Tokens(&'static [u8]),
    /// The error of a source that is too long.
    TooLong,
    /// The line and column of an offset.
    Place(&'static [u8], u32),
    /// The value of the first statement.
    Value(&'static [u8]),
    Walks(&'static [u8]),
    /// The declared and the used identifiers.
    Names(&'static [u8]),
    /// The type expressions, blocks, import items and records, and the names after END.
    Forms(&'static [u8]),
    /// The designators and their selectors.
    Steps(&'static [u8]),
    /// The lookups of a token in the table.
    ByToken(&'static [u8], u32),
    /// The aliases of a module, and the meaning of each use.
    Meanings(&'static [u8]),
    /// The aliases and meanings by the syntax tree, for a module that declares nothing twice.
    ByTree(&'static [u8]),
}

/// A test case with its expected result.
pub(crate) type Row = (Asked, &'static str);

fn description(alloc: Global, asked: &Asked) -> Result<String, Fail> {
    match asked {
        Asked::Tokens(text) => Ok(describe_token_list(alloc, text)?),
        Asked::TooLong => Ok(format!(in alloc; "{}", ScanFault::TooLong)?),
        Asked::Place(text, offset) => Ok(describe_location(alloc, text, *offset)?),
        Asked::Value(text) => describe_value(alloc, text),
        Asked::Walks(text) => describe_walks(alloc, text),
        Asked::Names(text) => describe_names(alloc, text),
        Asked::Forms(text) => describe_type_exprs(alloc, text),
        Asked::Steps(text) => describe_steps(alloc, text),
        Asked::ByToken(text, token) => describe_token(alloc, text, *token),
        Asked::Meanings(text) => describe_scopes(alloc, text),
        Asked::ByTree(text) => describe_by_tree(alloc, text),
    }
}

/// Checks test cases.
pub(crate) fn check_rows<R: Abort + AllocGlobal>(rt: &R, rows: &[Row]) -> Result<(), Fail> {
    for (asked, want) in rows {
        let description = description(rt.alloc(), asked)?;
        assert_eq!(rt; description.as_str(), *want);
    }
    Ok(())
}
