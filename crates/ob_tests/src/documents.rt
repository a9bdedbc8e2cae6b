//! Packages that a document can or can't have.
use crate::asked::Asked::Package;
use crate::asked::{Row, check_rows};
use crate::readings::table_in;
use ob_emit::document;
use ob_emit::laws::scoped_names_are_identifiers;
use ob_scan::laws::tokens_in_text;
use ob_scan::scan;
use ob_scope::scopes_from;
use ob_view::View;
use std::alloc::Global;
use std::test::Fail;

const ROWS: &[Row] = &[
    (Package(b"MODULE M; END M.", "x "), "a document"),
    (
        Package(b"MODULE M; END M.", " x"),
        "the package is '.' or begins with a space",
    ),
    (
        Package(b"MODULE M; END M.", "."),
        "the package is '.' or begins with a space",
    ),
];

pub(crate) fn describe_document(
    alloc: Global,
    text: &[u8],
    package_name: &str,
) -> Result<String, Fail> {
    tokens_in_text();
    scoped_names_are_identifiers();
    let tokens = scan(alloc, text)?;
    let table = table_in(alloc, text, &tokens)?;
    let scopes = scopes_from(alloc, &table, tokens.as_slice(), text)?;
    let view = View::new(alloc, text, tokens.as_slice(), &table, &scopes, &[])?;
    match document(alloc, "M.Mod", &view, &[], package_name) {
        Ok(_) => Ok(String::from_str(alloc, "a document")?),
        Err(fault) => Ok(format!(in alloc; "{fault}")?),
    }
}

#[test]
fn a_package_has_documents_or_is_none(rt: HostRuntime) -> Result<(), Fail> {
    check_rows(&rt, ROWS)
}
