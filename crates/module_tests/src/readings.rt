//! The readers of trees and tables.
ghost use Rattle.std.specs.Prelude.{◌<◌, ◌^◌, length, IfOk, Ok};
ghost use Rattle.ob_grammar.specs.Parsed.{IsTheTree};
ghost use Rattle.module_table.specs.Tables.{rows_in};
ghost use Rattle.module_table.specs.Trees.{AreTreeRows};
ghost use Rattle.ob_scan.specs.Spelling.{IsOutcome};
ghost use Rattle.scopes.specs.IdentifierNames.{IsIdentifier};
ghost use Rattle.ob_tree.specs.Derives.{spelling};

use module_table::Table;
use ob_parse::{ParseFault, parse};
use ob_scan::{Tokens, scan};
use ob_tree::declaration::Module;
use std::alloc::Global;
use std::test::Fail;
use table_reader::read_table;

/// The tree of tokens.
pub(crate) fn parsed(alloc: Global, text: &[u8], tokens: &Tokens) -> Result<Box<Module>, ParseFault>
    requires { IsOutcome text.now (Ok tokens.now) }
    ensures tree { IfOk result (λ tree. IsTheTree text.now tokens.now tree.value) }
    ensures few { IfOk result (λ tree. length (spelling tree.value) < 2 ^ 32) }
{
    let tree = parse(alloc, text, tokens)?;
    match Box::new(alloc, tree) {
        Ok(tree) => Ok(tree),
        Err(_) => Err(ParseFault::Memory),
    }
}

/// The table of a source.
pub(crate) fn table_in(alloc: Global, text: &[u8]) -> Result<Box<Table>, Fail> {
    let tokens = scan(alloc, text)?;
    table_by_tokens(alloc, text, &tokens)
}

/// The table of a source with these tokens.
pub(crate) fn table_by_tokens(
    alloc: Global,
    text: &[u8],
    tokens: &Tokens,
) -> Result<Box<Table>, Fail>
    requires { IsOutcome text.now (Ok tokens.now) }
    ensures { IfOk result (λ t. AreTreeRows (IsIdentifier tokens.now) (length tokens.now) (rows_in t.value)) }
{
    let table = read_table(alloc, text, tokens)?;
    Ok(Box::new(alloc, table)?)
}
