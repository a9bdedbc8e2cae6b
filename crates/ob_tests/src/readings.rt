//! The reader of tables.
ghost use Rattle.std.specs.Prelude.{length, IfOk, Ok};
ghost use Rattle.module_table.specs.Tables.{rows_in};
ghost use Rattle.module_table.specs.Trees.{AreTreeRows};
ghost use Rattle.ob_scan.specs.Spelling.{IsOutcome};
ghost use Rattle.scopes.specs.IdentifierNames.{IsIdentifier};

use module_table::Table;
use ob_scan::Tokens;
use std::alloc::Global;
use std::test::Fail;
use table_reader::read_table;

/// The table of a source with these tokens.
pub(crate) fn table_in(alloc: Global, text: &[u8], tokens: &Tokens) -> Result<Box<Table>, Fail>
    requires { IsOutcome text.now (Ok tokens.now) }
    ensures { IfOk result (λ t. AreTreeRows (IsIdentifier tokens.now) (length tokens.now) (rows_in t.value)) }
{
    let table = read_table(alloc, text, tokens)?;
    Ok(Box::new(alloc, table)?)
}
