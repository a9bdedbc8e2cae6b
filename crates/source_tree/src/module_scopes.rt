//! The scopes of a module, given its syntax tree.
ghost use Rattle.std.specs.Prelude.{IfErr, IfOk, Ok};
ghost use Rattle.ob_scan.specs.Spelling.{IsOutcome};
ghost use Rattle.table_rules.specs.Declaring.{rows_of};
ghost use Rattle.ob_grammar.specs.Parsed.{IsTheTree};
ghost use Rattle.scopes.specs.Scoped.{AreScopes};
ghost use Rattle.ob_scope.specs.Faults.{IsScopeFault};

use ob_grammar::ParseFault;
use ob_grammar::laws::tree_excludes_fault;
use ob_scan::Tokens;
use ob_scope::{ScopeFault, Scopes, scopes_from};
use ob_tree::declaration::Module;
use std::alloc::Global;
use table_reader::read_table;
use table_rules::laws::events_determine_table;

/// The scopes of a module: the declaration that each use means by the scope rule, and the number of uses that each alias qualifies
/// (Oberon-07 report, sections 4 and 11). If two identifiers in one block or record have equal names, returns `Twice` or `TwiceField` with
/// the first such pair, whose second identifier comes first. Returns `Memory` if an allocation fails.
///
/// Doesn't traverse the syntax tree: its table comes from a pass over the tokens. Recursion takes a few calls for each nested level, at
/// most 200 levels; a stack of 2 MiB is enough.
pub fn scopes(
    alloc: Global,
    module: &Module,
    tokens: &Tokens,
    bytes: &[u8],
) -> Result<Scopes, ScopeFault>
    // The scanner returns these tokens for the bytes.
    requires spelled { IsOutcome bytes.now (Ok tokens.now) }
    // The module is the syntax tree of the tokens, with at most 200 nested levels and correct names after END.
    requires tree { IsTheTree bytes.now tokens.now «module».now }
    // With `Ok` the module declares nothing twice, and the result has its scopes.
    ensures scoped { IfOk result (AreScopes bytes.now tokens.now (rows_of «module».now)) }
    // With `Err` the module has the returned error, or an allocation failed.
    ensures fault { IfErr result (IsScopeFault bytes.now tokens.now (rows_of «module».now)) }
{
    tree_excludes_fault();
    events_determine_table();
    match read_table(alloc, bytes, tokens) {
        Ok(table) => scopes_from(alloc, &table, tokens.as_slice(), bytes),
        Err(ParseFault::Memory) => Err(ScopeFault::Memory),
        // No other error is possible, since the tree exists.
        Err(_) => unreachable!(),
    }
}
