//! The main call of the parser.

ghost use Rattle.std.specs.Prelude.{◌<◌, ◌^◌, length, IfOk, IfErr, Ok};
ghost use Rattle.ob_scan.specs.Spelling.{IsOutcome};
ghost use Rattle.ob_scan.specs.declared.token.Token.{Token};
ghost use Rattle.ob_tree.specs.Declaring.{module_events};
ghost use Rattle.ob_tree.specs.Derives.{spelling};
ghost use Rattle.ob_tree.specs.Leaves.{leaves_from};
ghost use Rattle.ob_grammar.specs.ParsesAs.{ParsesAs};
ghost use Rattle.ob_grammar.specs.Parsed.{IsTheTree, IsFaultOf, kinds_of};
ghost use Rattle.ob_grammar.specs.ReadModules.{read_all};

use crate::ends::first_wrong_end;
use crate::modules::parse_all_tokens;
use ob_grammar::cursor::Cursor;
use ob_grammar::stop::Stop;
use ob_grammar::{MAX_DEPTH, ParseFault, stop_fault};
use ob_scan::{Token, Tokens};
use ob_tree::declaration::Module;
use ob_tree::walkers::collect_end_names;
use std::alloc::Global;

/// The syntax tree of all tokens, of at most 200 nested levels. Doesn't compare the names after END.
#[tactic(auto, using(ob_grammar::proofs::Remaining::all_remaining))]
fn parse_before_end_check(alloc: Global, tokens: &[Token]) -> Result<Box<Module>, Stop>
    requires { length tokens.now < 2 ^ 32 }
    ensures { ParsesAs tokens.now (λ m. module_events m.value) result (read_all 200 (leaves_from 0 (kinds_of tokens.now))) }
{
    parse_all_tokens(alloc, tokens, Cursor::ALL, MAX_DEPTH)
}

/// The syntax tree of the module with these bytes and tokens, by the grammar of the Oberon-07 report's appendix.
///
/// Errors: with `Syntax` no tree derives the tokens, with `TooDeep` none of at most 200 nested levels does. Both have the offset of the
/// token at which parsing from the left stops: it is wrong, or it begins a construct for which no level is left. `EndName` if a name after
/// END isn't that of its procedure or module. `Memory` if an allocation fails.
///
/// Recursion takes a few calls for each nested level of the tokens, at most 200 levels; a stack of 2 MiB is enough. Loops parse lists.
pub fn parse(alloc: Global, bytes: &[u8], tokens: &Tokens) -> Result<Module, ParseFault>
    // The scanner returns these tokens for the bytes.
    requires { IsOutcome bytes.now (Ok tokens.now) }
    // With `Ok` the tree derives the tokens, has at most 200 nested levels and the right names after END. Every tree that derives the
    // tokens has the same event sequence as this one.
    ensures tree { IfOk result (IsTheTree bytes.now tokens.now) }
    // With `Ok` the tree has fewer than 2^32 tokens, so that 32 bits suffice for their indexes.
    ensures few { IfOk result (λ tree. length (spelling tree) < 2 ^ 32) }
    // With `Err` the bytes and tokens have the returned error, or an allocation failed.
    ensures fault { IfErr result (IsFaultOf bytes.now tokens.now) }
{
    let tokens = tokens.as_slice();
    let tree = match parse_before_end_check(alloc, tokens) {
        Ok(tree) => tree,
        Err(stop) => return Err(stop_fault(bytes.len() as u32, tokens, stop)),
    };
    let ends = collect_end_names(alloc, &*tree)?;
    match first_wrong_end(bytes, tokens, ends.as_slice()) {
        None => Ok(Box::into_inner(tree)),
        Some(offset) => Err(ParseFault::EndName { offset }),
    }
}
