//! The main call: from the tokens of a module to its table.

ghost use Rattle.std.specs.Prelude.{◌≡◌, ◌<◌, ◌^◌, length, slice_get, Some, Ok, IfOk, IfErr};
ghost use Rattle.module_table.specs.Tables.{rows_in};
ghost use Rattle.module_table.specs.Trees.{AreTreeRows};
ghost use Rattle.ob_scan.specs.declared.kind.Kind.TheVariants.{Ident};
ghost use Rattle.table_rules.specs.Declaring.{rows_of, module_rows, outermost};
ghost use Rattle.module_table.specs.TableStages.{after};
ghost use Rattle.ob_scan.specs.Spelling.{IsOutcome};
ghost use Rattle.ob_tree.specs.Declaring.{module_events};
ghost use Rattle.ob_tree.specs.Leaves.{leaves_from};
ghost use Rattle.ob_tree.specs.declared.declaration.Module.{Module};
ghost use Rattle.ob_grammar.specs.Parsed.{IsTheTree, IsFaultOf, kinds_of};
ghost use Rattle.ob_grammar.specs.ReadModules.{read_all};
ghost use Rattle.table_reader.specs.Tabulating.{AppendsModuleEntries};

use crate::ends::first_wrong_end;
use crate::modules::parse_all_tokens;
use crate::source::{ParserInput, match_brackets};
use module_table::Table;
use module_table::builder::{Context, TableBuilder};
use ob_grammar::cursor::Cursor;
use ob_grammar::stop::Stop;
use ob_grammar::{MAX_DEPTH, ParseFault, stop_fault};
use ob_scan::{Token, Tokens};
use std::alloc::Global;
use table_rules::finish_table;
use table_rules::laws::{end_names_follow_events, tree_table_is_valid};

/// Parses all tokens as one module, after a pass that matches brackets.
fn parse_with_brackets(
    alloc: Global,
    builder: &mut TableBuilder,
    tokens: &[Token],
) -> Result<(), Stop>
    // The builder has counted no token yet.
    requires few { length tokens.now < 2 ^ 32 }
    requires number { builder.old.number ≡ 0 }
    // With `Ok` the grammar reads the tokens as a module, and its entries are appended unless an allocation failed. With `Err` the
    // grammar's reader fails too, or memory ran out.
    ensures { AppendsModuleEntries tokens.now module_events (λ m. after (module_rows m) outermost) builder.old builder.new result (read_all 200 (leaves_from 0 (kinds_of tokens.now))) }
{
    let brackets = match_brackets(alloc, tokens)?;
    let source = ParserInput {
        tokens,
        brackets: brackets.as_slice(),
    };
    parse_all_tokens(builder, Context::OUTERMOST, &source, Cursor::ALL, MAX_DEPTH)
}

/// The table of the module with these tokens: the entries of the syntax tree that derives the tokens. The tree itself isn't made.
///
/// Errors: with `Syntax` no tree derives the tokens; with `TooDeep` none of at most 200 nested levels does; `EndName` if a name after END
/// isn't that of its procedure or module; `Memory` if an allocation fails.
///
/// Recursion takes a few calls for each nested level of the tokens, at most 200 levels; a stack of 2 MiB is enough. Loops parse lists.
pub fn read_table(alloc: Global, bytes: &[u8], tokens: &Tokens) -> Result<Table, ParseFault>
    // The scanner returns these tokens for the bytes.
    requires { IsOutcome bytes.now (Ok tokens.now) }
    // With `Ok` the table has exactly the entries of the one tree that derives the tokens.
    ensures table { IfOk result (λ t. (m : Module) × IsTheTree bytes.now tokens.now m × (rows_in t ≡ rows_of m)) }
    // With `Ok` the entries satisfy the invariants of the table of a syntax tree.
    ensures rows { IfOk result (λ t. AreTreeRows (λ k. slice_get (kinds_of tokens.now) k ≡ Some Ident) (length tokens.now) (rows_in t)) }
    // With `Err` the bytes and tokens have the returned error, or an allocation failed.
    ensures fault { IfErr result (IsFaultOf bytes.now tokens.now) }
{
    tree_table_is_valid();
    end_names_follow_events();
    let list = tokens.as_slice();
    let mut builder = TableBuilder::new(alloc, list.len() as u32);
    match parse_with_brackets(alloc, &mut builder, list) {
        Err(stop) => {
            drop(builder);
            return Err(stop_fault(bytes.len() as u32, list, stop));
        }
        Ok(()) => {}
    }
    if builder.failed {
        drop(builder);
        return Err(ParseFault::Memory);
    }
    let table = finish_table(builder);
    match first_wrong_end(bytes, list, &table) {
        None => Ok(table),
        Some(offset) => Err(ParseFault::EndName { offset }),
    }
}
