//! The names after END: each is parsed and appended as an entry, and all are compared when the table is complete.
//! Clauses of the parsing functions: the builder has counted exactly the tokens before the cursor, before a call (`requires number`) and,
//! with `Ok`, after it (`number`). `effect`: the function returns what the grammar's reader, the last argument, returns, unless it returns
//! the error `Memory`. With `Ok`, unless an allocation failed, it has appended the entry.

ghost use Rattle.std.specs.Prelude.{◌≡◌, ◌+◌, ◌<◌, ◌^◌, map, IfOk};
ghost use Rattle.std.specs.List.{All};
ghost use Rattle.table_rules.specs.Declaring.{procedure_end, module_end};
ghost use Rattle.table_rules.specs.Naming.{ending_of};
ghost use Rattle.module_table.specs.TableStages.{after};
ghost use Rattle.module_table.specs.Parts.{with_rows, token};
ghost use Rattle.module_table.specs.Tables.{rows_in};
ghost use Rattle.ob_tree.specs.TreeEvents.{repeated};
ghost use Rattle.ob_grammar.specs.Combinators.{name_at};
ghost use Rattle.ob_grammar.specs.ParsesAs.{remaining};
ghost use Rattle.ob_grammar.specs.Ends.{AreTokenNumbers, HasFirstWrongEnd, IsEnd, IsInText};
ghost use Rattle.table_reader.specs.Tabulating.{AppendsEntriesBy};

use module_table::builder::{Context, TableBuilder};
use module_table::{End, Table};
use ob_grammar::cursor::Cursor;
use ob_grammar::ends::names_match;
use ob_grammar::stop::Stop;
use ob_grammar::tokens::identifier;
use ob_scan::Token;
use table_rules::walk::declarations::{append_module_end, append_procedure_end};

/// Parses the name after the END of a procedure; the names are compared later. `name` is the index of the procedure's name, which the name
/// after END has to repeat. Only the contract uses it.
pub(crate) fn procedure_end_name(
    builder: &mut TableBuilder,
    context: Context,
    tokens: &[Token],
    input: Cursor,
    name: u32,
) -> Result<Cursor, Stop>
    // The index of the procedure's name, one more than that of PROCEDURE, fits into 32 bits.
    requires decl_group { context.decl_group + 1 < 2 ^ 32 }
    requires number { builder.old.number ≡ input.at }
    ensures effect { AppendsEntriesBy tokens.now (repeated name) (λ x. after (with_rows procedure_end token) context) builder.old builder.new result (name_at (repeated name) (remaining tokens.now input)) }
    ensures number { IfOk result (λ rest. builder.new.number ≡ rest.at) }
{
    match identifier(tokens, input) {
        Ok((_, rest)) => {
            append_procedure_end(builder, context);
            Ok(rest)
        }
        Err(stop) => Err(stop),
    }
}

/// Parses the name after the END of the module; the names are compared later. `name` is the index of the module's name, which the name
/// after END has to repeat. Only the contract uses it.
pub(crate) fn module_end_name(
    builder: &mut TableBuilder,
    context: Context,
    tokens: &[Token],
    input: Cursor,
    name: u32,
) -> Result<Cursor, Stop>
    requires { builder.old.number ≡ input.at }
    ensures effect { AppendsEntriesBy tokens.now (repeated name) (λ x. after (with_rows module_end token) context) builder.old builder.new result (name_at (repeated name) (remaining tokens.now input)) }
    ensures number { IfOk result (λ rest. builder.new.number ≡ rest.at) }
{
    match identifier(tokens, input) {
        Ok((_, rest)) => {
            append_module_end(builder, context);
            Ok(rest)
        }
        Err(stop) => Err(stop),
    }
}

/// Whether the name after an END equals the name of its procedure or, if `end` has none, of the module.
fn end_name_matches(bytes: &[u8], tokens: &[Token], table: &Table, end: End) -> bool
    // Both indexes in the entry are indexes of tokens.
    requires in_range { AreTokenNumbers tokens.now (ending_of end) }
    requires in_text { All (IsInText bytes.now) tokens.now }
    ensures { IsEnd bytes.now tokens.now result (ending_of end) }
{
    match end.of {
        None => names_match(bytes, tokens, table.module_name_token(), end.number),
        Some(name) => names_match(bytes, tokens, name, end.number),
    }
}

/// The byte offset of the first name after an END that differs from the name of its procedure or module; `None` if all are equal.
pub(crate) fn first_wrong_end(bytes: &[u8], tokens: &[Token], table: &Table) -> Option<u32>
    // The indexes in all entries of names after END are indexes of tokens.
    requires in_range { All (AreTokenNumbers tokens.now) (map ending_of (rows_in table.now).ends) }
    requires in_text { All (IsInText bytes.now) tokens.now }
    ensures { HasFirstWrongEnd bytes.now tokens.now (map ending_of (rows_in table.now).ends) result }
{
    'names: for end in table.ends() {
        if !end_name_matches(bytes, tokens, table, *end) {
            return Some(tokens[end.number as usize].start);
        }
    }
    None
}
