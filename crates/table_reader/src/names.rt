//! Names (Oberon-07 report, section 4). Each function parses the names that its own name states, and appends their table entries.
//! Clauses: the builder has counted exactly the tokens before the cursor, before a call (`requires`) and, with `Ok`, after it (`number`).
//! `effect`: the function returns what the grammar's reader, the last argument, returns for these tokens, unless it returns the error
//! `Memory`. With `Ok`, unless an allocation failed, it has appended exactly the entries (`.._rows`) of the parsed names.

ghost use Rattle.std.specs.Prelude.{◌≡◌, IfOk};
ghost use Rattle.ob_scan.specs.declared.kind.Kind.TheVariants as kinds;
ghost use Rattle.ob_tree.specs.TreeEvents.{separated};
ghost use Rattle.ob_tree.specs.Names.{qualident_events, identdef_events};
ghost use Rattle.table_rules.specs.Statements.{qualident_rows};
ghost use Rattle.table_rules.specs.Types.{identdef_rows};
ghost use Rattle.ob_grammar.specs.Combinators.{accept_at, many, several};
ghost use Rattle.ob_grammar.specs.ParsesAs.{remaining};
ghost use Rattle.ob_grammar.specs.ReadNames.{qualident_at, identdef_at};
ghost use Rattle.table_reader.specs.TypeShapes.{more_events, more_rows, list_rows};
ghost use Rattle.table_reader.specs.Tabulating.{AppendsEntries};

use module_table::builder::{Context, TableBuilder};
use ob_grammar::cursor::Cursor;
use ob_grammar::names::{identdef, qualident};
use ob_grammar::stop::Stop;
use ob_grammar::tokens::accept;
use ob_scan::{Kind, Token};
use table_rules::walk::types::append_identdef;
use table_rules::walk::uses::append_qualident;

/// Parses a use of a qualified identifier, and appends its entry.
pub(crate) fn used_qualident(
    builder: &mut TableBuilder,
    context: Context,
    tokens: &[Token],
    input: Cursor,
) -> Result<Cursor, Stop>
    requires { builder.old.number ≡ input.at }
    ensures effect { AppendsEntries tokens.now qualident_events qualident_rows context builder.old builder.new result (qualident_at (remaining tokens.now input)) }
    ensures number { IfOk result (λ rest. builder.new.number ≡ rest.at) }
{
    match qualident(tokens, input) {
        Ok((name, rest)) => {
            append_qualident(builder, context, name);
            Ok(rest)
        }
        Err(stop) => Err(stop),
    }
}

/// Parses a declared identifier, with its export mark if it has one.
pub(crate) fn declared_name(
    builder: &mut TableBuilder,
    context: Context,
    tokens: &[Token],
    input: Cursor,
) -> Result<Cursor, Stop>
    requires { builder.old.number ≡ input.at }
    ensures effect { AppendsEntries tokens.now identdef_events identdef_rows context builder.old builder.new result (identdef_at (remaining tokens.now input)) }
    ensures number { IfOk result (λ rest. builder.new.number ≡ rest.at) }
{
    match identdef(tokens, input) {
        Ok((name, rest)) => {
            append_identdef(builder, context, name);
            Ok(rest)
        }
        Err(stop) => Err(stop),
    }
}

/// Parses the further declared identifiers of a list, each after a comma.
fn more_declared_names(
    builder: &mut TableBuilder,
    context: Context,
    tokens: &[Token],
    input: Cursor,
) -> Result<Cursor, Stop>
    requires { builder.old.number ≡ input.at }
    ensures effect { AppendsEntries tokens.now (more_events kinds.Comma identdef_events) (more_rows identdef_rows) context builder.old builder.new result (many (accept_at kinds.Comma) identdef_at (remaining tokens.now input)) }
    ensures number { IfOk result (λ rest. builder.new.number ≡ rest.at) }
{
    let mut here = input;
    'more: while let Some(following) = accept(tokens, here, Kind::Comma) {
        builder.advance();
        match declared_name(builder, context, tokens, following) {
            Ok(next) => here = next,
            Err(stop) => return Err(stop),
        }
    }
    Ok(here)
}

/// Parses one declared identifier or more, separated by commas.
pub(crate) fn declared_names(
    builder: &mut TableBuilder,
    context: Context,
    tokens: &[Token],
    input: Cursor,
) -> Result<Cursor, Stop>
    requires { builder.old.number ≡ input.at }
    ensures effect { AppendsEntries tokens.now (separated kinds.Comma identdef_events) (list_rows identdef_rows) context builder.old builder.new result (several kinds.Comma identdef_at (remaining tokens.now input)) }
    ensures number { IfOk result (λ rest. builder.new.number ≡ rest.at) }
{
    match declared_name(builder, context, tokens, input) {
        Ok(here) => more_declared_names(builder, context, tokens, here),
        Err(stop) => Err(stop),
    }
}
