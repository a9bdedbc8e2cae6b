//! The labels of a case (Oberon-07 report, section 9.5). Each function parses the production or part that its name states, and appends
//! the table entries of what it parses.
//! Clauses: the builder has counted exactly the tokens before the cursor, before a call (`requires`) and, with `Ok`, after it (`number`).
//! `effect`: the function returns what the grammar's reader, the last argument, returns for these tokens, unless it returns the error
//! `Memory`. With `Ok`, unless an allocation failed, it has appended exactly the entries (`.._rows`) of the parsed tree.

ghost use Rattle.std.specs.Prelude.{◌≡◌, IfOk};
ghost use Rattle.ob_scan.specs.declared.kind.Kind.TheVariants as kinds;
ghost use Rattle.ob_tree.specs.Statements.{label_events, label_range_events};
ghost use Rattle.table_rules.specs.Statements.{label_rows, label_range_rows};
ghost use Rattle.ob_grammar.specs.Combinators.{accept_at, many, optional, several};
ghost use Rattle.ob_grammar.specs.ParsesAs.{remaining};
ghost use Rattle.ob_grammar.specs.ReadStatements.{case_label_at, label_range_at};
ghost use Rattle.table_reader.specs.StatementShapes.{high_label_events, high_label_rows, ranges_events, ranges_rows, labels_events, labels_rows};
ghost use Rattle.table_reader.specs.Tabulating.{AppendsEntries};

use crate::uses::qualident_after;
use crate::words::advance_token;
use module_table::builder::{Context, TableBuilder};
use ob_grammar::cursor::Cursor;
use ob_grammar::stop::Stop;
use ob_grammar::tokens::accept;
use ob_scan::{Kind, Token};
use ob_tree::expression::Literal;
use ob_tree::token::Leaf;

/// Parses a label of a case: an integer, a string or a qualified identifier.
fn label(
    builder: &mut TableBuilder,
    context: Context,
    tokens: &[Token],
    input: Cursor,
) -> Result<Cursor, Stop>
    requires { builder.old.number ≡ input.at }
    ensures effect { AppendsEntries tokens.now label_events label_rows context builder.old builder.new result (case_label_at (remaining tokens.now input)) }
    ensures number { IfOk result (λ rest. builder.new.number ≡ rest.at) }
{
    match input.next(tokens) {
        Some((Leaf::Name(number), rest)) => qualident_after(builder, context, tokens, number, rest),
        Some((Leaf::Value(Literal::Integer, _), rest)) => Ok(advance_token(builder, rest)),
        Some((Leaf::Value(Literal::Text, _), rest)) => Ok(advance_token(builder, rest)),
        _ => Err(Stop::Unexpected(input)),
    }
}

/// Parses a label, or a range of two labels.
fn label_range(
    builder: &mut TableBuilder,
    context: Context,
    tokens: &[Token],
    input: Cursor,
) -> Result<Cursor, Stop>
    requires { builder.old.number ≡ input.at }
    ensures effect { AppendsEntries tokens.now label_range_events label_range_rows context builder.old builder.new result (label_range_at (remaining tokens.now input)) }
    ensures number { IfOk result (λ rest. builder.new.number ≡ rest.at) }
{
    match label(builder, context, tokens, input) {
        Ok(here) => high_label(builder, context, tokens, here),
        Err(stop) => Err(stop),
    }
}

/// Parses `..` and the upper bound of a range, if `..` is next.
fn high_label(
    builder: &mut TableBuilder,
    context: Context,
    tokens: &[Token],
    input: Cursor,
) -> Result<Cursor, Stop>
    requires { builder.old.number ≡ input.at }
    ensures effect { AppendsEntries tokens.now high_label_events high_label_rows context builder.old builder.new result (optional (accept_at kinds.DotDot) case_label_at (remaining tokens.now input)) }
    ensures number { IfOk result (λ rest. builder.new.number ≡ rest.at) }
{
    match accept(tokens, input, Kind::DotDot) {
        None => Ok(input),
        Some(rest) => {
            builder.advance();
            label(builder, context, tokens, rest)
        }
    }
}

/// Parses one label range or more, separated by commas.
pub(crate) fn label_ranges(
    builder: &mut TableBuilder,
    context: Context,
    tokens: &[Token],
    input: Cursor,
) -> Result<Cursor, Stop>
    requires { builder.old.number ≡ input.at }
    ensures effect { AppendsEntries tokens.now labels_events labels_rows context builder.old builder.new result (several kinds.Comma label_range_at (remaining tokens.now input)) }
    ensures number { IfOk result (λ rest. builder.new.number ≡ rest.at) }
{
    match label_range(builder, context, tokens, input) {
        Ok(here) => more_label_ranges(builder, context, tokens, here),
        Err(stop) => Err(stop),
    }
}

/// Parses the further label ranges of a case, each after a comma.
fn more_label_ranges(
    builder: &mut TableBuilder,
    context: Context,
    tokens: &[Token],
    input: Cursor,
) -> Result<Cursor, Stop>
    requires { builder.old.number ≡ input.at }
    ensures effect { AppendsEntries tokens.now ranges_events ranges_rows context builder.old builder.new result (many (accept_at kinds.Comma) label_range_at (remaining tokens.now input)) }
    ensures number { IfOk result (λ rest. builder.new.number ≡ rest.at) }
{
    let mut here = input;
    'more: while let Some(following) = accept(tokens, here, Kind::Comma) {
        builder.advance();
        match label_range(builder, context, tokens, following) {
            Ok(next) => here = next,
            Err(stop) => return Err(stop),
        }
    }
    Ok(here)
}
