//! Formal parameters (Oberon-07 report, section 10.1). Each function parses the production or part that its name states, and appends
//! the table entries of what it parses.
//! Clauses: the builder has counted exactly the tokens before the cursor, before a call (`requires`) and, with `Ok`, after it (`number`).
//! `effect`: the function returns what the grammar's reader, the last argument, returns for these tokens, unless it returns the error
//! `Memory`. With `Ok`, unless an allocation failed, it has appended exactly the entries (`.._rows`, `.._piece`) of the parsed tree.

ghost use Rattle.std.specs.Prelude.{◌≡◌, ◌++◌, false, IfOk};
ghost use Rattle.ob_scan.specs.declared.kind.Kind.TheVariants as kinds;
ghost use Rattle.ob_tree.specs.TreeEvents.{declared, separated, word};
ghost use Rattle.ob_tree.specs.Names.{qualident_events};
ghost use Rattle.ob_tree.specs.Types.{section_events, parameters_events};
ghost use Rattle.module_table.specs.Parts.{both, token};
ghost use Rattle.table_rules.specs.Types.{open_arrays as arrays_piece, parameter_rows, parameters_rows, section_inner as inner_piece, section_rows};
ghost use Rattle.ob_grammar.specs.Combinators.{accept_at, expect_at, many, name_at, optional, seq, several, unless};
ghost use Rattle.ob_grammar.specs.ParsesAs.{remaining};
ghost use Rattle.ob_grammar.specs.ReadNames.{qualident_at};
ghost use Rattle.ob_grammar.specs.ReadTypes.{parameters_at, section_at, optional_parameters_at};
ghost use Rattle.table_reader.specs.TypeShapes.{result_type_events, result_type_rows, arrays_events, closing_at, closing_events, closing_rows, formal_at, formal_name_rows, formal_events, formal_rows, more_events, more_rows, inner_at, inner_events, list_rows, opened_at, opened_events, opened_rows, sections_events, sections_rows, optional_parameters_events, optional_parameters_rows};
ghost use Rattle.table_reader.specs.Tabulating.{AppendsEntries};

use crate::names::used_qualident;
use crate::words::{accept_word, expect_word};
use module_table::builder::{Context, TableBuilder, decl_group_context, new_decl_group};
use module_table::{DeclKind, Part};
use ob_grammar::cursor::Cursor;
use ob_grammar::names::qualident;
use ob_grammar::stop::Stop;
use ob_grammar::tokens::{accept, identifier, next_is};
use ob_scan::{Kind, Token};
use table_rules::walk::types::{add_type_component, add_type_name, append_parameter};
use table_rules::walk::uses::append_qualident;

/// Parses the name of a parameter.
fn parameter_name(
    builder: &mut TableBuilder,
    context: Context,
    tokens: &[Token],
    input: Cursor,
) -> Result<Cursor, Stop>
    requires { builder.old.number ≡ input.at }
    ensures effect { AppendsEntries tokens.now (declared false) (λ n. parameter_rows) context builder.old builder.new result (name_at (declared false) (remaining tokens.now input)) }
    ensures number { IfOk result (λ rest. builder.new.number ≡ rest.at) }
{
    match identifier(tokens, input) {
        Ok((_, rest)) => {
            append_parameter(builder, context);
            Ok(rest)
        }
        Err(stop) => Err(stop),
    }
}

/// Parses the further parameter names of a section, each after a comma.
fn more_names(
    builder: &mut TableBuilder,
    context: Context,
    tokens: &[Token],
    input: Cursor,
) -> Result<Cursor, Stop>
    requires { builder.old.number ≡ input.at }
    ensures effect { AppendsEntries tokens.now (more_events kinds.Comma (declared false)) (more_rows (λ n. parameter_rows)) context builder.old builder.new result (many (accept_at kinds.Comma) (name_at (declared false)) (remaining tokens.now input)) }
    ensures number { IfOk result (λ rest. builder.new.number ≡ rest.at) }
{
    let mut here = input;
    'more: while let Some(following) = accept(tokens, here, Kind::Comma) {
        builder.advance();
        match parameter_name(builder, context, tokens, following) {
            Ok(next) => here = next,
            Err(stop) => return Err(stop),
        }
    }
    Ok(here)
}

/// Parses the parameter names of a section: one or more, separated by commas.
fn names(
    builder: &mut TableBuilder,
    context: Context,
    tokens: &[Token],
    input: Cursor,
) -> Result<Cursor, Stop>
    requires { builder.old.number ≡ input.at }
    ensures effect { AppendsEntries tokens.now (separated kinds.Comma (declared false)) (list_rows (λ n. parameter_rows)) context builder.old builder.new result (several kinds.Comma (name_at (declared false)) (remaining tokens.now input)) }
    ensures number { IfOk result (λ rest. builder.new.number ≡ rest.at) }
{
    match parameter_name(builder, context, tokens, input) {
        Ok(here) => more_names(builder, context, tokens, here),
        Err(stop) => Err(stop),
    }
}

/// Parses any number of ARRAY OF, also none.
fn open_arrays(
    builder: &mut TableBuilder,
    context: Context,
    tokens: &[Token],
    input: Cursor,
) -> Result<Cursor, Stop>
    requires { builder.old.number ≡ input.at }
    ensures effect { AppendsEntries tokens.now arrays_events arrays_piece context builder.old builder.new result (many (accept_at kinds.Array) (expect_at kinds.Of) (remaining tokens.now input)) }
    ensures number { IfOk result (λ rest. builder.new.number ≡ rest.at) }
{
    let mut here = input;
    'more: while let Some(following) = accept(tokens, here, Kind::Array) {
        add_type_component(builder, context, Part::Array);
        builder.advance();
        match expect_word(builder, tokens, following, Kind::Of) {
            Ok(next) => here = next,
            Err(stop) => return Err(stop),
        }
    }
    Ok(here)
}

/// Parses the type name of a formal type, after its ARRAY OF if it has any.
fn formal_type_name(
    builder: &mut TableBuilder,
    context: Context,
    tokens: &[Token],
    input: Cursor,
) -> Result<Cursor, Stop>
    requires { builder.old.number ≡ input.at }
    ensures effect { AppendsEntries tokens.now qualident_events formal_name_rows context builder.old builder.new result (qualident_at (remaining tokens.now input)) }
    ensures number { IfOk result (λ rest. builder.new.number ≡ rest.at) }
{
    match qualident(tokens, input) {
        Ok((name, rest)) => {
            add_type_name(builder, context, name);
            append_qualident(builder, context, name);
            Ok(rest)
        }
        Err(stop) => Err(stop),
    }
}

/// Parses a formal type: any number of ARRAY OF, and a type name.
fn formal_type(
    builder: &mut TableBuilder,
    context: Context,
    tokens: &[Token],
    input: Cursor,
) -> Result<Cursor, Stop>
    requires { builder.old.number ≡ input.at }
    ensures effect { AppendsEntries tokens.now formal_events formal_rows context builder.old builder.new result (formal_at (remaining tokens.now input)) }
    ensures number { IfOk result (λ rest. builder.new.number ≡ rest.at) }
{
    match open_arrays(builder, context, tokens, input) {
        Ok(here) => formal_type_name(builder, context, tokens, here),
        Err(stop) => Err(stop),
    }
}

/// Parses a colon and a formal type.
fn colon_and_formal_type(
    builder: &mut TableBuilder,
    context: Context,
    tokens: &[Token],
    input: Cursor,
) -> Result<Cursor, Stop>
    requires { builder.old.number ≡ input.at }
    ensures effect { AppendsEntries tokens.now (λ x. word kinds.Colon ++ formal_events x) (λ x. both token (formal_rows x)) context builder.old builder.new result (seq (expect_at kinds.Colon) formal_at (remaining tokens.now input)) }
    ensures number { IfOk result (λ rest. builder.new.number ≡ rest.at) }
{
    match expect_word(builder, tokens, input, Kind::Colon) {
        Ok(here) => formal_type(builder, context, tokens, here),
        Err(stop) => Err(stop),
    }
}

/// Parses a section whose declaration group is already open: VAR if it is next, the names, a colon and the formal type.
fn section_inner(
    builder: &mut TableBuilder,
    context: Context,
    tokens: &[Token],
    input: Cursor,
) -> Result<Cursor, Stop>
    requires { builder.old.number ≡ input.at }
    ensures effect { AppendsEntries tokens.now inner_events inner_piece context builder.old builder.new result (inner_at (remaining tokens.now input)) }
    ensures number { IfOk result (λ rest. builder.new.number ≡ rest.at) }
{
    let here = accept_word(builder, context, tokens, input, Kind::Var);
    match names(builder, context, tokens, here) {
        Ok(here) => colon_and_formal_type(builder, context, tokens, here),
        Err(stop) => Err(stop),
    }
}

/// Parses a section of formal parameters, whose parameters have one formal type.
fn section(
    builder: &mut TableBuilder,
    context: Context,
    tokens: &[Token],
    input: Cursor,
) -> Result<Cursor, Stop>
    requires { builder.old.number ≡ input.at }
    ensures effect { AppendsEntries tokens.now section_events section_rows context builder.old builder.new result (section_at (remaining tokens.now input)) }
    ensures number { IfOk result (λ rest. builder.new.number ≡ rest.at) }
{
    let first = builder.number;
    let row = new_decl_group(DeclKind::Parameter, context, first);
    let at = builder.open_decl_group(row);
    match section_inner(builder, decl_group_context(context, first), tokens, input) {
        Ok(here) => {
            builder.close_decl_group(at, row);
            Ok(here)
        }
        Err(stop) => Err(stop),
    }
}

/// Parses the further sections, each after a semicolon.
fn more_sections(
    builder: &mut TableBuilder,
    context: Context,
    tokens: &[Token],
    input: Cursor,
) -> Result<Cursor, Stop>
    requires { builder.old.number ≡ input.at }
    ensures effect { AppendsEntries tokens.now (more_events kinds.Semicolon section_events) (more_rows section_rows) context builder.old builder.new result (many (accept_at kinds.Semicolon) section_at (remaining tokens.now input)) }
    ensures number { IfOk result (λ rest. builder.new.number ≡ rest.at) }
{
    let mut here = input;
    'more: while let Some(following) = accept(tokens, here, Kind::Semicolon) {
        builder.advance();
        match section(builder, context, tokens, following) {
            Ok(next) => here = next,
            Err(stop) => return Err(stop),
        }
    }
    Ok(here)
}

/// Parses one section or more, separated by semicolons.
fn section_list(
    builder: &mut TableBuilder,
    context: Context,
    tokens: &[Token],
    input: Cursor,
) -> Result<Cursor, Stop>
    requires { builder.old.number ≡ input.at }
    ensures effect { AppendsEntries tokens.now (separated kinds.Semicolon section_events) (list_rows section_rows) context builder.old builder.new result (several kinds.Semicolon section_at (remaining tokens.now input)) }
    ensures number { IfOk result (λ rest. builder.new.number ≡ rest.at) }
{
    match section(builder, context, tokens, input) {
        Ok(here) => more_sections(builder, context, tokens, here),
        Err(stop) => Err(stop),
    }
}

/// Parses the sections of formal parameters, if the closing parenthesis is not next.
fn sections(
    builder: &mut TableBuilder,
    context: Context,
    tokens: &[Token],
    input: Cursor,
) -> Result<Cursor, Stop>
    requires { builder.old.number ≡ input.at }
    ensures effect { AppendsEntries tokens.now sections_events sections_rows context builder.old builder.new result (optional (unless kinds.RightParen) (several kinds.Semicolon section_at) (remaining tokens.now input)) }
    ensures number { IfOk result (λ rest. builder.new.number ≡ rest.at) }
{
    if next_is(tokens, input, Kind::RightParen) {
        return Ok(input);
    }
    section_list(builder, context, tokens, input)
}

/// Parses a colon and the type of a result, if a colon is next.
fn result_type(
    builder: &mut TableBuilder,
    context: Context,
    tokens: &[Token],
    input: Cursor,
) -> Result<Cursor, Stop>
    requires { builder.old.number ≡ input.at }
    ensures effect { AppendsEntries tokens.now result_type_events result_type_rows context builder.old builder.new result (optional (accept_at kinds.Colon) qualident_at (remaining tokens.now input)) }
    ensures number { IfOk result (λ rest. builder.new.number ≡ rest.at) }
{
    match accept(tokens, input, Kind::Colon) {
        None => Ok(input),
        Some(rest) => {
            builder.advance();
            used_qualident(builder, context, tokens, rest)
        }
    }
}

/// Parses the closing parenthesis of formal parameters and, if a colon follows, the type of the result.
fn parenthesis_and_result_type(
    builder: &mut TableBuilder,
    context: Context,
    tokens: &[Token],
    input: Cursor,
) -> Result<Cursor, Stop>
    requires { builder.old.number ≡ input.at }
    ensures effect { AppendsEntries tokens.now closing_events closing_rows context builder.old builder.new result (closing_at (remaining tokens.now input)) }
    ensures number { IfOk result (λ rest. builder.new.number ≡ rest.at) }
{
    match expect_word(builder, tokens, input, Kind::RightParen) {
        Ok(here) => result_type(builder, context, tokens, here),
        Err(stop) => Err(stop),
    }
}

/// Parses formal parameters after their opening parenthesis.
fn parameters_remainder(
    builder: &mut TableBuilder,
    context: Context,
    tokens: &[Token],
    input: Cursor,
) -> Result<Cursor, Stop>
    requires { builder.old.number ≡ input.at }
    ensures effect { AppendsEntries tokens.now opened_events opened_rows context builder.old builder.new result (opened_at (remaining tokens.now input)) }
    ensures number { IfOk result (λ rest. builder.new.number ≡ rest.at) }
{
    match sections(builder, context, tokens, input) {
        Ok(here) => parenthesis_and_result_type(builder, context, tokens, here),
        Err(stop) => Err(stop),
    }
}

/// Parses formal parameters.
fn parameters(
    builder: &mut TableBuilder,
    context: Context,
    tokens: &[Token],
    input: Cursor,
) -> Result<Cursor, Stop>
    requires { builder.old.number ≡ input.at }
    ensures effect { AppendsEntries tokens.now parameters_events parameters_rows context builder.old builder.new result (parameters_at (remaining tokens.now input)) }
    ensures number { IfOk result (λ rest. builder.new.number ≡ rest.at) }
{
    match expect_word(builder, tokens, input, Kind::LeftParen) {
        Ok(here) => parameters_remainder(builder, context, tokens, here),
        Err(stop) => Err(stop),
    }
}

/// Parses formal parameters, if an opening parenthesis is next.
pub(crate) fn optional_parameters(
    builder: &mut TableBuilder,
    context: Context,
    tokens: &[Token],
    input: Cursor,
) -> Result<Cursor, Stop>
    requires { builder.old.number ≡ input.at }
    ensures effect { AppendsEntries tokens.now optional_parameters_events optional_parameters_rows context builder.old builder.new result (optional_parameters_at (remaining tokens.now input)) }
    ensures number { IfOk result (λ rest. builder.new.number ≡ rest.at) }
{
    if next_is(tokens, input, Kind::LeftParen) {
        return parameters(builder, context, tokens, input);
    }
    Ok(input)
}
