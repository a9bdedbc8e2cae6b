//! Types (Oberon-07 report, section 6). Each function parses the production or part that its name states, and appends the table entries
//! of what it parses. `depth` is the number of nested levels that are left for it.
//! Clauses: the builder has counted exactly the tokens before the cursor, before a call (`requires`) and, with `Ok`, after it (`number`).
//! `effect`: the function returns what the grammar's reader, the last argument, returns for these tokens, unless it returns the error
//! `Memory`. With `Ok`, unless an allocation failed, it has appended exactly the entries (`.._rows`, `.._stage`) of the parsed tree.

ghost use Rattle.std.specs.Prelude.{◌≡◌, ◌+◌, IfOk};
ghost use Rattle.ob_scan.specs.declared.kind.Kind.TheVariants as kinds;
ghost use Rattle.ob_tree.specs.Constructs as constructs;
ghost use Rattle.ob_tree.specs.TreeEvents.{word};
ghost use Rattle.ob_tree.specs.Expressions.{expr_list_events, expr_events};
ghost use Rattle.ob_tree.specs.Types.{type_events, fields_events, var_events};
ghost use Rattle.ob_tree.specs.Widths.{base_width};
ghost use Rattle.table_rules.specs.Types.{fields_rows, lengths_rows, type_rows, var_rows};
ghost use Rattle.ob_grammar.specs.Combinators.{accept_at, expect_at, many, node, nothing, optional, prefixed, seq, several, unless};
ghost use Rattle.ob_grammar.specs.ParsesAs.{remaining};
ghost use Rattle.ob_grammar.specs.ReadExpressions.{expr_at};
ghost use Rattle.ob_grammar.specs.ReadNames as readers;
ghost use Rattle.ob_grammar.specs.ReadTypes.{field_start, fields_with, record_with, optional_parameters_at, type_at, type_with, var_with};
ghost use Rattle.table_reader.specs.TypeShapes.{type_after_token_events, type_after_token_rows, closed_events, ended_events, ended_rows, field_events, field_rows, more_lengths_rows, more_events, more_fields_rows, record_stage, optional_fields_events, optional_fields_rows};
ghost use Rattle.table_reader.specs.Tabulating.{AppendsEntries, AppendsEntriesBy};

use crate::expressions::expression;
use crate::names::declared_names;
use crate::parameters::optional_parameters;
use crate::source::ParserInput;
use crate::words::{accept_word, expect_word};
use module_table::builder::{
    Context, TableBuilder, block_context, decl_group_context, new_decl_group,
};
use module_table::{Block, DeclKind, Part};
use ob_grammar::cursor::Cursor;
use ob_grammar::names::qualident_after;
use ob_grammar::stop::Stop;
use ob_grammar::tokens::{accept, depth_stop, next_is};
use ob_grammar::types::{accept_field_separator, base, begins_type};
use ob_scan::{Kind, Token};
use ob_tree::name::Qualident;
use ob_tree::token::Leaf;
use table_rules::walk::types::{
    add_record, add_type_component, append_base, append_type_name, record_context, type_context,
};

/// Parses a type, which takes one of the `depth` nesting levels that are left. If none is left, returns an error.
#[cycle(types)]
pub(crate) fn type_expression(
    builder: &mut TableBuilder,
    context: Context,
    source: &ParserInput,
    input: Cursor,
    depth: u32,
) -> Result<Cursor, Stop>
    requires { builder.old.number ≡ input.at }
    ensures effect { AppendsEntries source.now.tokens.now type_events type_rows context builder.old builder.new result (type_at depth (remaining source.now.tokens.now input)) }
    ensures number { IfOk result (λ rest. builder.new.number ≡ rest.at) }
{
    if depth == 0 {
        return Err(depth_stop(source.tokens, input, begins_type(source.tokens, input)));
    }
    type_after_depth_check(builder, context, source, input, depth - 1)
}

/// Parses a type. `depth` is the number of nesting levels left for its parts: the type's own level is already subtracted.
#[cycle(types)]
fn type_after_depth_check(
    builder: &mut TableBuilder,
    context: Context,
    source: &ParserInput,
    input: Cursor,
    depth: u32,
) -> Result<Cursor, Stop>
    requires { builder.old.number ≡ input.at }
    ensures effect { AppendsEntries source.now.tokens.now type_events type_rows context builder.old builder.new result (type_with (expr_at depth) (type_at depth) (remaining source.now.tokens.now input)) }
    ensures number { IfOk result (λ rest. builder.new.number ≡ rest.at) }
{
    match input.next(source.tokens) {
        Some((Leaf::Name(head), rest)) => named_type(builder, context, source.tokens, head, rest),
        Some((Leaf::Word(Kind::Array), rest)) => array(builder, context, source, rest, depth),
        Some((Leaf::Word(Kind::Record), rest)) => record(builder, context, source, rest, depth),
        Some((Leaf::Word(Kind::Pointer), rest)) => pointer(builder, context, source, rest, depth),
        Some((Leaf::Word(Kind::Procedure), rest)) => procedure(
            builder,
            context,
            source.tokens,
            rest,
        ),
        _ => Err(Stop::Unexpected(input)),
    }
}

/// Parses a type name after its first identifier, which has the index `head`.
fn named_type(
    builder: &mut TableBuilder,
    context: Context,
    tokens: &[Token],
    head: u32,
    input: Cursor,
) -> Result<Cursor, Stop>
    // The builder hasn't counted the first identifier yet.
    requires { builder.old.number + 1 ≡ input.at }
    ensures effect { AppendsEntries tokens.now type_events type_rows context builder.old builder.new result (node constructs.NamedType (readers.qualident_after head) (remaining tokens.now input)) }
    ensures number { IfOk result (λ rest. builder.new.number ≡ rest.at) }
{
    match qualident_after(tokens, head, input) {
        Ok((name, rest)) => {
            append_type_name(builder, context, name);
            Ok(rest)
        }
        Err(stop) => Err(stop),
    }
}

/// Parses an array type after its ARRAY.
#[cycle(types)]
fn array(
    builder: &mut TableBuilder,
    context: Context,
    source: &ParserInput,
    input: Cursor,
    depth: u32,
) -> Result<Cursor, Stop>
    // The builder hasn't counted ARRAY yet.
    requires { builder.old.number + 1 ≡ input.at }
    ensures effect { AppendsEntries source.now.tokens.now type_events type_rows context builder.old builder.new result
        (node constructs.ArrayType (prefixed (word kinds.Array) (seq (several kinds.Comma (expr_at depth)) (seq (expect_at kinds.Of) (type_at depth)))) (remaining source.now.tokens.now input)) }
    ensures number { IfOk result (λ rest. builder.new.number ≡ rest.at) }
{
    add_type_component(builder, context, Part::Array);
    builder.advance();
    match lengths(builder, context, source, input, depth) {
        Ok(here) => type_after_token(
            builder,
            type_context(context, false),
            source,
            here,
            Kind::Of,
            depth,
        ),
        Err(stop) => Err(stop),
    }
}

/// Parses the lengths of an array.
fn lengths(
    builder: &mut TableBuilder,
    context: Context,
    source: &ParserInput,
    input: Cursor,
    depth: u32,
) -> Result<Cursor, Stop>
    requires { builder.old.number ≡ input.at }
    ensures effect { AppendsEntries source.now.tokens.now expr_list_events lengths_rows context builder.old builder.new result (several kinds.Comma (expr_at depth) (remaining source.now.tokens.now input)) }
    ensures number { IfOk result (λ rest. builder.new.number ≡ rest.at) }
{
    match expression(builder, context, source, input, depth) {
        Ok(here) => more_lengths(builder, context, source, here, depth),
        Err(stop) => Err(stop),
    }
}

/// Parses the further lengths of an array, each after a comma. Each further length begins an array type of its own.
fn more_lengths(
    builder: &mut TableBuilder,
    context: Context,
    source: &ParserInput,
    input: Cursor,
    depth: u32,
) -> Result<Cursor, Stop>
    requires { builder.old.number ≡ input.at }
    ensures effect { AppendsEntries source.now.tokens.now (more_events kinds.Comma expr_events) more_lengths_rows context builder.old builder.new result (many (accept_at kinds.Comma) (expr_at depth) (remaining source.now.tokens.now input)) }
    ensures number { IfOk result (λ rest. builder.new.number ≡ rest.at) }
{
    let mut here = input;
    'more: while let Some(following) = accept(source.tokens, here, Kind::Comma) {
        add_type_component(builder, context, Part::Array);
        builder.advance();
        match expression(builder, context, source, following, depth) {
            Ok(next) => here = next,
            Err(stop) => return Err(stop),
        }
    }
    Ok(here)
}

/// Parses a token of this kind and a type. It is always inlined, so that a level of nesting takes as few calls as in `ob_parse`.
#[inline(always)]
#[cycle(types)]
fn type_after_token(
    builder: &mut TableBuilder,
    context: Context,
    source: &ParserInput,
    input: Cursor,
    kind: Kind,
    depth: u32,
) -> Result<Cursor, Stop>
    requires { builder.old.number ≡ input.at }
    ensures effect { AppendsEntries source.now.tokens.now (type_after_token_events kind) type_after_token_rows context builder.old builder.new result (seq (expect_at kind) (type_at depth) (remaining source.now.tokens.now input)) }
    ensures number { IfOk result (λ rest. builder.new.number ≡ rest.at) }
{
    match expect_word(builder, source.tokens, input, kind) {
        Ok(here) => type_expression(builder, context, source, here, depth),
        Err(stop) => Err(stop),
    }
}

/// Parses a pointer type after its POINTER.
#[cycle(types)]
fn pointer(
    builder: &mut TableBuilder,
    context: Context,
    source: &ParserInput,
    input: Cursor,
    depth: u32,
) -> Result<Cursor, Stop>
    // The builder hasn't counted POINTER yet.
    requires { builder.old.number + 1 ≡ input.at }
    ensures effect { AppendsEntries source.now.tokens.now type_events type_rows context builder.old builder.new result
        (node constructs.PointerType (prefixed (word kinds.Pointer) (seq (expect_at kinds.To) (type_at depth))) (remaining source.now.tokens.now input)) }
    ensures number { IfOk result (λ rest. builder.new.number ≡ rest.at) }
{
    add_type_component(builder, context, Part::Pointer);
    builder.advance();
    type_after_token(
        builder,
        type_context(context, true),
        source,
        input,
        Kind::To,
        depth,
    )
}

/// Parses a procedure type after its PROCEDURE. A procedure type is a block of its own, which begins with PROCEDURE.
fn procedure(
    builder: &mut TableBuilder,
    context: Context,
    tokens: &[Token],
    input: Cursor,
) -> Result<Cursor, Stop>
    // The builder hasn't counted PROCEDURE yet.
    requires { builder.old.number + 1 ≡ input.at }
    ensures effect { AppendsEntries tokens.now type_events type_rows context builder.old builder.new result
        (node constructs.ProcedureType (prefixed (word kinds.Procedure) optional_parameters_at) (remaining tokens.now input)) }
    ensures number { IfOk result (λ rest. builder.new.number ≡ rest.at) }
{
    add_type_component(builder, context, Part::Procedure);
    let first = builder.number;
    builder.add_block(Block {
        first,
        outer: context.block,
    });
    builder.advance();
    optional_parameters(builder, block_context(context, first), tokens, input)
}

/// Parses a record type after its RECORD. Parses the base type first, since the record's entry contains it.
#[cycle(types)]
fn record(
    builder: &mut TableBuilder,
    context: Context,
    source: &ParserInput,
    input: Cursor,
    depth: u32,
) -> Result<Cursor, Stop>
    // The builder hasn't counted RECORD yet.
    requires { builder.old.number + 1 ≡ input.at }
    ensures effect { AppendsEntries source.now.tokens.now type_events type_rows context builder.old builder.new result
        (node constructs.RecordType (prefixed (word kinds.Record) (record_with (type_at depth))) (remaining source.now.tokens.now input)) }
    ensures number { IfOk result (λ rest. builder.new.number ≡ rest.at) }
{
    match base(source.tokens, input) {
        Ok((base, here)) => {
            add_type_component(builder, context, Part::Record);
            record_after_base(builder, context, source, here, base, depth)
        }
        Err(stop) => Err(stop),
    }
}

/// Appends the entries of a record type and of its base, if it has one, and parses the record type after the base.
#[inline(always)]
#[cycle(types)]
fn record_after_base(
    builder: &mut TableBuilder,
    context: Context,
    source: &ParserInput,
    input: Cursor,
    base: Option<Qualident>,
    depth: u32,
) -> Result<Cursor, Stop>
    // The builder hasn't counted RECORD and the tokens of the base yet.
    requires { builder.old.number + 1 + base_width base ≡ input.at }
    ensures effect { AppendsEntriesBy source.now.tokens.now closed_events (record_stage base context) builder.old builder.new result (seq (optional (unless kinds.End) (fields_with (type_at depth))) (expect_at kinds.End) (remaining source.now.tokens.now input)) }
    ensures number { IfOk result (λ rest. builder.new.number ≡ rest.at) }
{
    let around = record_context(context, builder.number);
    add_record(builder, context, base);
    builder.advance();
    append_base(builder, around, base);
    match optional_fields(builder, around, source, input, depth) {
        Ok(here) => expect_word(builder, source.tokens, here, Kind::End),
        Err(stop) => Err(stop),
    }
}

/// Parses the field lists of a record, unless END is next.
#[cycle(types)]
fn optional_fields(
    builder: &mut TableBuilder,
    context: Context,
    source: &ParserInput,
    input: Cursor,
    depth: u32,
) -> Result<Cursor, Stop>
    requires { builder.old.number ≡ input.at }
    ensures effect { AppendsEntries source.now.tokens.now optional_fields_events optional_fields_rows context builder.old builder.new result (optional (unless kinds.End) (fields_with (type_at depth)) (remaining source.now.tokens.now input)) }
    ensures number { IfOk result (λ rest. builder.new.number ≡ rest.at) }
{
    if next_is(source.tokens, input, Kind::End) {
        return Ok(input);
    }
    fields(builder, context, source, input, depth)
}

/// Parses the field lists of a record.
#[cycle(types)]
fn fields(
    builder: &mut TableBuilder,
    context: Context,
    source: &ParserInput,
    input: Cursor,
    depth: u32,
) -> Result<Cursor, Stop>
    requires { builder.old.number ≡ input.at }
    ensures effect { AppendsEntries source.now.tokens.now fields_events fields_rows context builder.old builder.new result (fields_with (type_at depth) (remaining source.now.tokens.now input)) }
    ensures number { IfOk result (λ rest. builder.new.number ≡ rest.at) }
{
    match field_list(builder, context, source, input, depth) {
        Ok(here) => fields_remainder(builder, context, source, here, depth),
        Err(stop) => Err(stop),
    }
}

/// Parses the further field lists, and the semicolon that may follow them.
#[inline(always)]
#[cycle(types)]
fn fields_remainder(
    builder: &mut TableBuilder,
    context: Context,
    source: &ParserInput,
    input: Cursor,
    depth: u32,
) -> Result<Cursor, Stop>
    requires { builder.old.number ≡ input.at }
    ensures effect { AppendsEntries source.now.tokens.now ended_events ended_rows context builder.old builder.new result
        (seq (many field_start (node constructs.FieldList (var_with (type_at depth)))) (optional (accept_at kinds.Semicolon) nothing) (remaining source.now.tokens.now input)) }
    ensures number { IfOk result (λ rest. builder.new.number ≡ rest.at) }
{
    match more_field_lists(builder, context, source, input, depth) {
        Ok(here) => Ok(accept_word(builder, context, source.tokens, here, Kind::Semicolon)),
        Err(stop) => Err(stop),
    }
}

/// Parses the further field lists, each after a semicolon.
#[cycle(types)]
fn more_field_lists(
    builder: &mut TableBuilder,
    context: Context,
    source: &ParserInput,
    input: Cursor,
    depth: u32,
) -> Result<Cursor, Stop>
    requires { builder.old.number ≡ input.at }
    ensures effect { AppendsEntries source.now.tokens.now (more_events kinds.Semicolon field_events) more_fields_rows context builder.old builder.new result
        (many field_start (node constructs.FieldList (var_with (type_at depth))) (remaining source.now.tokens.now input)) }
    ensures number { IfOk result (λ rest. builder.new.number ≡ rest.at) }
{
    let mut here = input;
    'more: while let Some(following) = accept_field_separator(source.tokens, here) {
        builder.advance();
        match field_list(builder, context, source, following, depth) {
            Ok(next) => here = next,
            Err(stop) => return Err(stop),
        }
    }
    Ok(here)
}

/// Parses a field list: field names, a colon and their type.
#[cycle(types)]
fn field_list(
    builder: &mut TableBuilder,
    context: Context,
    source: &ParserInput,
    input: Cursor,
    depth: u32,
) -> Result<Cursor, Stop>
    requires { builder.old.number ≡ input.at }
    ensures effect { AppendsEntries source.now.tokens.now field_events field_rows context builder.old builder.new result (node constructs.FieldList (var_with (type_at depth)) (remaining source.now.tokens.now input)) }
    ensures number { IfOk result (λ rest. builder.new.number ≡ rest.at) }
{
    let first = builder.number;
    let row = new_decl_group(DeclKind::Field, context, first);
    let at = builder.open_decl_group(row);
    match var_declaration(
        builder,
        decl_group_context(context, first),
        source,
        input,
        depth,
    ) {
        Ok(here) => {
            builder.close_decl_group(at, row);
            Ok(here)
        }
        Err(stop) => Err(stop),
    }
}

/// Parses the names of variables or fields, a colon and their type.
#[cycle(types)]
pub(crate) fn var_declaration(
    builder: &mut TableBuilder,
    context: Context,
    source: &ParserInput,
    input: Cursor,
    depth: u32,
) -> Result<Cursor, Stop>
    requires { builder.old.number ≡ input.at }
    ensures effect { AppendsEntries source.now.tokens.now var_events var_rows context builder.old builder.new result (var_with (type_at depth) (remaining source.now.tokens.now input)) }
    ensures number { IfOk result (λ rest. builder.new.number ≡ rest.at) }
{
    match declared_names(builder, context, source.tokens, input) {
        Ok(here) => type_after_token(builder, context, source, here, Kind::Colon, depth),
        Err(stop) => Err(stop),
    }
}
