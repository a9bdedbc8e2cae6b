//! Types (Oberon-07 report, section 6). Each function parses the production or part that its name states.
//! `ensures`: the parser's result is that of the grammar's reader, the last argument of `ParsesAs`: the events of the parsed item and the
//! remaining tokens, or the error. If an allocation failed, nothing is claimed.

ghost use Rattle.ob_scan.specs.declared.kind.Kind.TheVariants as kinds;
ghost use Rattle.ob_tree.specs.Constructs as constructs;
ghost use Rattle.ob_tree.specs.TreeEvents.{construct, word, if_present, each_after, separated};
ghost use Rattle.ob_tree.specs.Names.{identdef_events};
ghost use Rattle.ob_tree.specs.Types.{type_events, fields_events, var_events};
ghost use Rattle.ob_grammar.specs.Combinators.{optional, accept_at, expect_at, many, several, unless, seq, node, prefixed};
ghost use Rattle.ob_grammar.specs.ReadExpressions.{expr_at};
ghost use Rattle.ob_grammar.specs.ReadNames as names;
ghost use Rattle.ob_grammar.specs.ReadNames.{identdef_at};
ghost use Rattle.ob_grammar.specs.ReadTypes.{optional_parameters_at, var_with, field_start, fields_with, record_with, type_with, type_at};
ghost use Rattle.ob_grammar.specs.ParsesAs.{ParsesAs, remaining};

use crate::expressions::expression_list;
use crate::parameters::optional_parameters;
use crate::stop::{append_boxed, append_item, box_value, wrap_in_some};
use ob_grammar::cursor::Cursor;
use ob_grammar::names::{identdef, qualident_after};
use ob_grammar::stop::Stop;
use ob_grammar::tokens::{accept, depth_stop, expect, next_is, skip};
use ob_grammar::types::{accept_field_separator, base, begins_type};
use ob_scan::{Kind, Token};
use ob_tree::declaration::{Fields, Record, TypeForm, VarDecl};
use ob_tree::name::{Identdef, OneOrMore};
use ob_tree::token::Leaf;
use std::alloc::Global;

/// Parses the further declared identifiers of a list, each after a comma.
fn more_identdefs(
    alloc: Global,
    tokens: &[Token],
    input: Cursor,
) -> Result<(Vec<Identdef>, Cursor), Stop>
    ensures { ParsesAs tokens.now (λ x. (each_after kinds.Comma identdef_events x.0.items, remaining tokens.now x.1)) result (many (accept_at kinds.Comma) identdef_at (remaining tokens.now input)) }
{
    let mut rest = Vec::new(alloc);
    let mut here = input;
    'more: while let Some(after) = accept(tokens, here, Kind::Comma) {
        here = append_item(&mut rest, identdef(tokens, after))?;
    }
    Ok((rest, here))
}

/// Parses one declared identifier or more, separated by commas.
#[tactic(auto, unfolding(ob_grammar::specs::Combinators::several))]
fn identdefs(
    alloc: Global,
    tokens: &[Token],
    input: Cursor,
) -> Result<(OneOrMore<Identdef>, Cursor), Stop>
    ensures { ParsesAs tokens.now (λ x. (separated kinds.Comma identdef_events x.0, remaining tokens.now x.1)) result (several kinds.Comma identdef_at (remaining tokens.now input)) }
{
    let (first, here) = identdef(tokens, input)?;
    let (rest, here) = more_identdefs(alloc, tokens, here)?;
    Ok((OneOrMore { first, rest }, here))
}

/// Parses the names of variables or fields, a colon and their type.
#[cycle(types)]
#[tactic(auto, using(ob_tree::proofs::TypeLayers::types_made), unfolding(ob_grammar::specs::ReadTypes::var_with))]
pub(crate) fn var_declaration(
    alloc: Global,
    tokens: &[Token],
    input: Cursor,
    depth: u32,
) -> Result<(Box<VarDecl>, Cursor), Stop>
    ensures { ParsesAs tokens.now (λ x. (var_events x.0.value, remaining tokens.now x.1)) result (var_with (type_at depth) (remaining tokens.now input)) }
{
    let (names, here) = identdefs(alloc, tokens, input)?;
    let here = expect(tokens, here, Kind::Colon)?;
    let (type_expr, here) = type_expression(alloc, tokens, here, depth)?;
    let type_expr = Box::into_inner(type_expr);
    box_value(alloc, VarDecl { names, type_expr }, here)
}

/// Parses a field list: field names, a colon and their type.
#[cycle(types)]
fn field_list(
    alloc: Global,
    tokens: &[Token],
    input: Cursor,
    depth: u32,
) -> Result<(Box<VarDecl>, Cursor), Stop>
    ensures { ParsesAs tokens.now (λ x. (construct constructs.FieldList (var_events x.0.value), remaining tokens.now x.1)) result (node constructs.FieldList (var_with (type_at depth)) (remaining tokens.now input)) }
{
    var_declaration(alloc, tokens, input, depth)
}

/// Parses the further field lists, each after a semicolon.
#[cycle(types)]
fn more_field_lists(
    alloc: Global,
    tokens: &[Token],
    input: Cursor,
    depth: u32,
) -> Result<(Vec<VarDecl>, Cursor), Stop>
    ensures { ParsesAs tokens.now (λ x. (each_after kinds.Semicolon (λ v. construct constructs.FieldList (var_events v)) x.0.items, remaining tokens.now x.1)) result
        (many field_start (node constructs.FieldList (var_with (type_at depth))) (remaining tokens.now input)) }
{
    let mut rest = Vec::new(alloc);
    let mut here = input;
    'more: while let Some(after) = accept_field_separator(tokens, here) {
        here = append_boxed(&mut rest, field_list(alloc, tokens, after, depth))?;
    }
    Ok((rest, here))
}

/// Parses the field lists of a record.
#[cycle(types)]
#[tactic(auto, using(ob_tree::proofs::TypeLayers::types_made), unfolding(ob_grammar::specs::ReadTypes::fields_with))]
fn fields(
    alloc: Global,
    tokens: &[Token],
    input: Cursor,
    depth: u32,
) -> Result<(Box<Fields>, Cursor), Stop>
    ensures { ParsesAs tokens.now (λ x. (fields_events x.0.value, remaining tokens.now x.1)) result (fields_with (type_at depth) (remaining tokens.now input)) }
{
    let (first, here) = field_list(alloc, tokens, input, depth)?;
    let (rest, here) = more_field_lists(alloc, tokens, here, depth)?;
    let (closing_semicolon, here) = skip(tokens, here, Kind::Semicolon);
    let fields = Fields {
        first: Box::into_inner(first),
        rest,
        closing_semicolon,
    };
    box_value(alloc, fields, here)
}

/// Parses the field lists of a record, unless END is next.
#[cycle(types)]
#[tactic(auto, unfolding(ob_grammar::specs::Combinators::unless))]
fn optional_fields(
    alloc: Global,
    tokens: &[Token],
    input: Cursor,
    depth: u32,
) -> Result<(Option<Box<Fields>>, Cursor), Stop>
    ensures { ParsesAs tokens.now (λ x. (if_present (λ f. fields_events f.value) x.0, remaining tokens.now x.1)) result (optional (unless kinds.End) (fields_with (type_at depth)) (remaining tokens.now input)) }
{
    if next_is(tokens, input, Kind::End) {
        return Ok((None, input));
    }
    wrap_in_some(fields(alloc, tokens, input, depth))
}

/// Parses a type. `depth` is the number of nesting levels left for its parts: the type's own level is already subtracted.
#[cycle(types)]
#[tactic(auto, using(ob_tree::proofs::TypeLayers::types_made), unfolding(ob_grammar::specs::ReadTypes::type_with))]
fn type_after_depth_check(
    alloc: Global,
    tokens: &[Token],
    input: Cursor,
    depth: u32,
) -> Result<(TypeForm, Cursor), Stop>
    ensures { ParsesAs tokens.now (λ x. (type_events x.0, remaining tokens.now x.1)) result (type_with (expr_at depth) (type_at depth) (remaining tokens.now input)) }
{
    match input.next(tokens) {
        Some((Leaf::Name(head), rest)) => named_type(tokens, head, rest),
        Some((Leaf::Word(Kind::Array), rest)) => array(alloc, tokens, rest, depth),
        Some((Leaf::Word(Kind::Record), rest)) => record(alloc, tokens, rest, depth),
        Some((Leaf::Word(Kind::Pointer), rest)) => pointer(alloc, tokens, rest, depth),
        Some((Leaf::Word(Kind::Procedure), rest)) => procedure(alloc, tokens, rest),
        _ => Err(Stop::Unexpected(input)),
    }
}

/// Parses a type name after its first identifier, which has the index `head`.
#[tactic(auto, using(ob_tree::proofs::TypeLayers::types_made))]
fn named_type(tokens: &[Token], head: u32, input: Cursor) -> Result<(TypeForm, Cursor), Stop>
    ensures { ParsesAs tokens.now (λ x. (type_events x.0, remaining tokens.now x.1)) result (node constructs.NamedType (names.qualident_after head) (remaining tokens.now input)) }
{
    let (name, rest) = qualident_after(tokens, head, input)?;
    Ok((TypeForm::Named(name), rest))
}

/// Parses an array type after its ARRAY.
#[cycle(types)]
#[tactic(auto, using(ob_tree::proofs::TypeLayers::types_made))]
fn array(
    alloc: Global,
    tokens: &[Token],
    input: Cursor,
    depth: u32,
) -> Result<(TypeForm, Cursor), Stop>
    ensures { ParsesAs tokens.now (λ x. (type_events x.0, remaining tokens.now x.1)) result
        (node constructs.ArrayType (prefixed (word kinds.Array) (seq (several kinds.Comma (expr_at depth)) (seq (expect_at kinds.Of) (type_at depth)))) (remaining tokens.now input)) }
{
    let (lengths, rest) = expression_list(alloc, tokens, input, depth)?;
    let rest = expect(tokens, rest, Kind::Of)?;
    let (of, rest) = type_expression(alloc, tokens, rest, depth)?;
    Ok((TypeForm::ArrayOf(lengths, of), rest))
}

/// Parses a record type after its RECORD.
#[cycle(types)]
#[tactic(auto, using(ob_tree::proofs::TypeLayers::types_made), unfolding(ob_grammar::specs::ReadTypes::record_with))]
fn record(
    alloc: Global,
    tokens: &[Token],
    input: Cursor,
    depth: u32,
) -> Result<(TypeForm, Cursor), Stop>
    ensures { ParsesAs tokens.now (λ x. (type_events x.0, remaining tokens.now x.1)) result
        (node constructs.RecordType (prefixed (word kinds.Record) (record_with (type_at depth))) (remaining tokens.now input)) }
{
    let (base, here) = base(tokens, input)?;
    let (fields, here) = optional_fields(alloc, tokens, here, depth)?;
    let here = expect(tokens, here, Kind::End)?;
    Ok((TypeForm::RecordOf(Record { base, fields }), here))
}

/// Parses a pointer type after its POINTER.
#[cycle(types)]
#[tactic(auto, using(ob_tree::proofs::TypeLayers::types_made))]
fn pointer(
    alloc: Global,
    tokens: &[Token],
    input: Cursor,
    depth: u32,
) -> Result<(TypeForm, Cursor), Stop>
    ensures { ParsesAs tokens.now (λ x. (type_events x.0, remaining tokens.now x.1)) result
        (node constructs.PointerType (prefixed (word kinds.Pointer) (seq (expect_at kinds.To) (type_at depth))) (remaining tokens.now input)) }
{
    let rest = expect(tokens, input, Kind::To)?;
    let (to, rest) = type_expression(alloc, tokens, rest, depth)?;
    Ok((TypeForm::PointerTo(to), rest))
}

/// Parses a procedure type after its PROCEDURE.
#[tactic(auto, using(ob_tree::proofs::TypeLayers::types_made))]
fn procedure(alloc: Global, tokens: &[Token], input: Cursor) -> Result<(TypeForm, Cursor), Stop>
    ensures { ParsesAs tokens.now (λ x. (type_events x.0, remaining tokens.now x.1)) result
        (node constructs.ProcedureType (prefixed (word kinds.Procedure) optional_parameters_at) (remaining tokens.now input)) }
{
    let (parameters, rest) = optional_parameters(alloc, tokens, input)?;
    Ok((TypeForm::ProcOf(parameters), rest))
}

/// Parses a type, which takes one of the `depth` nesting levels that are left. If none is left, returns an error.
#[cycle(types)]
#[tactic(auto, unfolding(ob_grammar::specs::ReadTypes::type_at, ob_grammar::specs::Combinators::limit_at))]
pub(crate) fn type_expression(
    alloc: Global,
    tokens: &[Token],
    input: Cursor,
    depth: u32,
) -> Result<(Box<TypeForm>, Cursor), Stop>
    ensures { ParsesAs tokens.now (λ x. (type_events x.0.value, remaining tokens.now x.1)) result (type_at depth (remaining tokens.now input)) }
{
    if depth == 0 {
        return Err(depth_stop(tokens, input, begins_type(tokens, input)));
    }
    let (type_expr, here) = type_after_depth_check(alloc, tokens, input, depth - 1)?;
    box_value(alloc, type_expr, here)
}
