//! Formal parameters (Oberon-07 report, section 10.1). Each function parses the production or part that its name states.
//! `ensures`: the parser's result is that of the grammar's reader, the last argument of `ParsesAs`: the events of the parsed item and the
//! remaining tokens, or the error. If an allocation failed, nothing is claimed.

ghost use Rattle.std.specs.Prelude.{◌++◌, false};
ghost use Rattle.ob_scan.specs.declared.kind.Kind.TheVariants as kinds;
ghost use Rattle.ob_tree.specs.TreeEvents.{word, declared, if_present, each_after, separated, times};
ghost use Rattle.ob_tree.specs.Names.{qualident_events};
ghost use Rattle.ob_tree.specs.Types.{section_events, parameters_events};
ghost use Rattle.ob_grammar.specs.Combinators.{optional, accept_at, expect_at, name_at, many, several, unless};
ghost use Rattle.ob_grammar.specs.ReadNames.{qualident_at};
ghost use Rattle.ob_grammar.specs.ReadTypes.{section_at, parameters_at, optional_parameters_at};
ghost use Rattle.ob_grammar.specs.ParsesAs.{ParsesAs, remaining};

use crate::stop::{append_item, wrap_in_some};
use ob_grammar::cursor::Cursor;
use ob_grammar::names::qualident;
use ob_grammar::stop::Stop;
use ob_grammar::tokens::{accept, expect, identifier, next_is, skip};
use ob_scan::{Kind, Token};
use ob_tree::declaration::{ParameterSection, Parameters};
use ob_tree::name::{OneOrMore, Qualident};
use std::alloc::Global;

/// Parses the name of a parameter.
#[tactic(auto, unfolding(ob_grammar::specs::Combinators::name_at))]
fn name(tokens: &[Token], input: Cursor) -> Result<(u32, Cursor), Stop>
    ensures { ParsesAs tokens.now (λ x. (declared false x.0, remaining tokens.now x.1)) result (name_at (declared false) (remaining tokens.now input)) }
{
    identifier(tokens, input)
}

/// Parses the further parameter names of a section, each after a comma.
fn more_names(alloc: Global, tokens: &[Token], input: Cursor) -> Result<(Vec<u32>, Cursor), Stop>
    ensures { ParsesAs tokens.now (λ x. (each_after kinds.Comma (declared false) x.0.items, remaining tokens.now x.1)) result (many (accept_at kinds.Comma) (name_at (declared false)) (remaining tokens.now input)) }
{
    let mut rest = Vec::new(alloc);
    let mut here = input;
    'more: while let Some(after) = accept(tokens, here, Kind::Comma) {
        here = append_item(&mut rest, name(tokens, after))?;
    }
    Ok((rest, here))
}

/// Parses the parameter names of a section: one or more, separated by commas.
#[tactic(auto, unfolding(ob_grammar::specs::Combinators::several))]
fn names(alloc: Global, tokens: &[Token], input: Cursor) -> Result<(OneOrMore<u32>, Cursor), Stop>
    ensures { ParsesAs tokens.now (λ x. (separated kinds.Comma (declared false) x.0, remaining tokens.now x.1)) result (several kinds.Comma (name_at (declared false)) (remaining tokens.now input)) }
{
    let (first, here) = name(tokens, input)?;
    let (rest, here) = more_names(alloc, tokens, here)?;
    Ok((OneOrMore { first, rest }, here))
}

/// Parses any number of ARRAY OF, and returns their number.
fn open_arrays(tokens: &[Token], input: Cursor) -> Result<(u32, Cursor), Stop>
    ensures { ParsesAs tokens.now (λ x. (times x.0 (word kinds.Array ++ word kinds.Of), remaining tokens.now x.1)) result (many (accept_at kinds.Array) (expect_at kinds.Of) (remaining tokens.now input)) }
{
    let mut count = 0;
    let mut here = input;
    'more: while let Some(after) = accept(tokens, here, Kind::Array) {
        here = expect(tokens, after, Kind::Of)?;
        count += 1;
    }
    Ok((count, here))
}

/// Parses a section of formal parameters, whose parameters have one formal type.
#[tactic(auto, using(ob_tree::proofs::TypeLayers::types_made), unfolding(ob_grammar::specs::ReadTypes::section_at))]
fn section(
    alloc: Global,
    tokens: &[Token],
    input: Cursor,
) -> Result<(ParameterSection, Cursor), Stop>
    ensures { ParsesAs tokens.now (λ x. (section_events x.0, remaining tokens.now x.1)) result (section_at (remaining tokens.now input)) }
{
    let (variable, here) = skip(tokens, input, Kind::Var);
    let (names, here) = names(alloc, tokens, here)?;
    let here = expect(tokens, here, Kind::Colon)?;
    let (open_arrays, here) = open_arrays(tokens, here)?;
    let (of, here) = qualident(tokens, here)?;
    Ok((
        ParameterSection {
            variable,
            names,
            open_arrays,
            of,
        },
        here,
    ))
}

/// Parses the further sections, each after a semicolon.
fn more_sections(
    alloc: Global,
    tokens: &[Token],
    input: Cursor,
) -> Result<(Vec<ParameterSection>, Cursor), Stop>
    ensures { ParsesAs tokens.now (λ x. (each_after kinds.Semicolon section_events x.0.items, remaining tokens.now x.1)) result (many (accept_at kinds.Semicolon) section_at (remaining tokens.now input)) }
{
    let mut rest = Vec::new(alloc);
    let mut here = input;
    'more: while let Some(after) = accept(tokens, here, Kind::Semicolon) {
        here = append_item(&mut rest, section(alloc, tokens, after))?;
    }
    Ok((rest, here))
}

/// Parses the sections of formal parameters, if the closing parenthesis is not next.
#[tactic(auto, unfolding(ob_grammar::specs::Combinators::several, ob_grammar::specs::Combinators::unless))]
fn sections(
    alloc: Global,
    tokens: &[Token],
    input: Cursor,
) -> Result<(Option<OneOrMore<ParameterSection>>, Cursor), Stop>
    ensures { ParsesAs tokens.now (λ x. (if_present (separated kinds.Semicolon section_events) x.0, remaining tokens.now x.1)) result (optional (unless kinds.RightParen) (several kinds.Semicolon section_at) (remaining tokens.now input)) }
{
    if next_is(tokens, input, Kind::RightParen) {
        return Ok((None, input));
    }
    let (first, here) = section(alloc, tokens, input)?;
    let (rest, here) = more_sections(alloc, tokens, here)?;
    Ok((Some(OneOrMore { first, rest }), here))
}

/// Parses a colon and the type of a result, if a colon is next.
fn result_type(tokens: &[Token], input: Cursor) -> Result<(Option<Qualident>, Cursor), Stop>
    ensures { ParsesAs tokens.now (λ x. (if_present (λ q. word kinds.Colon ++ qualident_events q) x.0, remaining tokens.now x.1)) result (optional (accept_at kinds.Colon) qualident_at (remaining tokens.now input)) }
{
    match accept(tokens, input, Kind::Colon) {
        Some(rest) => wrap_in_some(qualident(tokens, rest)),
        None => Ok((None, input)),
    }
}

/// Parses formal parameters.
#[tactic(auto, using(ob_tree::proofs::TypeLayers::types_made), unfolding(ob_grammar::specs::ReadTypes::parameters_at))]
fn parameters(alloc: Global, tokens: &[Token], input: Cursor) -> Result<(Parameters, Cursor), Stop>
    ensures { ParsesAs tokens.now (λ x. (parameters_events x.0, remaining tokens.now x.1)) result (parameters_at (remaining tokens.now input)) }
{
    let here = expect(tokens, input, Kind::LeftParen)?;
    let (sections, here) = sections(alloc, tokens, here)?;
    let here = expect(tokens, here, Kind::RightParen)?;
    let (result, here) = result_type(tokens, here)?;
    Ok((Parameters { sections, result }, here))
}

/// Parses formal parameters, if an opening parenthesis is next.
#[tactic(auto, unfolding(ob_grammar::specs::Combinators::begins, ob_grammar::specs::ReadTypes::optional_parameters_at))]
pub(crate) fn optional_parameters(
    alloc: Global,
    tokens: &[Token],
    input: Cursor,
) -> Result<(Option<Parameters>, Cursor), Stop>
    ensures { ParsesAs tokens.now (λ x. (if_present parameters_events x.0, remaining tokens.now x.1)) result (optional_parameters_at (remaining tokens.now input)) }
{
    if next_is(tokens, input, Kind::LeftParen) {
        return wrap_in_some(parameters(alloc, tokens, input));
    }
    Ok((None, input))
}
