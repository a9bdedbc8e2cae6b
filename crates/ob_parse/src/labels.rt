//! The labels of a case (Oberon-07 report, section 9.5). Each function parses the production or part that its name states.
//! `ensures`: the parser's result is that of the grammar's reader, the last argument of `ParsesAs`: the events of the parsed item and the
//! remaining tokens, or the error. If an allocation failed, nothing is claimed.

ghost use Rattle.ob_grammar.specs.Combinators.{accept_at, many, several};
ghost use Rattle.ob_grammar.specs.ParsesAs.{ParsesAs, remaining};
ghost use Rattle.ob_grammar.specs.ReadStatements.{case_label_at, label_range_at};
ghost use Rattle.ob_scan.specs.declared.kind.Kind.TheVariants as kinds;
ghost use Rattle.ob_tree.specs.TreeEvents.{each_after, separated};
ghost use Rattle.ob_tree.specs.Statements.{label_events, label_range_events};

use crate::stop::append_item;
use ob_grammar::cursor::Cursor;
use ob_grammar::names::qualident_after;
use ob_grammar::stop::Stop;
use ob_grammar::tokens::accept;
use ob_scan::{Kind, Token};
use ob_tree::expression::Literal;
use ob_tree::name::OneOrMore;
use ob_tree::statement::{Label, LabelRange};
use ob_tree::token::Leaf;
use std::alloc::Global;

/// Parses a label of a case: an integer, a string or a qualified identifier.
#[tactic(auto, using(crate::proofs::StatementSteps::made), unfolding(ob_grammar::specs::ReadStatements::case_label_at))]
fn label(tokens: &[Token], input: Cursor) -> Result<(Label, Cursor), Stop>
    ensures { ParsesAs tokens.now (λ x. (label_events x.0, remaining tokens.now x.1)) result (case_label_at (remaining tokens.now input)) }
{
    match input.next(tokens) {
        Some((Leaf::Name(number), rest)) => {
            let (name, rest) = qualident_after(tokens, number, rest)?;
            Ok((Label::Name(name), rest))
        }
        Some((Leaf::Value(Literal::Integer, number), rest)) => Ok((Label::Integer(number), rest)),
        Some((Leaf::Value(Literal::Text, number), rest)) => Ok((Label::Text(number), rest)),
        _ => Err(Stop::Unexpected(input)),
    }
}

/// Parses a label, or a range of two labels.
#[tactic(auto, using(crate::proofs::StatementSteps::made), unfolding(ob_grammar::specs::ReadStatements::label_range_at))]
fn label_range(tokens: &[Token], input: Cursor) -> Result<(LabelRange, Cursor), Stop>
    ensures { ParsesAs tokens.now (λ x. (label_range_events x.0, remaining tokens.now x.1)) result (label_range_at (remaining tokens.now input)) }
{
    let (low, input) = label(tokens, input)?;
    match accept(tokens, input, Kind::DotDot) {
        None => Ok((LabelRange { low, high: None }, input)),
        Some(rest) => {
            let (high, rest) = label(tokens, rest)?;
            Ok((
                LabelRange {
                    low,
                    high: Some(high),
                },
                rest,
            ))
        }
    }
}

/// Parses one label range or more, separated by commas.
#[tactic(auto, unfolding(ob_grammar::specs::Combinators::several))]
pub(crate) fn label_ranges(
    alloc: Global,
    tokens: &[Token],
    input: Cursor,
) -> Result<(OneOrMore<LabelRange>, Cursor), Stop>
    ensures { ParsesAs tokens.now (λ x. (separated kinds.Comma label_range_events x.0, remaining tokens.now x.1)) result (several kinds.Comma label_range_at (remaining tokens.now input)) }
{
    let (first, here) = label_range(tokens, input)?;
    let (rest, here) = more_label_ranges(alloc, tokens, here)?;
    Ok((OneOrMore { first, rest }, here))
}

/// Parses the further label ranges of a case, each after a comma.
fn more_label_ranges(
    alloc: Global,
    tokens: &[Token],
    input: Cursor,
) -> Result<(Vec<LabelRange>, Cursor), Stop>
    ensures { ParsesAs tokens.now (λ x. (each_after kinds.Comma label_range_events x.0.items, remaining tokens.now x.1)) result (many (accept_at kinds.Comma) label_range_at (remaining tokens.now input)) }
{
    let mut rest = Vec::new(alloc);
    let mut here = input;
    'more: while let Some(after) = accept(tokens, here, Kind::Comma) {
        here = append_item(&mut rest, label_range(tokens, after))?;
    }
    Ok((rest, here))
}
