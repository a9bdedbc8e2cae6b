//! Expressions and designators (Oberon-07 report, section 8). Each function parses the production or part that its name states. `depth`
//! is the number of nested levels that are left for it.
//! `ensures`: the parser's result is that of the grammar's reader, the last argument of `ParsesAs`: the events of the parsed item and the
//! remaining tokens, or the error. If an allocation failed, nothing is claimed.

ghost use Rattle.std.specs.Prelude.{◌++◌};
ghost use Rattle.ob_scan.specs.declared.kind.Kind.TheVariants as kinds;
ghost use Rattle.ob_tree.specs.Constructs as constructs;
ghost use Rattle.ob_tree.specs.TreeEvents as marks;
ghost use Rattle.ob_tree.specs.TreeEvents.{word, if_present, each, each_after};
ghost use Rattle.ob_tree.specs.Expressions.{relation_kind, mul_kind, add_kind, expr_events, expr_list_events, sum_events, term_events, factor_events, element_events, element_list_events, designator_events, selector_events};
ghost use Rattle.ob_grammar.specs.Combinators.{many, several, optional, unless, begins, accept_at, expect_at, name_at, seq, prefixed, node};
ghost use Rattle.ob_grammar.specs.ParsesAs.{ParsesAs, remaining};
ghost use Rattle.ob_grammar.specs.ReadExpressions.{relation_start, mul_start, add_start, selector_first, element_with, selector_with, designator_with, factor_at, negated_at, term_at, sum_at, expr_at};

use crate::stop::{append_boxed, append_item, box_value, wrap_in_some};
use ob_grammar::cursor::Cursor;
use ob_grammar::operators::{
    begins_expression, begins_factor, begins_selector, parse_add_operator, parse_mul_operator,
    relation, sign,
};
use ob_grammar::stop::Stop;
use ob_grammar::tokens::{accept, depth_stop, expect, identifier, next_is};
use ob_scan::{Kind, Token};
use ob_tree::expression::{
    AddOperator, Designator, Element, ElementList, Expr, ExprList, Factor, MulOperator, Relation,
    Selector, SimpleExpression, Term,
};
use ob_tree::token::Leaf;
use std::alloc::Global;

/// Parses an expression, which takes one of the `depth` nesting levels that are left. If none is left, returns an error.
#[cycle(expressions)]
#[tactic(auto, using(ob_tree::proofs::ExpressionLayers::expressions_made), unfolding(ob_grammar::specs::ReadExpressions::expr_at, ob_grammar::specs::ReadExpressions::expr_with, ob_grammar::specs::Combinators::limit_at))]
pub(crate) fn expression(
    alloc: Global,
    tokens: &[Token],
    input: Cursor,
    depth: u32,
) -> Result<(Box<Expr>, Cursor), Stop>
    ensures { ParsesAs tokens.now (λ x. (expr_events x.0.value, remaining tokens.now x.1)) result (expr_at depth (remaining tokens.now input)) }
{
    if depth == 0 {
        return Err(depth_stop(tokens, input, begins_expression(tokens, input)));
    }
    let (left, input) = sum(alloc, tokens, input, depth - 1)?;
    let (compared, input) = compared(alloc, tokens, input, depth - 1)?;
    let left = Box::into_inner(left);
    let expression = Expr { left, compared };
    box_value(alloc, expression, input)
}

/// Parses this keyword or delimiter and the expression after it, if it is next; otherwise returns `None`.
pub(crate) fn optional_expression(
    alloc: Global,
    tokens: &[Token],
    input: Cursor,
    depth: u32,
    word: Kind,
) -> Result<(Option<Box<Expr>>, Cursor), Stop>
    ensures { ParsesAs tokens.now (λ x. (if_present (λ e. marks.word word ++ expr_events e.value) x.0, remaining tokens.now x.1)) result (optional (accept_at word) (expr_at depth) (remaining tokens.now input)) }
{
    match accept(tokens, input, word) {
        None => Ok((None, input)),
        Some(rest) => wrap_in_some(expression(alloc, tokens, rest, depth)),
    }
}

/// Parses a relation and its right operand, if a relation is next.
#[cycle(expressions)]
fn compared(
    alloc: Global,
    tokens: &[Token],
    input: Cursor,
    depth: u32,
) -> Result<(Option<(Relation, Box<SimpleExpression>)>, Cursor), Stop>
    ensures { ParsesAs tokens.now (λ x. (if_present (λ c. word (relation_kind c.0) ++ sum_events c.1.value) x.0, remaining tokens.now x.1)) result (optional relation_start (sum_at depth) (remaining tokens.now input)) }
{
    match relation(tokens, input) {
        None => Ok((None, input)),
        Some((relation, rest)) => {
            let (right, rest) = sum(alloc, tokens, rest, depth)?;
            Ok((Some((relation, right)), rest))
        }
    }
}

/// Parses one expression or more, separated by commas.
#[cycle(expressions)]
#[tactic(auto, using(ob_tree::proofs::ExpressionLayers::expressions_made), unfolding(ob_grammar::specs::Combinators::several))]
pub(crate) fn expression_list(
    alloc: Global,
    tokens: &[Token],
    input: Cursor,
    depth: u32,
) -> Result<(Box<ExprList>, Cursor), Stop>
    ensures { ParsesAs tokens.now (λ x. (expr_list_events x.0.value, remaining tokens.now x.1)) result (several kinds.Comma (expr_at depth) (remaining tokens.now input)) }
{
    let (first, here) = expression(alloc, tokens, input, depth)?;
    let (rest, here) = more_expressions(alloc, tokens, here, depth)?;
    let list = ExprList {
        first: Box::into_inner(first),
        rest,
    };
    box_value(alloc, list, here)
}

/// Parses the further expressions of a list, each after a comma.
#[cycle(expressions)]
fn more_expressions(
    alloc: Global,
    tokens: &[Token],
    input: Cursor,
    depth: u32,
) -> Result<(Vec<Expr>, Cursor), Stop>
    ensures { ParsesAs tokens.now (λ x. (each_after kinds.Comma expr_events x.0.items, remaining tokens.now x.1)) result (many (accept_at kinds.Comma) (expr_at depth) (remaining tokens.now input)) }
{
    let mut rest = Vec::new(alloc);
    let mut here = input;
    'more: while let Some(after) = accept(tokens, here, Kind::Comma) {
        here = append_boxed(&mut rest, expression(alloc, tokens, after, depth))?;
    }
    Ok((rest, here))
}

/// Parses a simple expression: an optional sign, and terms with operators between them.
#[cycle(expressions)]
#[tactic(auto, using(ob_tree::proofs::ExpressionLayers::expressions_made), unfolding(ob_grammar::specs::ReadExpressions::sum_with))]
fn sum(
    alloc: Global,
    tokens: &[Token],
    input: Cursor,
    depth: u32,
) -> Result<(Box<SimpleExpression>, Cursor), Stop>
    ensures { ParsesAs tokens.now (λ x. (sum_events x.0.value, remaining tokens.now x.1)) result (sum_at depth (remaining tokens.now input)) }
{
    let (sign, here) = sign(tokens, input);
    let (first, here) = term(alloc, tokens, here, depth)?;
    let (rest, here) = more_terms(alloc, tokens, here, depth)?;
    box_value(alloc, SimpleExpression { sign, first, rest }, here)
}

/// Parses the further terms of a simple expression, each after an operator.
#[cycle(expressions)]
fn more_terms(
    alloc: Global,
    tokens: &[Token],
    input: Cursor,
    depth: u32,
) -> Result<(Vec<(AddOperator, Term)>, Cursor), Stop>
    ensures { ParsesAs tokens.now (λ x. (each (λ p. word (add_kind p.0) ++ term_events p.1) x.0.items, remaining tokens.now x.1)) result (many add_start (term_at depth) (remaining tokens.now input)) }
{
    let mut rest = Vec::new(alloc);
    let mut here = input;
    'more: while let Some((operator, after)) = parse_add_operator(tokens, here) {
        let (next, after) = term(alloc, tokens, after, depth)?;
        rest.push((operator, next))?;
        here = after;
    }
    Ok((rest, here))
}

/// Parses a term: factors with operators between them.
#[cycle(expressions)]
#[tactic(auto, using(ob_tree::proofs::ExpressionLayers::expressions_made), unfolding(ob_grammar::specs::ReadExpressions::term_with))]
fn term(alloc: Global, tokens: &[Token], input: Cursor, depth: u32) -> Result<(Term, Cursor), Stop>
    ensures { ParsesAs tokens.now (λ x. (term_events x.0, remaining tokens.now x.1)) result (term_at depth (remaining tokens.now input)) }
{
    let (first, here) = factor(alloc, tokens, input, depth)?;
    let (rest, here) = more_factors(alloc, tokens, here, depth)?;
    Ok((Term { first, rest }, here))
}

/// Parses the further factors of a term, each after an operator.
#[cycle(expressions)]
fn more_factors(
    alloc: Global,
    tokens: &[Token],
    input: Cursor,
    depth: u32,
) -> Result<(Vec<(MulOperator, Factor)>, Cursor), Stop>
    ensures { ParsesAs tokens.now (λ x. (each (λ p. word (mul_kind p.0) ++ factor_events p.1) x.0.items, remaining tokens.now x.1)) result (many mul_start (factor_at depth) (remaining tokens.now input)) }
{
    let mut rest = Vec::new(alloc);
    let mut here = input;
    'more: while let Some((operator, after)) = parse_mul_operator(tokens, here) {
        let (next, after) = factor(alloc, tokens, after, depth)?;
        rest.push((operator, next))?;
        here = after;
    }
    Ok((rest, here))
}

/// Parses a factor.
#[cycle(expressions)]
#[tactic(auto, using(ob_tree::proofs::ExpressionLayers::expressions_made), unfolding(ob_grammar::specs::ReadExpressions::factor_with))]
fn factor(
    alloc: Global,
    tokens: &[Token],
    input: Cursor,
    depth: u32,
) -> Result<(Factor, Cursor), Stop>
    ensures { ParsesAs tokens.now (λ x. (factor_events x.0, remaining tokens.now x.1)) result (factor_at depth (remaining tokens.now input)) }
{
    match input.next(tokens) {
        Some((Leaf::Name(number), rest)) => named_factor(alloc, tokens, number, rest, depth),
        Some((Leaf::Value(literal, number), rest)) => Ok((Factor::Value(literal, number), rest)),
        Some((Leaf::Word(Kind::Nil), rest)) => Ok((Factor::Nil, rest)),
        Some((Leaf::Word(Kind::True), rest)) => Ok((Factor::True, rest)),
        Some((Leaf::Word(Kind::False), rest)) => Ok((Factor::False, rest)),
        Some((Leaf::Word(Kind::LeftBrace), rest)) => set(alloc, tokens, rest, depth),
        Some((Leaf::Word(Kind::LeftParen), rest)) => parenthesized_factor(
            alloc, tokens, rest, depth,
        ),
        Some((Leaf::Word(Kind::Tilde), rest)) => negated_factor(alloc, tokens, rest, depth),
        _ => Err(Stop::Unexpected(input)),
    }
}

/// Parses a factor that is a designator, after its first identifier, which has the index `number`.
#[cycle(expressions)]
#[tactic(auto, using(ob_tree::proofs::ExpressionLayers::expressions_made))]
fn named_factor(
    alloc: Global,
    tokens: &[Token],
    number: u32,
    input: Cursor,
    depth: u32,
) -> Result<(Factor, Cursor), Stop>
    ensures { ParsesAs tokens.now (λ x. (factor_events x.0, remaining tokens.now x.1)) result (node constructs.Factor (designator_with (expr_at depth) number) (remaining tokens.now input)) }
{
    let (designator, rest) = designator(alloc, tokens, number, input, depth)?;
    Ok((Factor::Name(designator), rest))
}

/// Parses the part of a set after its opening brace.
#[cycle(expressions)]
#[tactic(auto, using(ob_tree::proofs::ExpressionLayers::expressions_made))]
fn set(alloc: Global, tokens: &[Token], input: Cursor, depth: u32) -> Result<(Factor, Cursor), Stop>
    ensures { ParsesAs tokens.now (λ x. (factor_events x.0, remaining tokens.now x.1)) result
        (node constructs.Factor (prefixed (word kinds.LeftBrace) (seq (optional (unless kinds.RightBrace) (several kinds.Comma (element_with (expr_at depth)))) (expect_at kinds.RightBrace))) (remaining tokens.now input)) }
{
    let (elements, rest) = elements(alloc, tokens, input, depth)?;
    let rest = expect(tokens, rest, Kind::RightBrace)?;
    Ok((Factor::Set(elements), rest))
}

/// Parses the part of a factor in parentheses after the opening parenthesis.
#[cycle(expressions)]
#[tactic(auto, using(ob_tree::proofs::ExpressionLayers::expressions_made))]
fn parenthesized_factor(
    alloc: Global,
    tokens: &[Token],
    input: Cursor,
    depth: u32,
) -> Result<(Factor, Cursor), Stop>
    ensures { ParsesAs tokens.now (λ x. (factor_events x.0, remaining tokens.now x.1)) result
        (node constructs.Factor (prefixed (word kinds.LeftParen) (seq (expr_at depth) (expect_at kinds.RightParen))) (remaining tokens.now input)) }
{
    let (inner, rest) = expression(alloc, tokens, input, depth)?;
    let rest = expect(tokens, rest, Kind::RightParen)?;
    Ok((Factor::Group(inner), rest))
}

/// Parses the factor after a `~`, with one level of nesting less. Fails if no level is left.
#[cycle(expressions)]
#[tactic(auto, using(ob_tree::proofs::ExpressionLayers::expressions_made), unfolding(ob_grammar::specs::ReadExpressions::negated_at, ob_grammar::specs::Combinators::limit_at))]
fn negated_factor(
    alloc: Global,
    tokens: &[Token],
    input: Cursor,
    depth: u32,
) -> Result<(Factor, Cursor), Stop>
    ensures { ParsesAs tokens.now (λ x. (factor_events x.0, remaining tokens.now x.1)) result
        (node constructs.Factor (prefixed (word kinds.Tilde) (negated_at depth)) (remaining tokens.now input)) }
{
    if depth == 0 {
        return Err(depth_stop(tokens, input, begins_factor(tokens, input)));
    }
    let (factor, rest) = factor(alloc, tokens, input, depth - 1)?;
    let (factor, rest) = box_value(alloc, factor, rest)?;
    Ok((Factor::Not(factor), rest))
}

/// Parses the elements of a set, if it has any.
#[cycle(expressions)]
#[tactic(auto, unfolding(ob_grammar::specs::Combinators::unless))]
fn elements(
    alloc: Global,
    tokens: &[Token],
    input: Cursor,
    depth: u32,
) -> Result<(Option<Box<ElementList>>, Cursor), Stop>
    ensures { ParsesAs tokens.now (λ x. (if_present (λ l. element_list_events l.value) x.0, remaining tokens.now x.1)) result (optional (unless kinds.RightBrace) (several kinds.Comma (element_with (expr_at depth))) (remaining tokens.now input)) }
{
    if next_is(tokens, input, Kind::RightBrace) {
        return Ok((None, input));
    }
    wrap_in_some(element_list(alloc, tokens, input, depth))
}

/// Parses one element or more, separated by commas.
#[cycle(expressions)]
#[tactic(auto, using(ob_tree::proofs::ExpressionLayers::expressions_made), unfolding(ob_grammar::specs::Combinators::several))]
fn element_list(
    alloc: Global,
    tokens: &[Token],
    input: Cursor,
    depth: u32,
) -> Result<(Box<ElementList>, Cursor), Stop>
    ensures { ParsesAs tokens.now (λ x. (element_list_events x.0.value, remaining tokens.now x.1)) result (several kinds.Comma (element_with (expr_at depth)) (remaining tokens.now input)) }
{
    let (first, here) = element(alloc, tokens, input, depth)?;
    let (rest, here) = more_elements(alloc, tokens, here, depth)?;
    let list = ElementList {
        first: Box::into_inner(first),
        rest,
    };
    box_value(alloc, list, here)
}

/// Parses the further elements of a set, each after a comma.
#[cycle(expressions)]
fn more_elements(
    alloc: Global,
    tokens: &[Token],
    input: Cursor,
    depth: u32,
) -> Result<(Vec<Element>, Cursor), Stop>
    ensures { ParsesAs tokens.now (λ x. (each_after kinds.Comma element_events x.0.items, remaining tokens.now x.1)) result (many (accept_at kinds.Comma) (element_with (expr_at depth)) (remaining tokens.now input)) }
{
    let mut rest = Vec::new(alloc);
    let mut here = input;
    'more: while let Some(after) = accept(tokens, here, Kind::Comma) {
        here = append_boxed(&mut rest, element(alloc, tokens, after, depth))?;
    }
    Ok((rest, here))
}

/// Parses an element of a set: an expression or a range.
#[cycle(expressions)]
#[tactic(auto, using(ob_tree::proofs::ExpressionLayers::expressions_made), unfolding(ob_grammar::specs::ReadExpressions::element_with))]
fn element(
    alloc: Global,
    tokens: &[Token],
    input: Cursor,
    depth: u32,
) -> Result<(Box<Element>, Cursor), Stop>
    ensures { ParsesAs tokens.now (λ x. (element_events x.0.value, remaining tokens.now x.1)) result (element_with (expr_at depth) (remaining tokens.now input)) }
{
    let (low, here) = expression(alloc, tokens, input, depth)?;
    let (high, here) = high(alloc, tokens, here, depth)?;
    let element = Element {
        low: Box::into_inner(low),
        high,
    };
    box_value(alloc, element, here)
}

/// Parses `..` and the upper bound of a range, if `..` is next.
#[cycle(expressions)]
fn high(
    alloc: Global,
    tokens: &[Token],
    input: Cursor,
    depth: u32,
) -> Result<(Option<Expr>, Cursor), Stop>
    ensures { ParsesAs tokens.now (λ x. (if_present (λ e. word kinds.DotDot ++ expr_events e) x.0, remaining tokens.now x.1)) result (optional (accept_at kinds.DotDot) (expr_at depth) (remaining tokens.now input)) }
{
    match accept(tokens, input, Kind::DotDot) {
        None => Ok((None, input)),
        Some(rest) => {
            let (high, rest) = expression(alloc, tokens, rest, depth)?;
            Ok((Some(Box::into_inner(high)), rest))
        }
    }
}

/// Parses a designator after its first identifier, which has the index `head`.
#[cycle(expressions)]
#[tactic(auto, using(ob_tree::proofs::ExpressionLayers::expressions_made), unfolding(ob_grammar::specs::ReadExpressions::designator_with))]
pub(crate) fn designator(
    alloc: Global,
    tokens: &[Token],
    head: u32,
    input: Cursor,
    depth: u32,
) -> Result<(Designator, Cursor), Stop>
    ensures { ParsesAs tokens.now (λ x. (designator_events x.0, remaining tokens.now x.1)) result (designator_with (expr_at depth) head (remaining tokens.now input)) }
{
    let (selectors, here) = selector_list(alloc, tokens, input, depth)?;
    Ok((Designator { head, selectors }, here))
}

/// Parses the selectors of a designator.
#[cycle(expressions)]
fn selector_list(
    alloc: Global,
    tokens: &[Token],
    input: Cursor,
    depth: u32,
) -> Result<(Vec<Selector>, Cursor), Stop>
    ensures { ParsesAs tokens.now (λ x. (each selector_events x.0.items, remaining tokens.now x.1)) result (many (begins selector_first) (selector_with (expr_at depth)) (remaining tokens.now input)) }
{
    let mut selectors = Vec::new(alloc);
    let mut here = input;
    'more: while begins_selector(tokens, here) {
        here = append_item(&mut selectors, selector(alloc, tokens, here, depth))?;
    }
    Ok((selectors, here))
}

/// Parses a selector.
#[cycle(expressions)]
#[tactic(auto, using(ob_tree::proofs::ExpressionLayers::expressions_made), unfolding(ob_grammar::specs::ReadExpressions::selector_with, ob_grammar::specs::Combinators::name_at))]
fn selector(
    alloc: Global,
    tokens: &[Token],
    input: Cursor,
    depth: u32,
) -> Result<(Selector, Cursor), Stop>
    ensures { ParsesAs tokens.now (λ x. (selector_events x.0, remaining tokens.now x.1)) result (selector_with (expr_at depth) (remaining tokens.now input)) }
{
    match input.next(tokens) {
        Some((Leaf::Word(Kind::Dot), rest)) => field(tokens, rest),
        Some((Leaf::Word(Kind::LeftBracket), rest)) => index(alloc, tokens, rest, depth),
        Some((Leaf::Word(Kind::Caret), rest)) => Ok((Selector::Target, rest)),
        Some((Leaf::Word(Kind::LeftParen), rest)) => call(alloc, tokens, rest, depth),
        _ => Err(Stop::Unexpected(input)),
    }
}

/// Parses the field name after the dot of a selector.
#[tactic(auto, using(ob_tree::proofs::ExpressionLayers::expressions_made), unfolding(ob_grammar::specs::Combinators::name_at))]
fn field(tokens: &[Token], input: Cursor) -> Result<(Selector, Cursor), Stop>
    ensures { ParsesAs tokens.now (λ x. (selector_events x.0, remaining tokens.now x.1)) result (node constructs.Selector (prefixed (word kinds.Dot) (name_at marks.selected)) (remaining tokens.now input)) }
{
    let (field, rest) = identifier(tokens, input)?;
    Ok((Selector::Field(field), rest))
}

/// Parses the indices after an opening bracket, and the closing bracket.
#[cycle(expressions)]
#[tactic(auto, using(ob_tree::proofs::ExpressionLayers::expressions_made))]
fn index(
    alloc: Global,
    tokens: &[Token],
    input: Cursor,
    depth: u32,
) -> Result<(Selector, Cursor), Stop>
    ensures { ParsesAs tokens.now (λ x. (selector_events x.0, remaining tokens.now x.1)) result
        (node constructs.Selector (prefixed (word kinds.LeftBracket) (seq (several kinds.Comma (expr_at depth)) (expect_at kinds.RightBracket))) (remaining tokens.now input)) }
{
    let (list, rest) = expression_list(alloc, tokens, input, depth)?;
    let rest = expect(tokens, rest, Kind::RightBracket)?;
    Ok((Selector::Index(list), rest))
}

/// Parses a call or a type guard after its opening parenthesis.
#[cycle(expressions)]
#[tactic(auto, using(ob_tree::proofs::ExpressionLayers::expressions_made))]
fn call(
    alloc: Global,
    tokens: &[Token],
    input: Cursor,
    depth: u32,
) -> Result<(Selector, Cursor), Stop>
    ensures { ParsesAs tokens.now (λ x. (selector_events x.0, remaining tokens.now x.1)) result
        (node constructs.Selector (prefixed (word kinds.LeftParen) (seq (optional (unless kinds.RightParen) (several kinds.Comma (expr_at depth))) (expect_at kinds.RightParen))) (remaining tokens.now input)) }
{
    let (list, rest) = arguments(alloc, tokens, input, depth)?;
    let rest = expect(tokens, rest, Kind::RightParen)?;
    Ok((Selector::Arguments(list), rest))
}

/// Parses the arguments of a call, if it has any.
#[cycle(expressions)]
#[tactic(auto, unfolding(ob_grammar::specs::Combinators::unless))]
fn arguments(
    alloc: Global,
    tokens: &[Token],
    input: Cursor,
    depth: u32,
) -> Result<(Option<Box<ExprList>>, Cursor), Stop>
    ensures { ParsesAs tokens.now (λ x. (if_present (λ l. expr_list_events l.value) x.0, remaining tokens.now x.1)) result (optional (unless kinds.RightParen) (several kinds.Comma (expr_at depth)) (remaining tokens.now input)) }
{
    if next_is(tokens, input, Kind::RightParen) {
        return Ok((None, input));
    }
    wrap_in_some(expression_list(alloc, tokens, input, depth))
}
