//! Expressions (Oberon-07 report, section 8). Each function parses the production or part that its name states, and appends the table
//! entries of what it parses. `depth` is the number of nested levels that are left for it.
//! Clauses: the builder has counted exactly the tokens before the cursor, before a call (`requires`) and, with `Ok`, after it (`number`).
//! `effect`: the function returns what the grammar's reader, the last argument, returns for these tokens, unless it returns the error
//! `Memory`. With `Ok`, unless an allocation failed, it has appended exactly the entries (`.._rows`, `.._stage`) of the parsed tree.

ghost use Rattle.std.specs.Prelude.{◌≡◌, ◌+◌, ◌<◌, true, false, length, Ok, IfOk};
ghost use Rattle.ob_scan.specs.declared.kind.Kind.TheVariants as kinds;
ghost use Rattle.ob_tree.specs.Constructs as constructs;
ghost use Rattle.ob_tree.specs.TreeEvents as marks;
ghost use Rattle.ob_tree.specs.TreeEvents.{construct, word};
ghost use Rattle.ob_tree.specs.Expressions.{expr_events, sum_events, term_events, factor_events, designator_events, element_events, element_list_events};
ghost use Rattle.table_rules.specs.Expressions.{expr_rows, sum_rows, term_rows, factor_rows, designator_rows, element_rows, element_list_rows};
ghost use Rattle.module_table.specs.TableStages.{after};
ghost use Rattle.ob_grammar.specs.Combinators.{many, several, optional, unless, nothing, accept_at, expect_at, name_at, begins, seq, prefixed, node};
ghost use Rattle.ob_grammar.specs.ParsesAs.{remaining};
ghost use Rattle.ob_grammar.specs.ReadExpressions.{relation_start, sign_start, add_start, mul_start, element_with, selector_first, selector_with, designator_with, expr_at, sum_at, term_at, factor_at, negated_at};
ghost use Rattle.ob_grammar.specs.Lookahead.{uncons, head_is};
ghost use Rattle.table_reader.specs.Operators.{is_operator, operator_first};
ghost use Rattle.table_reader.specs.Shapes.{compared_events, compared_rows, sign_events, sign_rows, terms_events, terms_rows, factors_events, factors_rows, set_events, set_rows, elements_events, elements_rows, high_events, high_rows, arguments_events, arguments_rows};
ghost use Rattle.table_reader.specs.SelectorShapes.{dot_at, SelectorShape, selector_shape_events, selector_stage, SelectorsShape, selectors_shape_events, selectors_stage, Counts, CountsMore};
ghost use Rattle.table_reader.specs.Tabulating.{AppendsEntries, AppendsEntriesBy, HasAppendedEntries};

use crate::slots::{
    ensure_slot, estimate_selectors, member_placeholder, reserve_slots, selector_count, sole_name,
    trim_slots,
};
use crate::source::ParserInput;
use crate::words::{advance_token, expect_word};
use module_table::builder::{Context, TableBuilder};
use module_table::{Designator as DesignatorRow, Selector as SelectorRow, Step};
use ob_grammar::cursor::Cursor;
use ob_grammar::operators::{
    begins_expression, begins_factor, begins_selector, parse_add_operator, parse_mul_operator,
    relation, sign,
};
use ob_grammar::stop::Stop;
use ob_grammar::tokens::{accept, depth_stop, identifier, next_is};
use ob_scan::{Kind, Token};
use ob_tree::token::Leaf;
use table_rules::walk::uses::append_use;

/// Parses an expression, which takes one of the `depth` nesting levels. Most expressions are a single factor: for these, one test that no
/// operator follows replaces the tests of `sum` and `term` for their own operators.
#[cycle(expressions)]
pub(crate) fn expression(
    builder: &mut TableBuilder,
    context: Context,
    source: &ParserInput,
    input: Cursor,
    depth: u32,
) -> Result<Cursor, Stop>
    requires { builder.old.number ≡ input.at }
    ensures effect { AppendsEntries source.now.tokens.now expr_events expr_rows context builder.old builder.new result (expr_at depth (remaining source.now.tokens.now input)) }
    ensures number { IfOk result (λ rest. builder.new.number ≡ rest.at) }
{
    if depth == 0 {
        return Err(depth_stop(
            source.tokens,
            input,
            begins_expression(source.tokens, input),
        ));
    }
    let here = optional_sign(builder, context, source, input);
    match factor(builder, context, source, here, depth - 1) {
        Ok(here) => {
            if !is_operator_at(source.tokens, here) {
                return Ok(here);
            }
            match more_factors(builder, context, source, here, depth - 1) {
                Ok(here) => match more_terms(builder, context, source, here, depth - 1) {
                    Ok(here) => comparison(builder, context, source, here, depth - 1),
                    Err(stop) => Err(stop),
                },
                Err(stop) => Err(stop),
            }
        }
        Err(stop) => Err(stop),
    }
}

/// Whether a token of this kind is an operator between two factors, two terms or two simple expressions.
#[inline(always)]
fn is_operator(kind: Kind) -> bool
    ensures { result ≡ is_operator kind }
{
    match kind {
        Kind::Star | Kind::Slash | Kind::Div | Kind::Mod | Kind::Ampersand => true,
        Kind::Plus | Kind::Minus | Kind::Or => true,
        Kind::Equals | Kind::Hash | Kind::Less | Kind::LessEquals => true,
        Kind::Greater | Kind::GreaterEquals | Kind::In | Kind::Is => true,
        _ => false,
    }
}

/// Whether the next token is an operator between two factors, two terms or two simple expressions.
#[inline(always)]
fn is_operator_at(tokens: &[Token], input: Cursor) -> bool
    ensures { result ≡ head_is operator_first (uncons (remaining tokens.now input)) }
{
    match input.next(tokens) {
        Some((Leaf::Word(kind), _)) => is_operator(kind),
        _ => false,
    }
}

/// Parses a relation and its right operand, if a relation is next.
#[cycle(expressions)]
fn comparison(
    builder: &mut TableBuilder,
    context: Context,
    source: &ParserInput,
    input: Cursor,
    depth: u32,
) -> Result<Cursor, Stop>
    requires { builder.old.number ≡ input.at }
    ensures effect { AppendsEntries source.now.tokens.now compared_events compared_rows context builder.old builder.new result (optional relation_start (sum_at depth) (remaining source.now.tokens.now input)) }
    ensures number { IfOk result (λ rest. builder.new.number ≡ rest.at) }
{
    match relation(source.tokens, input) {
        None => Ok(input),
        Some((_, rest)) => {
            builder.advance();
            sum(builder, context, source, rest, depth)
        }
    }
}

/// Parses a simple expression: an optional sign, and terms with operators between them.
#[cycle(expressions)]
fn sum(
    builder: &mut TableBuilder,
    context: Context,
    source: &ParserInput,
    input: Cursor,
    depth: u32,
) -> Result<Cursor, Stop>
    requires { builder.old.number ≡ input.at }
    ensures effect { AppendsEntries source.now.tokens.now sum_events sum_rows context builder.old builder.new result (sum_at depth (remaining source.now.tokens.now input)) }
    ensures number { IfOk result (λ rest. builder.new.number ≡ rest.at) }
{
    let here = optional_sign(builder, context, source, input);
    match term(builder, context, source, here, depth) {
        Ok(here) => more_terms(builder, context, source, here, depth),
        Err(stop) => Err(stop),
    }
}

/// Parses a sign, if one is next.
fn optional_sign(
    builder: &mut TableBuilder,
    context: Context,
    source: &ParserInput,
    input: Cursor,
) -> Cursor
    requires { builder.old.number ≡ input.at }
    ensures effect { HasAppendedEntries source.now.tokens.now sign_events (λ x. after (sign_rows x) context) builder.old builder.new result (optional sign_start nothing (remaining source.now.tokens.now input)) }
    ensures number { builder.new.number ≡ result.at }
{
    let (sign, rest) = sign(source.tokens, input);
    match sign {
        None => {}
        Some(_) => builder.advance(),
    }
    rest
}

/// Parses the further terms of a simple expression, each after an operator.
#[cycle(expressions)]
fn more_terms(
    builder: &mut TableBuilder,
    context: Context,
    source: &ParserInput,
    input: Cursor,
    depth: u32,
) -> Result<Cursor, Stop>
    requires { builder.old.number ≡ input.at }
    ensures effect { AppendsEntries source.now.tokens.now terms_events terms_rows context builder.old builder.new result (many add_start (term_at depth) (remaining source.now.tokens.now input)) }
    ensures number { IfOk result (λ rest. builder.new.number ≡ rest.at) }
{
    let mut here = input;
    'more: while let Some((_, following)) = parse_add_operator(source.tokens, here) {
        builder.advance();
        match term(builder, context, source, following, depth) {
            Ok(next) => here = next,
            Err(stop) => return Err(stop),
        }
    }
    Ok(here)
}

/// Parses a term: factors with operators between them.
#[cycle(expressions)]
fn term(
    builder: &mut TableBuilder,
    context: Context,
    source: &ParserInput,
    input: Cursor,
    depth: u32,
) -> Result<Cursor, Stop>
    requires { builder.old.number ≡ input.at }
    ensures effect { AppendsEntries source.now.tokens.now term_events term_rows context builder.old builder.new result (term_at depth (remaining source.now.tokens.now input)) }
    ensures number { IfOk result (λ rest. builder.new.number ≡ rest.at) }
{
    match factor(builder, context, source, input, depth) {
        Ok(here) => more_factors(builder, context, source, here, depth),
        Err(stop) => Err(stop),
    }
}

/// Parses the further factors of a term, each after an operator.
#[cycle(expressions)]
fn more_factors(
    builder: &mut TableBuilder,
    context: Context,
    source: &ParserInput,
    input: Cursor,
    depth: u32,
) -> Result<Cursor, Stop>
    requires { builder.old.number ≡ input.at }
    ensures effect { AppendsEntries source.now.tokens.now factors_events factors_rows context builder.old builder.new result (many mul_start (factor_at depth) (remaining source.now.tokens.now input)) }
    ensures number { IfOk result (λ rest. builder.new.number ≡ rest.at) }
{
    let mut here = input;
    'more: while let Some((_, following)) = parse_mul_operator(source.tokens, here) {
        builder.advance();
        match factor(builder, context, source, following, depth) {
            Ok(next) => here = next,
            Err(stop) => return Err(stop),
        }
    }
    Ok(here)
}

/// Parses a factor.
#[inline(always)]
#[cycle(expressions)]
fn factor(
    builder: &mut TableBuilder,
    context: Context,
    source: &ParserInput,
    input: Cursor,
    depth: u32,
) -> Result<Cursor, Stop>
    requires { builder.old.number ≡ input.at }
    ensures effect { AppendsEntries source.now.tokens.now factor_events factor_rows context builder.old builder.new result (factor_at depth (remaining source.now.tokens.now input)) }
    ensures number { IfOk result (λ rest. builder.new.number ≡ rest.at) }
{
    match input.next(source.tokens) {
        Some((Leaf::Name(number), rest)) => designator(
            builder, context, source, number, rest, depth,
        ),
        Some((Leaf::Value(_, _), rest)) => Ok(advance_token(builder, rest)),
        Some((Leaf::Word(Kind::Nil), rest)) => Ok(advance_token(builder, rest)),
        Some((Leaf::Word(Kind::True), rest)) => Ok(advance_token(builder, rest)),
        Some((Leaf::Word(Kind::False), rest)) => Ok(advance_token(builder, rest)),
        Some((Leaf::Word(Kind::LeftBrace), rest)) => set(builder, context, source, rest, depth),
        Some((Leaf::Word(Kind::LeftParen), rest)) => parenthesized_factor(
            builder, context, source, rest, depth,
        ),
        Some((Leaf::Word(Kind::Tilde), rest)) => negated_factor(
            builder, context, source, rest, depth,
        ),
        _ => Err(Stop::Unexpected(input)),
    }
}

/// Parses the part of a set after its opening brace.
#[cycle(expressions)]
fn set(
    builder: &mut TableBuilder,
    context: Context,
    source: &ParserInput,
    input: Cursor,
    depth: u32,
) -> Result<Cursor, Stop>
    // The builder hasn't counted the opening brace yet.
    requires { builder.old.number + 1 ≡ input.at }
    ensures effect { AppendsEntries source.now.tokens.now factor_events factor_rows context builder.old builder.new result
        (node constructs.Factor (prefixed (word kinds.LeftBrace) (seq (optional (unless kinds.RightBrace) (several kinds.Comma (element_with (expr_at depth)))) (expect_at kinds.RightBrace))) (remaining source.now.tokens.now input)) }
    ensures number { IfOk result (λ rest. builder.new.number ≡ rest.at) }
{
    builder.advance();
    match elements(builder, context, source, input, depth) {
        Ok(here) => expect_word(builder, source.tokens, here, Kind::RightBrace),
        Err(stop) => Err(stop),
    }
}

/// Parses the part of a factor in parentheses after the opening parenthesis.
#[cycle(expressions)]
fn parenthesized_factor(
    builder: &mut TableBuilder,
    context: Context,
    source: &ParserInput,
    input: Cursor,
    depth: u32,
) -> Result<Cursor, Stop>
    // The builder hasn't counted the opening parenthesis yet.
    requires { builder.old.number + 1 ≡ input.at }
    ensures effect { AppendsEntries source.now.tokens.now factor_events factor_rows context builder.old builder.new result
        (node constructs.Factor (prefixed (word kinds.LeftParen) (seq (expr_at depth) (expect_at kinds.RightParen))) (remaining source.now.tokens.now input)) }
    ensures number { IfOk result (λ rest. builder.new.number ≡ rest.at) }
{
    builder.advance();
    match expression(builder, context, source, input, depth) {
        Ok(here) => expect_word(builder, source.tokens, here, Kind::RightParen),
        Err(stop) => Err(stop),
    }
}

/// Parses the factor after a `~`, with one level of nesting less. Fails if no level is left.
#[cycle(expressions)]
fn negated_factor(
    builder: &mut TableBuilder,
    context: Context,
    source: &ParserInput,
    input: Cursor,
    depth: u32,
) -> Result<Cursor, Stop>
    // The builder hasn't counted the `~` yet.
    requires { builder.old.number + 1 ≡ input.at }
    ensures effect { AppendsEntries source.now.tokens.now factor_events factor_rows context builder.old builder.new result
        (node constructs.Factor (prefixed (word kinds.Tilde) (negated_at depth)) (remaining source.now.tokens.now input)) }
    ensures number { IfOk result (λ rest. builder.new.number ≡ rest.at) }
{
    if depth == 0 {
        return Err(depth_stop(source.tokens, input, begins_factor(source.tokens, input)));
    }
    builder.advance();
    factor(builder, context, source, input, depth - 1)
}

/// Parses the elements of a set, if it has any.
#[cycle(expressions)]
fn elements(
    builder: &mut TableBuilder,
    context: Context,
    source: &ParserInput,
    input: Cursor,
    depth: u32,
) -> Result<Cursor, Stop>
    requires { builder.old.number ≡ input.at }
    ensures effect { AppendsEntries source.now.tokens.now set_events set_rows context builder.old builder.new result (optional (unless kinds.RightBrace) (several kinds.Comma (element_with (expr_at depth))) (remaining source.now.tokens.now input)) }
    ensures number { IfOk result (λ rest. builder.new.number ≡ rest.at) }
{
    if next_is(source.tokens, input, Kind::RightBrace) {
        return Ok(input);
    }
    element_list(builder, context, source, input, depth)
}

/// Parses one element or more, separated by commas.
#[cycle(expressions)]
fn element_list(
    builder: &mut TableBuilder,
    context: Context,
    source: &ParserInput,
    input: Cursor,
    depth: u32,
) -> Result<Cursor, Stop>
    requires { builder.old.number ≡ input.at }
    ensures effect { AppendsEntries source.now.tokens.now element_list_events element_list_rows context builder.old builder.new result (several kinds.Comma (element_with (expr_at depth)) (remaining source.now.tokens.now input)) }
    ensures number { IfOk result (λ rest. builder.new.number ≡ rest.at) }
{
    match element(builder, context, source, input, depth) {
        Ok(here) => more_elements(builder, context, source, here, depth),
        Err(stop) => Err(stop),
    }
}

/// Parses the further elements of a set, each after a comma.
#[cycle(expressions)]
fn more_elements(
    builder: &mut TableBuilder,
    context: Context,
    source: &ParserInput,
    input: Cursor,
    depth: u32,
) -> Result<Cursor, Stop>
    requires { builder.old.number ≡ input.at }
    ensures effect { AppendsEntries source.now.tokens.now elements_events elements_rows context builder.old builder.new result (many (accept_at kinds.Comma) (element_with (expr_at depth)) (remaining source.now.tokens.now input)) }
    ensures number { IfOk result (λ rest. builder.new.number ≡ rest.at) }
{
    let mut here = input;
    'more: while let Some(following) = accept(source.tokens, here, Kind::Comma) {
        builder.advance();
        match element(builder, context, source, following, depth) {
            Ok(next) => here = next,
            Err(stop) => return Err(stop),
        }
    }
    Ok(here)
}

/// Parses an element of a set: an expression or a range.
#[cycle(expressions)]
fn element(
    builder: &mut TableBuilder,
    context: Context,
    source: &ParserInput,
    input: Cursor,
    depth: u32,
) -> Result<Cursor, Stop>
    requires { builder.old.number ≡ input.at }
    ensures effect { AppendsEntries source.now.tokens.now element_events element_rows context builder.old builder.new result (element_with (expr_at depth) (remaining source.now.tokens.now input)) }
    ensures number { IfOk result (λ rest. builder.new.number ≡ rest.at) }
{
    match expression(builder, context, source, input, depth) {
        Ok(here) => upper_bound(builder, context, source, here, depth),
        Err(stop) => Err(stop),
    }
}

/// Parses `..` and the upper bound of a range, if `..` is next.
#[cycle(expressions)]
fn upper_bound(
    builder: &mut TableBuilder,
    context: Context,
    source: &ParserInput,
    input: Cursor,
    depth: u32,
) -> Result<Cursor, Stop>
    requires { builder.old.number ≡ input.at }
    ensures effect { AppendsEntries source.now.tokens.now high_events high_rows context builder.old builder.new result (optional (accept_at kinds.DotDot) (expr_at depth) (remaining source.now.tokens.now input)) }
    ensures number { IfOk result (λ rest. builder.new.number ≡ rest.at) }
{
    match accept(source.tokens, input, Kind::DotDot) {
        None => Ok(input),
        Some(rest) => {
            builder.advance();
            expression(builder, context, source, rest, depth)
        }
    }
}

/// Parses a designator after its first identifier, which has the index `number`. The designator's entry says that it isn't assigned to;
/// `assigned_value` corrects the entry if `:=` follows.
#[inline(always)]
#[cycle(expressions)]
pub(crate) fn designator(
    builder: &mut TableBuilder,
    context: Context,
    source: &ParserInput,
    number: u32,
    input: Cursor,
    depth: u32,
) -> Result<Cursor, Stop>
    // The builder hasn't counted the first identifier yet.
    requires { builder.old.number + 1 ≡ input.at }
    ensures effect { AppendsEntries source.now.tokens.now designator_events (designator_rows false) context builder.old builder.new result (designator_with (expr_at depth) number (remaining source.now.tokens.now input)) }
    ensures number { IfOk result (λ rest. builder.new.number ≡ rest.at) }
{
    let head = builder.number;
    builder.add_designator(DesignatorRow {
        head,
        block: context.block,
        is_written: false,
    });
    append_use(builder, context, member_placeholder(source.tokens, input));
    // `selectors` would do nothing either; this test saves its call.
    if !begins_selector(source.tokens, input) {
        return Ok(input);
    }
    selectors(builder, context, source, input, depth, head)
}

/// Parses the selectors of the designator whose first identifier has the index `head`. All selector entries precede the entries of the
/// expressions in the selectors, so selector entries are reserved first, by an estimate: missing ones are inserted, surplus ones removed.
#[inline(never)]
#[cycle(expressions)]
fn selectors(
    builder: &mut TableBuilder,
    context: Context,
    source: &ParserInput,
    input: Cursor,
    depth: u32,
    head: u32,
) -> Result<Cursor, Stop>
    requires { builder.old.number ≡ input.at }
    ensures effect { AppendsEntriesBy {T = SelectorsShape (dot_at source.now.tokens.now input)} source.now.tokens.now selectors_shape_events (selectors_stage head context) builder.old builder.new result (many (begins selector_first) (selector_with (expr_at depth)) (remaining source.now.tokens.now input)) }
    ensures number { IfOk result (λ rest. builder.new.number ≡ rest.at) }
{
    let at = selector_count(builder);
    reserve_slots(builder, head, estimate_selectors(source, input));
    let mut here = input;
    let mut slot = at;
    let mut end = selector_count(builder);
    'more: while begins_selector(source.tokens, here) {
        end = ensure_slot(builder, head, slot, end);
        match selector(builder, context, source, here, depth, head, slot) {
            Ok(next) => {
                here = next;
                slot = slot.saturating_add(1);
            }
            Err(stop) => return Err(stop),
        }
    }
    trim_slots(builder, slot, end);
    Ok(here)
}

/// Parses a selector of the designator whose first identifier has the index `head`. The selector's entry is reserved at index `slot`.
#[cycle(expressions)]
fn selector(
    builder: &mut TableBuilder,
    context: Context,
    source: &ParserInput,
    input: Cursor,
    depth: u32,
    head: u32,
    slot: usize,
) -> Result<Cursor, Stop>
    // Unless an allocation failed, `slot` is the index of a selector entry.
    requires slot { builder.old.failed ≡ false → slot < length builder.old.selectors.items }
    requires number { builder.old.number ≡ input.at }
    ensures effect { AppendsEntriesBy {T = SelectorShape (dot_at source.now.tokens.now input)} source.now.tokens.now selector_shape_events (selector_stage head slot context) builder.old builder.new result (selector_with (expr_at depth) (remaining source.now.tokens.now input)) }
    ensures number { IfOk result (λ rest. builder.new.number ≡ rest.at) }
{
    match input.next(source.tokens) {
        Some((Leaf::Word(Kind::Dot), rest)) => field(builder, context, source, rest, head, slot),
        Some((Leaf::Word(Kind::LeftBracket), rest)) => {
            index(builder, context, source, rest, depth, head, slot)
        }
        Some((Leaf::Word(Kind::Caret), rest)) => Ok(caret_selector(
            builder, context, source, rest, head, slot,
        )),
        Some((Leaf::Word(Kind::LeftParen), rest)) => {
            call(builder, context, source, rest, depth, head, slot)
        }
        _ => Err(Stop::Unexpected(input)),
    }
}

/// Parses the field name after the dot of a selector, whose entry is at index `slot`.
fn field(
    builder: &mut TableBuilder,
    context: Context,
    source: &ParserInput,
    input: Cursor,
    head: u32,
    slot: usize,
) -> Result<Cursor, Stop>
    // The builder hasn't counted the dot yet.
    requires { builder.old.number + 1 ≡ input.at }
    ensures effect { AppendsEntriesBy {T = SelectorShape true} source.now.tokens.now selector_shape_events (selector_stage head slot context) builder.old builder.new result
        (node constructs.Selector (prefixed (word kinds.Dot) (name_at marks.selected)) (remaining source.now.tokens.now input)) }
    ensures number { IfOk result (λ rest. builder.new.number ≡ rest.at) }
{
    builder.set_selector(
        slot,
        SelectorRow {
            of: head,
            step: Step::Field(input.number()),
        },
    );
    builder.advance();
    match identifier(source.tokens, input) {
        Ok((_, rest)) => Ok(advance_token(builder, rest)),
        Err(stop) => Err(stop),
    }
}

/// Sets the selector entry at index `slot` to a `^`, and advances the builder by this token. `rest` is the cursor after it.
fn caret_selector(
    builder: &mut TableBuilder,
    context: Context,
    source: &ParserInput,
    rest: Cursor,
    head: u32,
    slot: usize,
) -> Cursor
    // The builder hasn't counted the `^` yet.
    requires { builder.old.number + 1 ≡ rest.at }
    ensures effect { HasAppendedEntries {T = SelectorShape false} source.now.tokens.now selector_shape_events (selector_stage head slot context) builder.old builder.new result (Ok (construct constructs.Selector (word kinds.Caret), remaining source.now.tokens.now rest)) }
    ensures number { builder.new.number ≡ result.at }
{
    builder.set_selector(
        slot,
        SelectorRow {
            of: head,
            step: Step::Target,
        },
    );
    advance_token(builder, rest)
}

/// Parses the indices after an opening bracket, and the closing bracket. The selector's entry is at index `slot`.
#[cycle(expressions)]
fn index(
    builder: &mut TableBuilder,
    context: Context,
    source: &ParserInput,
    input: Cursor,
    depth: u32,
    head: u32,
    slot: usize,
) -> Result<Cursor, Stop>
    // Unless an allocation failed, `slot` is the index of a selector entry. The builder hasn't counted the opening bracket yet.
    requires slot { builder.old.failed ≡ false → slot < length builder.old.selectors.items }
    requires number { builder.old.number + 1 ≡ input.at }
    ensures effect { AppendsEntriesBy {T = SelectorShape false} source.now.tokens.now selector_shape_events (selector_stage head slot context) builder.old builder.new result
        (node constructs.Selector (prefixed (word kinds.LeftBracket) (seq (several kinds.Comma (expr_at depth)) (expect_at kinds.RightBracket))) (remaining source.now.tokens.now input)) }
    ensures number { IfOk result (λ rest. builder.new.number ≡ rest.at) }
{
    builder.advance();
    match expression_list(builder, context, source, input, depth) {
        Ok((here, count)) => {
            builder.set_selector(
                slot,
                SelectorRow {
                    of: head,
                    step: Step::Elements(count),
                },
            );
            expect_word(builder, source.tokens, here, Kind::RightBracket)
        }
        Err(stop) => Err(stop),
    }
}

/// Parses a call or a type guard after its opening parenthesis. The selector's entry is at index `slot`.
#[cycle(expressions)]
fn call(
    builder: &mut TableBuilder,
    context: Context,
    source: &ParserInput,
    input: Cursor,
    depth: u32,
    head: u32,
    slot: usize,
) -> Result<Cursor, Stop>
    // Unless an allocation failed, `slot` is the index of a selector entry. The builder hasn't counted the opening parenthesis yet.
    requires slot { builder.old.failed ≡ false → slot < length builder.old.selectors.items }
    requires number { builder.old.number + 1 ≡ input.at }
    ensures effect { AppendsEntriesBy {T = SelectorShape false} source.now.tokens.now selector_shape_events (selector_stage head slot context) builder.old builder.new result
        (node constructs.Selector (prefixed (word kinds.LeftParen) (seq (optional (unless kinds.RightParen) (several kinds.Comma (expr_at depth))) (expect_at kinds.RightParen))) (remaining source.now.tokens.now input)) }
    ensures number { IfOk result (λ rest. builder.new.number ≡ rest.at) }
{
    builder.advance();
    match arguments(builder, context, source, input, depth) {
        Ok(here) => {
            let name = sole_name(source.tokens, input, here);
            builder.set_selector(
                slot,
                SelectorRow {
                    of: head,
                    step: Step::Arguments(name),
                },
            );
            expect_word(builder, source.tokens, here, Kind::RightParen)
        }
        Err(stop) => Err(stop),
    }
}

/// Parses the arguments of a call, if it has any.
#[cycle(expressions)]
fn arguments(
    builder: &mut TableBuilder,
    context: Context,
    source: &ParserInput,
    input: Cursor,
    depth: u32,
) -> Result<Cursor, Stop>
    // Unless an allocation failed, a token precedes the arguments, so their number fits into 32 bits.
    requires begun { builder.old.failed ≡ false → 0 < builder.old.number }
    requires number { builder.old.number ≡ input.at }
    ensures effect { AppendsEntries source.now.tokens.now arguments_events arguments_rows context builder.old builder.new result (optional (unless kinds.RightParen) (several kinds.Comma (expr_at depth)) (remaining source.now.tokens.now input)) }
    ensures number { IfOk result (λ rest. builder.new.number ≡ rest.at) }
{
    if next_is(source.tokens, input, Kind::RightParen) {
        return Ok(input);
    }
    match expression_list(builder, context, source, input, depth) {
        Ok((here, _)) => Ok(here),
        Err(stop) => Err(stop),
    }
}

/// Parses one expression or more, separated by commas. Returns the cursor after them, and their number.
#[cycle(expressions)]
pub(crate) fn expression_list(
    builder: &mut TableBuilder,
    context: Context,
    source: &ParserInput,
    input: Cursor,
    depth: u32,
) -> Result<(Cursor, u32), Stop>
    // Unless an allocation failed, a token precedes the list, so the number of its expressions fits into 32 bits.
    requires begun { builder.old.failed ≡ false → 0 < builder.old.number }
    requires number { builder.old.number ≡ input.at }
    ensures effect { Counts source.now.tokens.now context builder.old builder.new result (several kinds.Comma (expr_at depth) (remaining source.now.tokens.now input)) }
    ensures number { IfOk result (λ x. builder.new.number ≡ x.0.at) }
{
    match expression(builder, context, source, input, depth) {
        Ok(here) => more_expressions(builder, context, source, here, depth),
        Err(stop) => Err(stop),
    }
}

/// Parses the further expressions of a list, each after a comma. Returns the cursor after them, and the number of all expressions of the
/// list, including the first.
#[cycle(expressions)]
fn more_expressions(
    builder: &mut TableBuilder,
    context: Context,
    source: &ParserInput,
    input: Cursor,
    depth: u32,
) -> Result<(Cursor, u32), Stop>
    // Unless an allocation failed, a token precedes the list, so the number of its expressions fits into 32 bits.
    requires begun { builder.old.failed ≡ false → 0 < builder.old.number }
    requires number { builder.old.number ≡ input.at }
    ensures effect { CountsMore source.now.tokens.now context builder.old builder.new result (many (accept_at kinds.Comma) (expr_at depth) (remaining source.now.tokens.now input)) }
    ensures number { IfOk result (λ x. builder.new.number ≡ x.0.at) }
{
    let mut here = input;
    let mut count = 1;
    'more: while let Some(following) = accept(source.tokens, here, Kind::Comma) {
        builder.advance();
        match expression(builder, context, source, following, depth) {
            Ok(next) => {
                here = next;
                // Each iteration consumes a comma, so the count fits into 32 bits. After a failed allocation this can't be proved, so the
                // addition is a saturating one.
                count = u32::saturating_add(count, 1);
            }
            Err(stop) => return Err(stop),
        }
    }
    Ok((here, count))
}
