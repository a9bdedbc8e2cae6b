//! Statements (Oberon-07 report, section 9). Each function parses the production or part that its name states.
//! `ensures`: the parser's result is that of the grammar's reader, the last argument of `ParsesAs`: the events of the parsed item and the
//! remaining tokens, or the error. If an allocation failed, nothing is claimed.

ghost use Rattle.std.specs.Prelude.{◌≡◌, ◌++◌};
ghost use Rattle.ob_grammar.specs.Combinators.{accept_at, expect_at, many, node, optional, prefixed, seq};
ghost use Rattle.ob_grammar.specs.ParsesAs.{ParsesAs, remaining};
ghost use Rattle.ob_grammar.specs.ReadExpressions.{expr_at};
ghost use Rattle.ob_grammar.specs.ReadStatements.{assign_with, block_at, branch_with, case_with, cases_with, for_with, if_with, repeat_with, statement_at, statement_with, while_with};
ghost use Rattle.ob_scan.specs.declared.kind.Kind.TheVariants as kinds;
ghost use Rattle.ob_tree.specs.Constructs as constructs;
ghost use Rattle.ob_tree.specs.Expressions.{expr_events};
ghost use Rattle.ob_tree.specs.TreeEvents as marks;
ghost use Rattle.ob_tree.specs.TreeEvents.{each_after, if_present, word};
ghost use Rattle.ob_tree.specs.Statements.{block_events, branch_events, case_events, stmt_events};

use crate::expressions::{designator, expression, optional_expression};
use crate::labels::label_ranges;
use crate::stop::{append_boxed, box_value, wrap_in_some};
use ob_grammar::cursor::Cursor;
use ob_grammar::labels::begins_label;
use ob_grammar::statements::begins_statement;
use ob_grammar::stop::Stop;
use ob_grammar::tokens::{accept, expect, identifier};
use ob_scan::{Kind, Token};
use ob_tree::expression::Expr;
use ob_tree::statement::{Branch, Case, For, StatementSequence, Stmt};
use ob_tree::token::Leaf;
use std::alloc::Global;

/// Parses an empty statement, the only statement for which no nesting level has to be left. Any other statement is the error `TooDeep`.
#[tactic(auto, using(crate::proofs::StatementSteps::made), unfolding(ob_grammar::specs::ReadStatements::statement_at, ob_grammar::specs::ReadStatements::empty_at))]
fn empty_statement(
    alloc: Global,
    tokens: &[Token],
    input: Cursor,
) -> Result<(Box<Stmt>, Cursor), Stop>
    ensures { ParsesAs tokens.now (λ x. (stmt_events x.0.value, remaining tokens.now x.1)) result (statement_at 0 (remaining tokens.now input)) }
{
    if begins_statement(tokens, input) {
        return Err(Stop::TooDeep(input));
    }
    box_value(alloc, Stmt::Empty, input)
}

/// Parses a statement, which takes one of the `depth` nesting levels that are left. If none is left, only an empty statement is accepted.
#[cycle(statements)]
#[tactic(auto, unfolding(ob_grammar::specs::ReadStatements::statement_at))]
fn statement(
    alloc: Global,
    tokens: &[Token],
    input: Cursor,
    depth: u32,
) -> Result<(Box<Stmt>, Cursor), Stop>
    ensures { ParsesAs tokens.now (λ x. (stmt_events x.0.value, remaining tokens.now x.1)) result (statement_at depth (remaining tokens.now input)) }
{
    if depth == 0 {
        return empty_statement(alloc, tokens, input);
    }
    let (statement, input) = statement_after_depth_check(alloc, tokens, input, depth - 1)?;
    box_value(alloc, statement, input)
}

/// Parses a statement. `depth` is the number of nesting levels left for its parts: the statement's own level is already subtracted.
#[cycle(statements)]
#[tactic(auto, using(crate::proofs::StatementSteps::made), unfolding(ob_grammar::specs::ReadStatements::statement_with))]
fn statement_after_depth_check(
    alloc: Global,
    tokens: &[Token],
    input: Cursor,
    depth: u32,
) -> Result<(Stmt, Cursor), Stop>
    ensures { ParsesAs tokens.now (λ x. (stmt_events x.0, remaining tokens.now x.1)) result (statement_with (expr_at depth) (block_at depth) (remaining tokens.now input)) }
{
    match input.next(tokens) {
        Some((Leaf::Name(number), rest)) => assignment(alloc, tokens, number, rest, depth),
        Some((Leaf::Word(Kind::If), rest)) => if_statement(alloc, tokens, rest, depth),
        Some((Leaf::Word(Kind::Case), rest)) => case_statement(alloc, tokens, rest, depth),
        Some((Leaf::Word(Kind::While), rest)) => while_statement(alloc, tokens, rest, depth),
        Some((Leaf::Word(Kind::Repeat), rest)) => repeat_statement(alloc, tokens, rest, depth),
        Some((Leaf::Word(Kind::For), rest)) => for_statement(alloc, tokens, rest, depth),
        _ => Ok((Stmt::Empty, input)),
    }
}

/// Parses an assignment or a call after its first identifier, which has the index `head`.
#[tactic(auto, using(crate::proofs::StatementSteps::made), unfolding(ob_grammar::specs::ReadStatements::assign_with))]
fn assignment(
    alloc: Global,
    tokens: &[Token],
    head: u32,
    input: Cursor,
    depth: u32,
) -> Result<(Stmt, Cursor), Stop>
    ensures { ParsesAs tokens.now (λ x. (stmt_events x.0, remaining tokens.now x.1)) result (node constructs.Statement (assign_with (expr_at depth) head) (remaining tokens.now input)) }
{
    let (target, input) = designator(alloc, tokens, head, input, depth)?;
    match accept(tokens, input, Kind::Assign) {
        None => Ok((Stmt::Call(target), input)),
        Some(rest) => {
            let (value, rest) = expression(alloc, tokens, rest, depth)?;
            Ok((Stmt::Assign(target, Box::into_inner(value)), rest))
        }
    }
}

/// Parses one statement or more, separated by semicolons.
#[cycle(statements)]
#[tactic(auto, using(crate::proofs::StatementSteps::made), unfolding(ob_grammar::specs::ReadStatements::block_with, ob_grammar::specs::Combinators::several))]
pub(crate) fn block(
    alloc: Global,
    tokens: &[Token],
    input: Cursor,
    depth: u32,
) -> Result<(Box<StatementSequence>, Cursor), Stop>
    ensures { ParsesAs tokens.now (λ x. (block_events x.0.value, remaining tokens.now x.1)) result (block_at depth (remaining tokens.now input)) }
{
    let (first, here) = statement(alloc, tokens, input, depth)?;
    let (rest, here) = more_statements(alloc, tokens, here, depth)?;
    let block = StatementSequence {
        first: Box::into_inner(first),
        rest,
    };
    box_value(alloc, block, here)
}

/// Parses the further statements of a sequence, each after a semicolon.
#[cycle(statements)]
fn more_statements(
    alloc: Global,
    tokens: &[Token],
    input: Cursor,
    depth: u32,
) -> Result<(Vec<Stmt>, Cursor), Stop>
    ensures { ParsesAs tokens.now (λ x. (each_after kinds.Semicolon stmt_events x.0.items, remaining tokens.now x.1)) result (many (accept_at kinds.Semicolon) (statement_at depth) (remaining tokens.now input)) }
{
    let mut rest = Vec::new(alloc);
    let mut here = input;
    'more: while let Some(after) = accept(tokens, here, Kind::Semicolon) {
        here = append_boxed(&mut rest, statement(alloc, tokens, after, depth))?;
    }
    Ok((rest, here))
}

/// Parses a branch: a condition, this keyword (THEN or DO), and statements.
#[cycle(statements)]
#[tactic(auto, using(crate::proofs::StatementSteps::made), unfolding(ob_grammar::specs::ReadStatements::branch_with))]
fn branch(
    alloc: Global,
    tokens: &[Token],
    input: Cursor,
    depth: u32,
    keyword: Kind,
) -> Result<(Box<Branch>, Cursor), Stop>
    ensures { ParsesAs tokens.now (λ x. (branch_events x.0.value keyword, remaining tokens.now x.1)) result (branch_with (expr_at depth) (block_at depth) keyword (remaining tokens.now input)) }
{
    let (condition, input) = expression(alloc, tokens, input, depth)?;
    let input = expect(tokens, input, keyword)?;
    let (body, input) = block(alloc, tokens, input, depth)?;
    let branch = Branch {
        condition: Box::into_inner(condition),
        body: Box::into_inner(body),
    };
    box_value(alloc, branch, input)
}

/// Parses any number of ELSIF branches. `keyword`, THEN or DO, is between each condition and its statements.
#[cycle(statements)]
fn elsif_branches(
    alloc: Global,
    tokens: &[Token],
    input: Cursor,
    depth: u32,
    keyword: Kind,
) -> Result<(Vec<Branch>, Cursor), Stop>
    ensures { ParsesAs tokens.now (λ x. (each_after kinds.Elsif (λ b. branch_events b keyword) x.0.items, remaining tokens.now x.1)) result
        (many (accept_at kinds.Elsif) (branch_with (expr_at depth) (block_at depth) keyword) (remaining tokens.now input)) }
{
    let mut rest = Vec::new(alloc);
    let mut here = input;
    'more: while let Some(after) = accept(tokens, here, Kind::Elsif) {
        here = append_boxed(&mut rest, branch(alloc, tokens, after, depth, keyword))?;
    }
    Ok((rest, here))
}

/// Parses this keyword and the statements after it, if the keyword is next; otherwise returns `None`.
#[cycle(statements)]
pub(crate) fn optional_block(
    alloc: Global,
    tokens: &[Token],
    input: Cursor,
    depth: u32,
    word: Kind,
) -> Result<(Option<Box<StatementSequence>>, Cursor), Stop>
    ensures { ParsesAs tokens.now (λ x. (if_present (λ b. marks.word word ++ block_events b.value) x.0, remaining tokens.now x.1)) result (optional (accept_at word) (block_at depth) (remaining tokens.now input)) }
{
    match accept(tokens, input, word) {
        None => Ok((None, input)),
        Some(rest) => wrap_in_some(block(alloc, tokens, rest, depth)),
    }
}

/// Parses an IF statement after its IF.
#[cycle(statements)]
#[tactic(auto, using(crate::proofs::StatementSteps::made), unfolding(ob_grammar::specs::ReadStatements::if_with))]
fn if_statement(
    alloc: Global,
    tokens: &[Token],
    input: Cursor,
    depth: u32,
) -> Result<(Stmt, Cursor), Stop>
    ensures { ParsesAs tokens.now (λ x. (stmt_events x.0, remaining tokens.now x.1)) result (node constructs.Statement (prefixed (word kinds.If) (if_with (expr_at depth) (block_at depth))) (remaining tokens.now input)) }
{
    let (first, input) = branch(alloc, tokens, input, depth, Kind::Then)?;
    let (rest, input) = elsif_branches(alloc, tokens, input, depth, Kind::Then)?;
    let (otherwise, input) = optional_block(alloc, tokens, input, depth, Kind::Else)?;
    let input = expect(tokens, input, Kind::End)?;
    Ok((Stmt::If(first, rest, otherwise), input))
}

/// Parses a CASE statement after its CASE.
#[cycle(statements)]
#[tactic(auto, using(crate::proofs::StatementSteps::made), unfolding(ob_grammar::specs::ReadStatements::cases_with))]
fn case_statement(
    alloc: Global,
    tokens: &[Token],
    input: Cursor,
    depth: u32,
) -> Result<(Stmt, Cursor), Stop>
    ensures { ParsesAs tokens.now (λ x. (stmt_events x.0, remaining tokens.now x.1)) result (node constructs.Statement (prefixed (word kinds.Case) (cases_with (expr_at depth) (block_at depth))) (remaining tokens.now input)) }
{
    let (value, input) = expression(alloc, tokens, input, depth)?;
    let input = expect(tokens, input, Kind::Of)?;
    let ((first, rest), input) = cases(alloc, tokens, input, depth)?;
    Ok((Stmt::Case(Box::into_inner(value), first, rest), input))
}

/// Parses the cases of a CASE statement, and its END.
#[cycle(statements)]
fn cases(
    alloc: Global,
    tokens: &[Token],
    input: Cursor,
    depth: u32,
) -> Result<((Box<Case>, Vec<Case>), Cursor), Stop>
    ensures { ParsesAs tokens.now (λ x. (case_events x.0.0.value ++ (each_after kinds.Bar case_events x.0.1.items ++ word kinds.End), remaining tokens.now x.1)) result
        (seq (case_with (block_at depth)) (seq (many (accept_at kinds.Bar) (case_with (block_at depth))) (expect_at kinds.End)) (remaining tokens.now input)) }
{
    let (first, input) = case(alloc, tokens, input, depth)?;
    let (rest, input) = more_cases(alloc, tokens, input, depth)?;
    let input = expect(tokens, input, Kind::End)?;
    Ok(((first, rest), input))
}

/// Parses one case, which may be empty.
#[cycle(statements)]
#[tactic(auto, using(crate::proofs::StatementSteps::made), unfolding(ob_grammar::specs::ReadStatements::case_with, ob_grammar::specs::Combinators::begins))]
fn case(
    alloc: Global,
    tokens: &[Token],
    input: Cursor,
    depth: u32,
) -> Result<(Box<Case>, Cursor), Stop>
    ensures { ParsesAs tokens.now (λ x. (case_events x.0.value, remaining tokens.now x.1)) result (case_with (block_at depth) (remaining tokens.now input)) }
{
    if !begins_label(tokens, input) {
        return box_value(alloc, Case::Nothing, input);
    }
    let (labels, input) = label_ranges(alloc, tokens, input)?;
    let input = expect(tokens, input, Kind::Colon)?;
    let (body, input) = block(alloc, tokens, input, depth)?;
    box_value(alloc, Case::Labelled(labels, body), input)
}

/// Parses the further cases of a CASE statement, each after a bar.
#[cycle(statements)]
fn more_cases(
    alloc: Global,
    tokens: &[Token],
    input: Cursor,
    depth: u32,
) -> Result<(Vec<Case>, Cursor), Stop>
    ensures { ParsesAs tokens.now (λ x. (each_after kinds.Bar case_events x.0.items, remaining tokens.now x.1)) result (many (accept_at kinds.Bar) (case_with (block_at depth)) (remaining tokens.now input)) }
{
    let mut rest = Vec::new(alloc);
    let mut here = input;
    'more: while let Some(after) = accept(tokens, here, Kind::Bar) {
        here = append_boxed(&mut rest, case(alloc, tokens, after, depth))?;
    }
    Ok((rest, here))
}

/// Parses a WHILE statement after its WHILE.
#[cycle(statements)]
#[tactic(auto, using(crate::proofs::StatementSteps::made), unfolding(ob_grammar::specs::ReadStatements::while_with))]
fn while_statement(
    alloc: Global,
    tokens: &[Token],
    input: Cursor,
    depth: u32,
) -> Result<(Stmt, Cursor), Stop>
    ensures { ParsesAs tokens.now (λ x. (stmt_events x.0, remaining tokens.now x.1)) result (node constructs.Statement (prefixed (word kinds.While) (while_with (expr_at depth) (block_at depth))) (remaining tokens.now input)) }
{
    let (first, input) = branch(alloc, tokens, input, depth, Kind::Do)?;
    let (rest, input) = elsif_branches(alloc, tokens, input, depth, Kind::Do)?;
    let input = expect(tokens, input, Kind::End)?;
    Ok((Stmt::While(first, rest), input))
}

/// Parses a REPEAT statement after its REPEAT.
#[cycle(statements)]
#[tactic(auto, using(crate::proofs::StatementSteps::made), unfolding(ob_grammar::specs::ReadStatements::repeat_with))]
fn repeat_statement(
    alloc: Global,
    tokens: &[Token],
    input: Cursor,
    depth: u32,
) -> Result<(Stmt, Cursor), Stop>
    ensures { ParsesAs tokens.now (λ x. (stmt_events x.0, remaining tokens.now x.1)) result (node constructs.Statement (prefixed (word kinds.Repeat) (repeat_with (expr_at depth) (block_at depth))) (remaining tokens.now input)) }
{
    let (body, input) = block(alloc, tokens, input, depth)?;
    let input = expect(tokens, input, Kind::Until)?;
    let (condition, input) = expression(alloc, tokens, input, depth)?;
    Ok((Stmt::Repeat(body, Box::into_inner(condition)), input))
}

/// Parses a FOR statement after its FOR.
#[cycle(statements)]
#[tactic(auto, using(crate::proofs::StatementSteps::made), unfolding(ob_grammar::specs::ReadStatements::for_with, ob_grammar::specs::Combinators::name_at))]
fn for_statement(
    alloc: Global,
    tokens: &[Token],
    input: Cursor,
    depth: u32,
) -> Result<(Stmt, Cursor), Stop>
    ensures { ParsesAs tokens.now (λ x. (stmt_events x.0, remaining tokens.now x.1)) result (node constructs.Statement (prefixed (word kinds.For) (for_with (expr_at depth) (block_at depth))) (remaining tokens.now input)) }
{
    let (variable, input) = identifier(tokens, input)?;
    let input = expect(tokens, input, Kind::Assign)?;
    let (from, input) = expression(alloc, tokens, input, depth)?;
    let ((to, by, body), input) = for_limit_and_body(alloc, tokens, input, depth)?;
    let statement = For {
        variable,
        from: Box::into_inner(from),
        to: Box::into_inner(to),
        by: unbox_step(by),
        body: Box::into_inner(body),
    };
    let (statement, input) = box_value(alloc, statement, input)?;
    Ok((Stmt::For(statement), input))
}

/// Parses a FOR statement from its TO on: the limit, the step if there is one, and the body.
#[cycle(statements)]
fn for_limit_and_body(
    alloc: Global,
    tokens: &[Token],
    input: Cursor,
    depth: u32,
) -> Result<
    (
        (Box<Expr>, Option<Box<Expr>>, Box<StatementSequence>),
        Cursor,
    ),
    Stop,
>
    ensures { ParsesAs tokens.now (λ x. (
      word kinds.To ++ (expr_events x.0.0.value ++ (if_present (λ e. word kinds.By ++ expr_events e.value) x.0.1
          ++ (word kinds.Do ++ (block_events x.0.2.value ++ word kinds.End)))),
      remaining tokens.now x.1,
    )) result
        (seq (expect_at kinds.To) (seq (expr_at depth) (seq (optional (accept_at kinds.By) (expr_at depth))
        (seq (expect_at kinds.Do) (seq (block_at depth) (expect_at kinds.End))))) (remaining tokens.now input)) }
{
    let input = expect(tokens, input, Kind::To)?;
    let (to, input) = expression(alloc, tokens, input, depth)?;
    let (by, input) = optional_expression(alloc, tokens, input, depth, Kind::By)?;
    let (body, input) = for_body(alloc, tokens, input, depth)?;
    Ok(((to, by, body), input))
}

/// Parses the body of a FOR statement, from DO to END.
#[cycle(statements)]
fn for_body(
    alloc: Global,
    tokens: &[Token],
    input: Cursor,
    depth: u32,
) -> Result<(Box<StatementSequence>, Cursor), Stop>
    ensures { ParsesAs tokens.now (λ x. (word kinds.Do ++ (block_events x.0.value ++ word kinds.End), remaining tokens.now x.1)) result (seq (expect_at kinds.Do) (seq (block_at depth) (expect_at kinds.End)) (remaining tokens.now input)) }
{
    let input = expect(tokens, input, Kind::Do)?;
    let (body, input) = block(alloc, tokens, input, depth)?;
    let input = expect(tokens, input, Kind::End)?;
    Ok((body, input))
}

/// Moves the step of a FOR statement out of its box, if it has one.
fn unbox_step(step: Option<Box<Expr>>) -> Option<Expr>
    ensures { if_present (λ e. word kinds.By ++ expr_events e) result ≡ if_present (λ e. word kinds.By ++ expr_events e.value) step }
{
    match step {
        Some(step) => Some(Box::into_inner(step)),
        None => None,
    }
}
