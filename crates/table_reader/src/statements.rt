//! Statements (Oberon-07 report, section 9). Each function parses the production or part that its name states, and appends the table
//! entries of what it parses. `depth` is the number of nested levels that are left for it.
//! Clauses: the builder has counted exactly the tokens before the cursor, before a call (`requires`) and, with `Ok`, after it (`number`).
//! `effect`: the function returns what the grammar's reader, the last argument, returns for these tokens, unless it returns the error
//! `Memory`. With `Ok`, unless an allocation failed, it has appended exactly the entries (`.._rows`, `.._stage`) of the parsed tree.

ghost use Rattle.std.specs.Prelude.{◌≡◌, ◌+◌, IfOk};
ghost use Rattle.ob_scan.specs.declared.kind.Kind.TheVariants as kinds;
ghost use Rattle.ob_tree.specs.Constructs as constructs;
ghost use Rattle.ob_tree.specs.TreeEvents as marks;
ghost use Rattle.ob_tree.specs.Statements.{block_events, branch_events, case_events, stmt_events};
ghost use Rattle.table_rules.specs.Statements.{block_rows, branch_rows, case_rows, stmt_rows};
ghost use Rattle.ob_grammar.specs.Combinators.{accept_at, expect_at, many, node, optional, prefixed, seq};
ghost use Rattle.ob_grammar.specs.ParsesAs.{remaining};
ghost use Rattle.ob_grammar.specs.ReadExpressions.{expr_at};
ghost use Rattle.ob_grammar.specs.ReadStatements.{assign_with, block_at, branch_with, case_with, cases_with, for_with, if_with, repeat_with, statement_at, statement_with, while_with};
ghost use Rattle.table_reader.specs.StatementShapes.{statements_events, statements_rows, branches_events, branches_rows, cases_events, cases_rows, body_events, body_rows, value_events, value_rows, assigned_stage, cases_end_events, cases_end_rows, for_body_events, for_body_rows, for_limit_events, for_limit_rows};
ghost use Rattle.table_reader.specs.Tabulating.{AppendsEntries, AppendsEntriesBy};

use crate::expressions::{designator, expression};
use crate::labels::label_ranges;
use crate::slots::{designator_count, set_designator};
use crate::source::ParserInput;
use crate::words::expect_word;
use module_table::Designator as DesignatorRow;
use module_table::builder::{Context, TableBuilder};
use ob_grammar::cursor::Cursor;
use ob_grammar::labels::begins_label;
use ob_grammar::statements::begins_statement;
use ob_grammar::stop::Stop;
use ob_grammar::tokens::{accept, identifier};
use ob_scan::Kind;
use ob_tree::token::Leaf;
use table_rules::walk::uses::append_for_variable;

/// Parses a statement, which takes one of the `depth` nesting levels that are left. If none is left, only an empty statement is accepted.
#[cycle(statements)]
fn statement(
    builder: &mut TableBuilder,
    context: Context,
    source: &ParserInput,
    input: Cursor,
    depth: u32,
) -> Result<Cursor, Stop>
    requires { builder.old.number ≡ input.at }
    ensures effect { AppendsEntries source.now.tokens.now stmt_events stmt_rows context builder.old builder.new result (statement_at depth (remaining source.now.tokens.now input)) }
    ensures number { IfOk result (λ rest. builder.new.number ≡ rest.at) }
{
    if depth == 0 {
        if begins_statement(source.tokens, input) {
            return Err(Stop::TooDeep(input));
        }
        return Ok(input);
    }
    statement_after_depth_check(builder, context, source, input, depth - 1)
}

/// Parses a statement. `depth` is the number of nesting levels left for its parts: the statement's own level is already subtracted.
#[cycle(statements)]
fn statement_after_depth_check(
    builder: &mut TableBuilder,
    context: Context,
    source: &ParserInput,
    input: Cursor,
    depth: u32,
) -> Result<Cursor, Stop>
    requires { builder.old.number ≡ input.at }
    ensures effect { AppendsEntries source.now.tokens.now stmt_events stmt_rows context builder.old builder.new result (statement_with (expr_at depth) (block_at depth) (remaining source.now.tokens.now input)) }
    ensures number { IfOk result (λ rest. builder.new.number ≡ rest.at) }
{
    match input.next(source.tokens) {
        Some((Leaf::Name(number), rest)) => assignment(
            builder, context, source, number, rest, depth,
        ),
        Some((Leaf::Word(Kind::If), rest)) => if_statement(builder, context, source, rest, depth),
        Some((Leaf::Word(Kind::Case), rest)) => case_statement(
            builder, context, source, rest, depth,
        ),
        Some((Leaf::Word(Kind::While), rest)) => while_statement(
            builder, context, source, rest, depth,
        ),
        Some((Leaf::Word(Kind::Repeat), rest)) => repeat_statement(
            builder, context, source, rest, depth,
        ),
        Some((Leaf::Word(Kind::For), rest)) => for_statement(builder, context, source, rest, depth),
        _ => Ok(input),
    }
}

/// Parses an assignment or a call after its first identifier, which has the index `head`.
fn assignment(
    builder: &mut TableBuilder,
    context: Context,
    source: &ParserInput,
    head: u32,
    input: Cursor,
    depth: u32,
) -> Result<Cursor, Stop>
    // The builder hasn't counted the first identifier yet.
    requires { builder.old.number + 1 ≡ input.at }
    ensures effect { AppendsEntries source.now.tokens.now stmt_events stmt_rows context builder.old builder.new result (node constructs.Statement (assign_with (expr_at depth) head) (remaining source.now.tokens.now input)) }
    ensures number { IfOk result (λ rest. builder.new.number ≡ rest.at) }
{
    let first = builder.number;
    let at = designator_count(builder);
    match designator(builder, context, source, head, input, depth) {
        Ok(here) => assigned_value(builder, context, source, here, depth, first, at),
        Err(stop) => Err(stop),
    }
}

/// Parses `:=` and the right side of an assignment, if `:=` is next. Then sets the designator's entry, at index `at`, to say that it is
/// assigned to. `head` is the index of the designator's first token.
fn assigned_value(
    builder: &mut TableBuilder,
    context: Context,
    source: &ParserInput,
    input: Cursor,
    depth: u32,
    head: u32,
    at: usize,
) -> Result<Cursor, Stop>
    requires { builder.old.number ≡ input.at }
    ensures effect { AppendsEntriesBy source.now.tokens.now (value_events kinds.Assign) (assigned_stage head at context) builder.old builder.new result (optional (accept_at kinds.Assign) (expr_at depth) (remaining source.now.tokens.now input)) }
    ensures number { IfOk result (λ rest. builder.new.number ≡ rest.at) }
{
    match accept(source.tokens, input, Kind::Assign) {
        None => Ok(input),
        Some(rest) => {
            set_designator(
                builder,
                at,
                DesignatorRow {
                    head,
                    block: context.block,
                    is_written: true,
                },
            );
            builder.advance();
            expression(builder, context, source, rest, depth)
        }
    }
}

/// Parses one statement or more, separated by semicolons.
#[cycle(statements)]
pub(crate) fn block(
    builder: &mut TableBuilder,
    context: Context,
    source: &ParserInput,
    input: Cursor,
    depth: u32,
) -> Result<Cursor, Stop>
    requires { builder.old.number ≡ input.at }
    ensures effect { AppendsEntries source.now.tokens.now block_events block_rows context builder.old builder.new result (block_at depth (remaining source.now.tokens.now input)) }
    ensures number { IfOk result (λ rest. builder.new.number ≡ rest.at) }
{
    match statement(builder, context, source, input, depth) {
        Ok(here) => more_statements(builder, context, source, here, depth),
        Err(stop) => Err(stop),
    }
}

/// Parses the further statements of a sequence, each after a semicolon.
#[cycle(statements)]
fn more_statements(
    builder: &mut TableBuilder,
    context: Context,
    source: &ParserInput,
    input: Cursor,
    depth: u32,
) -> Result<Cursor, Stop>
    requires { builder.old.number ≡ input.at }
    ensures effect { AppendsEntries source.now.tokens.now statements_events statements_rows context builder.old builder.new result (many (accept_at kinds.Semicolon) (statement_at depth) (remaining source.now.tokens.now input)) }
    ensures number { IfOk result (λ rest. builder.new.number ≡ rest.at) }
{
    let mut here = input;
    'more: while let Some(following) = accept(source.tokens, here, Kind::Semicolon) {
        builder.advance();
        match statement(builder, context, source, following, depth) {
            Ok(next) => here = next,
            Err(stop) => return Err(stop),
        }
    }
    Ok(here)
}

/// Parses a branch: a condition, this keyword (THEN or DO), and statements.
#[cycle(statements)]
fn branch(
    builder: &mut TableBuilder,
    context: Context,
    source: &ParserInput,
    input: Cursor,
    depth: u32,
    keyword: Kind,
) -> Result<Cursor, Stop>
    requires { builder.old.number ≡ input.at }
    ensures effect { AppendsEntries source.now.tokens.now (λ b. branch_events b keyword) branch_rows context builder.old builder.new result (branch_with (expr_at depth) (block_at depth) keyword (remaining source.now.tokens.now input)) }
    ensures number { IfOk result (λ rest. builder.new.number ≡ rest.at) }
{
    match expression(builder, context, source, input, depth) {
        Ok(here) => match expect_word(builder, source.tokens, here, keyword) {
            Ok(here) => block(builder, context, source, here, depth),
            Err(stop) => Err(stop),
        },
        Err(stop) => Err(stop),
    }
}

/// Parses any number of ELSIF branches. `keyword`, THEN or DO, is between each condition and its statements.
#[cycle(statements)]
fn elsif_branches(
    builder: &mut TableBuilder,
    context: Context,
    source: &ParserInput,
    input: Cursor,
    depth: u32,
    keyword: Kind,
) -> Result<Cursor, Stop>
    requires { builder.old.number ≡ input.at }
    ensures effect { AppendsEntries source.now.tokens.now (branches_events keyword) branches_rows context builder.old builder.new result
        (many (accept_at kinds.Elsif) (branch_with (expr_at depth) (block_at depth) keyword) (remaining source.now.tokens.now input)) }
    ensures number { IfOk result (λ rest. builder.new.number ≡ rest.at) }
{
    let mut here = input;
    'more: while let Some(following) = accept(source.tokens, here, Kind::Elsif) {
        builder.advance();
        match branch(builder, context, source, following, depth, keyword) {
            Ok(next) => here = next,
            Err(stop) => return Err(stop),
        }
    }
    Ok(here)
}

/// Parses this keyword and the statements after it, if the keyword is next.
#[cycle(statements)]
fn optional_block(
    builder: &mut TableBuilder,
    context: Context,
    source: &ParserInput,
    input: Cursor,
    depth: u32,
    word: Kind,
) -> Result<Cursor, Stop>
    requires { builder.old.number ≡ input.at }
    ensures effect { AppendsEntries source.now.tokens.now (body_events word) body_rows context builder.old builder.new result (optional (accept_at word) (block_at depth) (remaining source.now.tokens.now input)) }
    ensures number { IfOk result (λ rest. builder.new.number ≡ rest.at) }
{
    match accept(source.tokens, input, word) {
        None => Ok(input),
        Some(rest) => {
            builder.advance();
            block(builder, context, source, rest, depth)
        }
    }
}

/// Parses an IF statement after its IF.
#[cycle(statements)]
fn if_statement(
    builder: &mut TableBuilder,
    context: Context,
    source: &ParserInput,
    input: Cursor,
    depth: u32,
) -> Result<Cursor, Stop>
    // The builder hasn't counted IF yet.
    requires { builder.old.number + 1 ≡ input.at }
    ensures effect { AppendsEntries source.now.tokens.now stmt_events stmt_rows context builder.old builder.new result
        (node constructs.Statement (prefixed (marks.word kinds.If) (if_with (expr_at depth) (block_at depth))) (remaining source.now.tokens.now input)) }
    ensures number { IfOk result (λ rest. builder.new.number ≡ rest.at) }
{
    builder.advance();
    match branch(builder, context, source, input, depth, Kind::Then) {
        Ok(here) => match elsif_branches(builder, context, source, here, depth, Kind::Then) {
            Ok(here) => match optional_block(builder, context, source, here, depth, Kind::Else) {
                Ok(here) => expect_word(builder, source.tokens, here, Kind::End),
                Err(stop) => Err(stop),
            },
            Err(stop) => Err(stop),
        },
        Err(stop) => Err(stop),
    }
}

/// Parses a CASE statement after its CASE.
#[cycle(statements)]
fn case_statement(
    builder: &mut TableBuilder,
    context: Context,
    source: &ParserInput,
    input: Cursor,
    depth: u32,
) -> Result<Cursor, Stop>
    // The builder hasn't counted CASE yet.
    requires { builder.old.number + 1 ≡ input.at }
    ensures effect { AppendsEntries source.now.tokens.now stmt_events stmt_rows context builder.old builder.new result
        (node constructs.Statement (prefixed (marks.word kinds.Case) (cases_with (expr_at depth) (block_at depth))) (remaining source.now.tokens.now input)) }
    ensures number { IfOk result (λ rest. builder.new.number ≡ rest.at) }
{
    builder.advance();
    match expression(builder, context, source, input, depth) {
        Ok(here) => match expect_word(builder, source.tokens, here, Kind::Of) {
            Ok(here) => cases(builder, context, source, here, depth),
            Err(stop) => Err(stop),
        },
        Err(stop) => Err(stop),
    }
}

/// Parses the cases of a CASE statement, and its END.
#[cycle(statements)]
fn cases(
    builder: &mut TableBuilder,
    context: Context,
    source: &ParserInput,
    input: Cursor,
    depth: u32,
) -> Result<Cursor, Stop>
    requires { builder.old.number ≡ input.at }
    ensures effect { AppendsEntries source.now.tokens.now cases_end_events cases_end_rows context builder.old builder.new result
        (seq (case_with (block_at depth)) (seq (many (accept_at kinds.Bar) (case_with (block_at depth))) (expect_at kinds.End)) (remaining source.now.tokens.now input)) }
    ensures number { IfOk result (λ rest. builder.new.number ≡ rest.at) }
{
    match case(builder, context, source, input, depth) {
        Ok(here) => match more_cases(builder, context, source, here, depth) {
            Ok(here) => expect_word(builder, source.tokens, here, Kind::End),
            Err(stop) => Err(stop),
        },
        Err(stop) => Err(stop),
    }
}

/// Parses one case, which may be empty.
#[cycle(statements)]
fn case(
    builder: &mut TableBuilder,
    context: Context,
    source: &ParserInput,
    input: Cursor,
    depth: u32,
) -> Result<Cursor, Stop>
    requires { builder.old.number ≡ input.at }
    ensures effect { AppendsEntries source.now.tokens.now case_events case_rows context builder.old builder.new result (case_with (block_at depth) (remaining source.now.tokens.now input)) }
    ensures number { IfOk result (λ rest. builder.new.number ≡ rest.at) }
{
    if !begins_label(source.tokens, input) {
        return Ok(input);
    }
    match label_ranges(builder, context, source.tokens, input) {
        Ok(here) => match expect_word(builder, source.tokens, here, Kind::Colon) {
            Ok(here) => block(builder, context, source, here, depth),
            Err(stop) => Err(stop),
        },
        Err(stop) => Err(stop),
    }
}

/// Parses the further cases of a CASE statement, each after a bar.
#[cycle(statements)]
fn more_cases(
    builder: &mut TableBuilder,
    context: Context,
    source: &ParserInput,
    input: Cursor,
    depth: u32,
) -> Result<Cursor, Stop>
    requires { builder.old.number ≡ input.at }
    ensures effect { AppendsEntries source.now.tokens.now cases_events cases_rows context builder.old builder.new result (many (accept_at kinds.Bar) (case_with (block_at depth)) (remaining source.now.tokens.now input)) }
    ensures number { IfOk result (λ rest. builder.new.number ≡ rest.at) }
{
    let mut here = input;
    'more: while let Some(following) = accept(source.tokens, here, Kind::Bar) {
        builder.advance();
        match case(builder, context, source, following, depth) {
            Ok(next) => here = next,
            Err(stop) => return Err(stop),
        }
    }
    Ok(here)
}

/// Parses a WHILE statement after its WHILE.
#[cycle(statements)]
fn while_statement(
    builder: &mut TableBuilder,
    context: Context,
    source: &ParserInput,
    input: Cursor,
    depth: u32,
) -> Result<Cursor, Stop>
    // The builder hasn't counted WHILE yet.
    requires { builder.old.number + 1 ≡ input.at }
    ensures effect { AppendsEntries source.now.tokens.now stmt_events stmt_rows context builder.old builder.new result
        (node constructs.Statement (prefixed (marks.word kinds.While) (while_with (expr_at depth) (block_at depth))) (remaining source.now.tokens.now input)) }
    ensures number { IfOk result (λ rest. builder.new.number ≡ rest.at) }
{
    builder.advance();
    match branch(builder, context, source, input, depth, Kind::Do) {
        Ok(here) => match elsif_branches(builder, context, source, here, depth, Kind::Do) {
            Ok(here) => expect_word(builder, source.tokens, here, Kind::End),
            Err(stop) => Err(stop),
        },
        Err(stop) => Err(stop),
    }
}

/// Parses a REPEAT statement after its REPEAT.
#[cycle(statements)]
fn repeat_statement(
    builder: &mut TableBuilder,
    context: Context,
    source: &ParserInput,
    input: Cursor,
    depth: u32,
) -> Result<Cursor, Stop>
    // The builder hasn't counted REPEAT yet.
    requires { builder.old.number + 1 ≡ input.at }
    ensures effect { AppendsEntries source.now.tokens.now stmt_events stmt_rows context builder.old builder.new result
        (node constructs.Statement (prefixed (marks.word kinds.Repeat) (repeat_with (expr_at depth) (block_at depth))) (remaining source.now.tokens.now input)) }
    ensures number { IfOk result (λ rest. builder.new.number ≡ rest.at) }
{
    builder.advance();
    match block(builder, context, source, input, depth) {
        Ok(here) => match expect_word(builder, source.tokens, here, Kind::Until) {
            Ok(here) => expression(builder, context, source, here, depth),
            Err(stop) => Err(stop),
        },
        Err(stop) => Err(stop),
    }
}

/// Parses a FOR statement after its FOR.
#[cycle(statements)]
fn for_statement(
    builder: &mut TableBuilder,
    context: Context,
    source: &ParserInput,
    input: Cursor,
    depth: u32,
) -> Result<Cursor, Stop>
    // The builder hasn't counted FOR yet.
    requires { builder.old.number + 1 ≡ input.at }
    ensures effect { AppendsEntries source.now.tokens.now stmt_events stmt_rows context builder.old builder.new result
        (node constructs.Statement (prefixed (marks.word kinds.For) (for_with (expr_at depth) (block_at depth))) (remaining source.now.tokens.now input)) }
    ensures number { IfOk result (λ rest. builder.new.number ≡ rest.at) }
{
    builder.advance();
    match identifier(source.tokens, input) {
        Ok((_, here)) => {
            append_for_variable(builder, context);
            match expect_word(builder, source.tokens, here, Kind::Assign) {
                Ok(here) => match expression(builder, context, source, here, depth) {
                    Ok(here) => for_limit_and_body(builder, context, source, here, depth),
                    Err(stop) => Err(stop),
                },
                Err(stop) => Err(stop),
            }
        }
        Err(stop) => Err(stop),
    }
}

/// Parses a FOR statement from its TO on: the limit, the step if there is one, and the body.
#[cycle(statements)]
fn for_limit_and_body(
    builder: &mut TableBuilder,
    context: Context,
    source: &ParserInput,
    input: Cursor,
    depth: u32,
) -> Result<Cursor, Stop>
    requires { builder.old.number ≡ input.at }
    ensures effect { AppendsEntries source.now.tokens.now for_limit_events for_limit_rows context builder.old builder.new result
        (seq (expect_at kinds.To) (seq (expr_at depth) (seq (optional (accept_at kinds.By) (expr_at depth))
        (seq (expect_at kinds.Do) (seq (block_at depth) (expect_at kinds.End))))) (remaining source.now.tokens.now input)) }
    ensures number { IfOk result (λ rest. builder.new.number ≡ rest.at) }
{
    match expect_word(builder, source.tokens, input, Kind::To) {
        Ok(here) => match expression(builder, context, source, here, depth) {
            Ok(here) => match for_step(builder, context, source, here, depth) {
                Ok(here) => for_body(builder, context, source, here, depth),
                Err(stop) => Err(stop),
            },
            Err(stop) => Err(stop),
        },
        Err(stop) => Err(stop),
    }
}

/// Parses BY and the step of a FOR statement, if BY is next.
fn for_step(
    builder: &mut TableBuilder,
    context: Context,
    source: &ParserInput,
    input: Cursor,
    depth: u32,
) -> Result<Cursor, Stop>
    requires { builder.old.number ≡ input.at }
    ensures effect { AppendsEntries source.now.tokens.now (value_events kinds.By) value_rows context builder.old builder.new result (optional (accept_at kinds.By) (expr_at depth) (remaining source.now.tokens.now input)) }
    ensures number { IfOk result (λ rest. builder.new.number ≡ rest.at) }
{
    match accept(source.tokens, input, Kind::By) {
        None => Ok(input),
        Some(rest) => {
            builder.advance();
            expression(builder, context, source, rest, depth)
        }
    }
}

/// Parses the body of a FOR statement, from DO to END.
#[cycle(statements)]
fn for_body(
    builder: &mut TableBuilder,
    context: Context,
    source: &ParserInput,
    input: Cursor,
    depth: u32,
) -> Result<Cursor, Stop>
    requires { builder.old.number ≡ input.at }
    ensures effect { AppendsEntries source.now.tokens.now for_body_events for_body_rows context builder.old builder.new result (seq (expect_at kinds.Do) (seq (block_at depth) (expect_at kinds.End)) (remaining source.now.tokens.now input)) }
    ensures number { IfOk result (λ rest. builder.new.number ≡ rest.at) }
{
    match expect_word(builder, source.tokens, input, Kind::Do) {
        Ok(here) => match block(builder, context, source, here, depth) {
            Ok(here) => expect_word(builder, source.tokens, here, Kind::End),
            Err(stop) => Err(stop),
        },
        Err(stop) => Err(stop),
    }
}
