//! Sources with the value of their first statement. Identifiers and literals are shown by the numbers of their tokens.
use crate::asked::Asked::Value;
use crate::asked::{Row, check_rows};
use crate::readings::parsed;
use ob_scan::scan;
use ob_tree::declaration::Module;
use ob_tree::expression::{Expr, Factor, SimpleExpression, Term};
use ob_tree::statement::Stmt;
use std::alloc::{AllocError, Global};
use std::test::Fail;

const ROWS: &[Row] = &[
    (Value(b"MODULE M; END M."), "none"),
    (
        Value(b"MODULE M; BEGIN x := a - b * c END M."),
        "(6) Minus (8 Times 10)",
    ),
    (
        Value(b"MODULE M; BEGIN x := a DIV b & c + d OR e END M."),
        "(6 Div 8 And 10) Plus (12) Or (14)",
    ),
    (
        Value(b"MODULE M; BEGIN x := 1.5E3 * \"ab\" * 22X * 0FFH END M."),
        "(Real 6 Times Text 8 Times Text 10 Times Integer 12)",
    ),
];

/// Appends a name or a literal, as `6` or `Real 6`.
fn append_factor(description: &mut String, factor: &Factor) -> Result<(), AllocError> {
    match factor {
        Factor::Name(designator) => write!(description, "{}", designator.head),
        Factor::Value(literal, number) => write!(description, "{literal:?} {number}"),
        _ => description.push_str("another"),
    }
}

/// Appends the factors with their operators.
fn append_term(description: &mut String, term: &Term) -> Result<(), AllocError> {
    append_factor(description, &term.first)?;
    for (operator, factor) in &term.rest {
        write!(description, " {operator:?} ")?;
        append_factor(description, factor)?;
    }
    Ok(())
}

/// Appends the terms with their operators, each in parentheses.
fn append_sum(description: &mut String, sum: &SimpleExpression) -> Result<(), AllocError> {
    description.push_str("(")?;
    append_term(description, &sum.first)?;
    for (operator, term) in &sum.rest {
        write!(description, ") {operator:?} (")?;
        append_term(description, term)?;
    }
    description.push_str(")")
}

/// The value of the first statement's assignment.
fn value_of(module: &Module) -> Option<&Expr> {
    match &module.body.as_ref()?.first {
        Stmt::Assign(_, value) => Some(value),
        _ => None,
    }
}

fn describe_syntax(alloc: Global, tree: &Module) -> Result<String, AllocError> {
    let mut description = String::new(alloc);
    match value_of(tree) {
        Some(value) => append_sum(&mut description, &value.left)?,
        None => description.push_str("none")?,
    }
    Ok(description)
}

pub(crate) fn describe_value(alloc: Global, text: &[u8]) -> Result<String, Fail> {
    let tokens = scan(alloc, text)?;
    let tree = parsed(alloc, text, &tokens)?;
    Ok(describe_syntax(alloc, &tree)?)
}

#[test]
fn operators_bind_their_operands(rt: HostRuntime) -> Result<(), Fail> {
    check_rows(&rt, ROWS)
}
