//! Statements (Oberon-07 report, section 9). An identifier or literal is represented by its token number, from 0.

use crate::expression::{Designator, Expr};
use crate::name::{OneOrMore, Qualident};

/// A statement sequence: one or more statements, separated by semicolons.
#[derive(Drop)]
#[cycle(statements)]
pub struct StatementSequence {
    pub first: Stmt,
    pub rest: Vec<Stmt>,
}

/// A statement, which may be empty.
#[derive(Drop)]
#[cycle(statements)]
pub enum Stmt {
    /// The empty statement, which has no token.
    Empty,
    /// An assignment: its left side and its right side.
    Assign(Designator, Expr),
    /// A procedure call, which is a designator without `:=`.
    Call(Designator),
    /// IF: its first branch, the branches after ELSIF, and the statements after ELSE.
    If(Box<Branch>, Vec<Branch>, Option<Box<StatementSequence>>),
    /// CASE: the selecting expression, and one or more cases.
    Case(Expr, Box<Case>, Vec<Case>),
    /// WHILE: its first branch, and the branches after ELSIF.
    While(Box<Branch>, Vec<Branch>),
    /// REPEAT: its statements, and the condition after UNTIL.
    Repeat(Box<StatementSequence>, Expr),
    /// FOR.
    For(Box<For>),
}

/// A condition, and the statements that it guards.
#[derive(Drop)]
#[cycle(statements)]
pub struct Branch {
    pub condition: Expr,
    pub body: StatementSequence,
}

/// One case of a CASE statement, which may be empty.
#[derive(Drop)]
#[cycle(statements)]
pub enum Case {
    /// The empty case, which has no token.
    Nothing,
    /// Labels, and the statements after the colon.
    Labelled(OneOrMore<LabelRange>, Box<StatementSequence>),
}

/// A FOR statement.
#[derive(Drop)]
#[cycle(statements)]
pub struct For {
    /// The control variable, by its token number.
    pub variable: u32,
    pub from: Expr,
    pub to: Expr,
    pub by: Option<Expr>,
    pub body: StatementSequence,
}

/// One label, or the two bounds of a range.
#[derive(Clone, Copy, Drop)]
pub struct LabelRange {
    pub low: Label,
    pub high: Option<Label>,
}

/// A label. Integers and strings are represented by their token numbers.
#[derive(Clone, Copy, Drop)]
pub enum Label {
    Integer(u32),
    Text(u32),
    Name(Qualident),
}
