//! Expressions and designators (Oberon-07 report, section 8). An identifier or literal is represented by its token number, from 0.

/// A relation between two simple expressions.
#[derive(Clone, Copy)]
pub enum Relation {
    Equal,
    Unequal,
    Less,
    LessEqual,
    Greater,
    GreaterEqual,
    In,
    Is,
}

/// The sign before the first term of a simple expression.
#[derive(Clone, Copy)]
pub enum Sign {
    Plus,
    Minus,
}

/// An operator between two terms.
#[derive(Clone, Copy, Debug)]
pub enum AddOperator {
    Plus,
    Minus,
    Or,
}

/// An operator between two factors.
#[derive(Clone, Copy, Debug)]
pub enum MulOperator {
    Times,
    Divide,
    Div,
    Mod,
    And,
}

/// The kind of a literal.
#[derive(Clone, Copy, Debug)]
pub enum Literal {
    Integer,
    Real,
    Text,
}

/// An expression: a simple expression, or two with a relation between them.
#[derive(Drop)]
#[cycle(expressions)]
pub struct Expr {
    pub left: SimpleExpression,
    pub compared: Option<(Relation, Box<SimpleExpression>)>,
}

/// A simple expression: an optional sign, and terms with operators between them.
#[derive(Drop)]
#[cycle(expressions)]
pub struct SimpleExpression {
    pub sign: Option<Sign>,
    pub first: Term,
    pub rest: Vec<(AddOperator, Term)>,
}

/// A term: factors with operators between them.
#[derive(Drop)]
#[cycle(expressions)]
pub struct Term {
    pub first: Factor,
    pub rest: Vec<(MulOperator, Factor)>,
}

/// A factor, the operand of an operator.
#[derive(Drop)]
#[cycle(expressions)]
pub enum Factor {
    /// A literal, by its token number.
    Value(Literal, u32),
    /// `NIL`
    Nil,
    /// `TRUE`
    True,
    /// `FALSE`
    False,
    /// A set constructor; `None` denotes the empty set.
    Set(Option<Box<ElementList>>),
    /// A designator.
    Name(Designator),
    /// An expression in parentheses.
    Group(Box<Expr>),
    /// `~` and a factor.
    Not(Box<Factor>),
}

/// The elements of a set constructor that isn't empty.
#[derive(Drop)]
#[cycle(expressions)]
pub struct ElementList {
    pub first: Element,
    pub rest: Vec<Element>,
}

/// An element of a set constructor: one expression, or the two bounds of a range.
#[derive(Drop)]
#[cycle(expressions)]
pub struct Element {
    pub low: Expr,
    pub high: Option<Expr>,
}

/// A designator: the token number of its first identifier, and its selectors.
#[derive(Drop)]
#[cycle(expressions)]
pub struct Designator {
    pub head: u32,
    pub selectors: Vec<Selector>,
}

/// A selector of a designator. A type guard and a call with one argument have equal syntax; only name resolution can distinguish them.
#[derive(Drop)]
#[cycle(expressions)]
pub enum Selector {
    /// `.` and a field's name.
    Field(u32),
    /// `[` one or more expressions `]`
    Index(Box<ExprList>),
    /// `^`, the target of a pointer.
    Target,
    /// `(` `)`, or one or more expressions in parentheses.
    Arguments(Option<Box<ExprList>>),
}

/// One or more expressions, separated by commas.
#[derive(Drop)]
#[cycle(expressions)]
pub struct ExprList {
    pub first: Expr,
    pub rest: Vec<Expr>,
}
