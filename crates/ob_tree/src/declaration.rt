//! Types, declarations and modules (Oberon-07 report, sections 5, 6, 7, 10 and 11). An identifier is represented by its token number,
//! from 0.

use crate::expression::{Expr, ExprList};
use crate::name::{Identdef, OneOrMore, Qualident};
use crate::statement::StatementSequence;

/// A module. `name` and `end_name` are the token numbers of the names after MODULE and after END.
#[derive(Drop)]
pub struct Module {
    pub name: u32,
    pub imports: Option<OneOrMore<ImportItem>>,
    pub declarations: Declarations,
    pub body: Option<StatementSequence>,
    pub end_name: u32,
}

/// An import item. It declares `name`; `of` is the imported module's own name if the item has the form `name := of`.
#[derive(Clone, Copy, Drop)]
pub struct ImportItem {
    pub name: u32,
    pub of: Option<u32>,
}

/// The declarations of a module or a procedure. A section is `None` if its keyword is absent, and may be empty otherwise.
#[derive(Drop)]
#[cycle(declarations)]
pub struct Declarations {
    pub constants: Option<Vec<ConstDecl>>,
    pub types: Option<Vec<TypeDecl>>,
    pub variables: Option<Vec<VarDecl>>,
    pub procedures: Vec<ProcDecl>,
}

/// A constant declaration.
#[derive(Drop)]
pub struct ConstDecl {
    pub name: Identdef,
    pub value: Expr,
}

/// A type declaration.
#[derive(Drop)]
pub struct TypeDecl {
    pub name: Identdef,
    pub type_expr: TypeForm,
}

/// A list of variables, or of record fields, with their common type.
#[derive(Drop)]
#[cycle(types)]
pub struct VarDecl {
    pub names: OneOrMore<Identdef>,
    pub type_expr: TypeForm,
}

/// A procedure declaration. `end_name` is the token number of the name after END.
#[derive(Drop)]
#[cycle(declarations)]
pub struct ProcDecl {
    pub name: Identdef,
    pub parameters: Option<Parameters>,
    pub declarations: Declarations,
    pub body: Option<Box<StatementSequence>>,
    /// The expression after RETURN.
    pub returned: Option<Box<Expr>>,
    pub end_name: u32,
}

/// A type expression.
#[derive(Drop)]
#[cycle(types)]
pub enum TypeForm {
    /// A type denoted by its name.
    Named(Qualident),
    /// An array type: its lengths, one or more, and the type of its elements.
    ArrayOf(Box<ExprList>, Box<TypeForm>),
    /// A record type.
    RecordOf(Record),
    /// A pointer type, with the type of its target.
    PointerTo(Box<TypeForm>),
    /// A procedure type, with its list of formal parameters, if it has one.
    ProcOf(Option<Parameters>),
}

/// A record type, with the name of its base in parentheses.
#[derive(Drop)]
#[cycle(types)]
pub struct Record {
    pub base: Option<Qualident>,
    pub fields: Option<Box<Fields>>,
}

/// The field lists of a record. `closing_semicolon`: whether a semicolon precedes END, an extension of the report's grammar.
#[derive(Drop)]
#[cycle(types)]
pub struct Fields {
    pub first: VarDecl,
    pub rest: Vec<VarDecl>,
    pub closing_semicolon: bool,
}

/// Formal parameters, and the name of the result type.
#[derive(Drop)]
pub struct Parameters {
    pub sections: Option<OneOrMore<ParameterSection>>,
    pub result: Option<Qualident>,
}

/// Parameters that share one formal type (FPSection in the report).
#[derive(Drop)]
pub struct ParameterSection {
    /// Whether the parameters are variable parameters (VAR).
    pub variable: bool,
    pub names: OneOrMore<u32>,
    /// How many times ARRAY OF precedes the type's name.
    pub open_arrays: u32,
    pub of: Qualident,
}
