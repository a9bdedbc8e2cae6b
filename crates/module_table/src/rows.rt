//! The entries of a table. A token is identified by the number of tokens before it, from 0: its index among the file's tokens.

/// The kind of a declaration (Oberon-07 report, sections 4 to 7, 10 and 11).
#[derive(Clone, Copy, Debug, Drop)]
pub enum DeclKind {
    /// An imported module, by its alias in this module.
    Import,
    Constant,
    Type,
    Variable,
    Procedure,
    Parameter,
    /// A field of a record.
    Field,
}

/// A declaration group: one declaration in the source, whose identifier list may declare several identifiers of one kind and type.
#[derive(Clone, Copy, Debug, Drop)]
pub struct DeclGroup {
    pub decl_kind: DeclKind,
    /// Its first token.
    pub first: u32,
    /// Its last token, without the semicolon that follows.
    pub last: u32,
    /// The first token of the innermost block around it; 0 for the module's block.
    pub block: u32,
    /// For fields the RECORD keyword of their record.
    pub of_record: Option<u32>,
}

/// A declared identifier.
#[derive(Clone, Copy, Debug, Drop)]
pub struct Declared {
    pub number: u32,
    /// Whether it has the export mark `*`.
    pub exported: bool,
    /// The first token of its declaration group.
    pub declared_by: u32,
}

/// An identifier that the scope rule looks up: the head of a designator or of a qualified name, a name among labels, or the variable of a
/// FOR.
#[derive(Clone, Copy, Debug, Drop)]
pub struct Used {
    pub number: u32,
    /// The first token of the innermost block around it.
    pub block: u32,
    /// Whether it is the whole target of a pointer type, which may be declared later in the block.
    pub is_target: bool,
    /// The name after the dot that follows it, if any.
    pub member: Option<u32>,
}

/// A block, opened by a procedure declaration or a procedure type. The module's block has no entry.
#[derive(Clone, Copy, Debug, Drop)]
pub struct Block {
    /// Its first token, the keyword PROCEDURE.
    pub first: u32,
    /// The first token of the enclosing block.
    pub outer: u32,
}

/// An import item: the token of the alias that it declares, and the token of the imported module's own name.
#[derive(Clone, Copy, Debug, Drop)]
pub struct Import {
    pub alias: u32,
    pub imported: u32,
}

/// The kind of a component of a type expression.
#[derive(Clone, Copy, Debug, Drop)]
pub enum Part {
    /// ARRAY, or the comma before a further length.
    Array,
    Pointer,
    Record,
    /// A procedure type.
    Procedure,
    /// A type's name; the token of the second identifier if it is qualified.
    Named(Option<u32>),
}

/// A component of the type expression of a declaration group. The components of one group are listed from the outermost to the innermost.
#[derive(Clone, Copy, Debug, Drop)]
pub struct TypePart {
    /// The first token of the declaration group.
    pub declared_by: u32,
    /// The first token of the component.
    pub number: u32,
    pub part: Part,
}

/// The name of a type, qualified by a module's alias or not.
#[derive(Clone, Copy, Debug, Drop)]
pub struct TypeName {
    pub head: u32,
    /// The name after the dot, if the name is qualified.
    pub member: Option<u32>,
}

/// A record type.
#[derive(Clone, Copy, Debug, Drop)]
pub struct Record {
    /// Its keyword RECORD.
    pub number: u32,
    /// The first token of the declaration group whose type it is, directly or through arrays and pointers. That token is the first
    /// identifier of the group.
    pub owner: u32,
    pub base: Option<TypeName>,
}

/// A designator in an expression or a statement, or the variable of a FOR, which has no selectors.
#[derive(Clone, Copy, Debug, Drop)]
pub struct Designator {
    pub head: u32,
    /// The first token of the innermost block around it.
    pub block: u32,
    /// Whether it is the left side of an assignment or the variable of a FOR. Designators in its indexes and arguments aren't.
    pub is_written: bool,
}

/// A selector of a designator.
#[derive(Clone, Copy, Debug, Drop)]
pub enum Step {
    /// `.` and the field's name.
    Field(u32),
    /// `[` and `]`, with the number of index expressions.
    Elements(u32),
    /// `^`
    Target,
    /// `(` and `)`. If its only argument has the form of a type's name, the selector may be a type guard, and it has this name.
    Arguments(Option<TypeName>),
}

/// A selector, with the head of its designator.
#[derive(Clone, Copy, Debug, Drop)]
pub struct Selector {
    /// The head of its designator.
    pub of: u32,
    pub step: Step,
}

/// A name after END.
#[derive(Clone, Copy, Debug, Drop)]
pub struct End {
    pub number: u32,
    /// The token of the procedure's name, if it ends a procedure; `None` if it ends the module.
    pub of: Option<u32>,
}
