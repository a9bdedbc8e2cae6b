//! The kinds of tokens.

/// The kind of a token: one for identifiers, one for each kind of literal, and one for each reserved word and delimiter
/// (Oberon-07 report, section 3).
#[derive(Clone, Copy, PartialEq, Eq, Debug)]
pub enum Kind {
    /// An identifier.
    Ident,
    /// An integer, decimal or hexadecimal, as `255` or `0FFH`.
    Integer,
    /// A real number, as `1.5E-3`.
    Real,
    /// A string, in quotes or by the number of its character, as `"ab"` or `22X`.
    Text,
    /// `ARRAY`
    Array,
    /// `BEGIN`
    Begin,
    /// `BY`
    By,
    /// `CASE`
    Case,
    /// `CONST`
    Const,
    /// `DIV`
    Div,
    /// `DO`
    Do,
    /// `ELSE`
    Else,
    /// `ELSIF`
    Elsif,
    /// `END`
    End,
    /// `FALSE`
    False,
    /// `FOR`
    For,
    /// `IF`
    If,
    /// `IMPORT`
    Import,
    /// `IN`
    In,
    /// `IS`
    Is,
    /// `MOD`
    Mod,
    /// `MODULE`
    Module,
    /// `NIL`
    Nil,
    /// `OF`
    Of,
    /// `OR`
    Or,
    /// `POINTER`
    Pointer,
    /// `PROCEDURE`
    Procedure,
    /// `RECORD`
    Record,
    /// `REPEAT`
    Repeat,
    /// `RETURN`
    Return,
    /// `THEN`
    Then,
    /// `TO`
    To,
    /// `TRUE`
    True,
    /// `TYPE`
    Type,
    /// `UNTIL`
    Until,
    /// `VAR`
    Var,
    /// `WHILE`
    While,
    /// `+`
    Plus,
    /// `-`
    Minus,
    /// `*`
    Star,
    /// `/`
    Slash,
    /// `~`
    Tilde,
    /// `&`
    Ampersand,
    /// `.`
    Dot,
    /// `,`
    Comma,
    /// `;`
    Semicolon,
    /// `|`
    Bar,
    /// `(`
    LeftParen,
    /// `)`
    RightParen,
    /// `[`
    LeftBracket,
    /// `]`
    RightBracket,
    /// `{`
    LeftBrace,
    /// `}`
    RightBrace,
    /// `:=`
    Assign,
    /// `^`
    Caret,
    /// `=`
    Equals,
    /// `#`
    Hash,
    /// `<`
    Less,
    /// `<=`
    LessEquals,
    /// `>`
    Greater,
    /// `>=`
    GreaterEquals,
    /// `..`
    DotDot,
    /// `:`
    Colon,
}
