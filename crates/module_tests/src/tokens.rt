//! Sources with their tokens, and locations of offsets.
use crate::asked::Asked::{Place, Tokens, TooLong};
use crate::asked::{Row, check_rows};
use ob_scan::{lines, position, scan};
use std::alloc::{AllocError, Global};
use std::test::Fail;

/// Sources with their tokens or fault, and offsets with their lines and columns.
const ROWS: &[Row] = &[
    // Numbers.
    (
        Tokens(b"{1..5}"),
        "LeftBrace 0 1;Integer 1 2;DotDot 2 4;Integer 4 5;RightBrace 5 6;",
    ),
    (Tokens(b"0FFH"), "Integer 0 4;"),
    (Tokens(b"22X"), "Text 0 3;"),
    (Tokens(b"0FX"), "Text 0 3;"),
    (Tokens(b"1.E5"), "Real 0 4;"),
    (Tokens(b"1."), "Real 0 2;"),
    (Tokens(b"1.5E-07"), "Real 0 7;"),
    (Tokens(b"1..2"), "Integer 0 1;DotDot 1 3;Integer 3 4;"),
    (Tokens(b"1..."), "Integer 0 1;DotDot 1 3;Dot 3 4;"),
    (Tokens(b"12H3"), "Integer 0 3;Integer 3 4;"),
    // Names, words and strings.
    (
        Tokens(b"ENDx END x9 end"),
        "Ident 0 4;End 5 8;Ident 9 11;Ident 12 15;",
    ),
    (
        Tokens(b"a<=b<c"),
        "Ident 0 1;LessEquals 1 3;Ident 3 4;Less 4 5;Ident 5 6;",
    ),
    (Tokens(b"\"a'(*\nb\"\"\""), "Text 0 8;Text 8 10;"),
    (Tokens(b""), "none"),
    // Comments.
    (
        Tokens(b"(**)a(*)*)b(***)(* (* \xC3\xA9 *) *)"),
        "Ident 4 5;Ident 10 11;",
    ),
    (
        Tokens(b"MODULE M; BEGIN (* (* *) *) END M."),
        "Module 0 6;Ident 7 8;Semicolon 8 9;Begin 10 15;End 28 31;Ident 32 33;Dot 33 34;",
    ),
    // Each reserved word.
    (
        Tokens(b"ARRAY BEGIN BY CASE CONST DIV DO ELSE ELSIF END FALSE FOR IF IMPORT IN IS MOD"),
        "Array 0 5;Begin 6 11;By 12 14;Case 15 19;Const 20 25;Div 26 29;Do 30 32;Else 33 37;Elsif 38 43;\
         End 44 47;False 48 53;For 54 57;If 58 60;Import 61 67;In 68 70;Is 71 73;Mod 74 77;",
    ),
    (
        Tokens(
            b"MODULE NIL OF OR POINTER PROCEDURE RECORD REPEAT RETURN THEN TO TRUE TYPE UNTIL VAR WHILE",
        ),
        "Module 0 6;Nil 7 10;Of 11 13;Or 14 16;Pointer 17 24;Procedure 25 34;Record 35 41;Repeat 42 48;\
         Return 49 55;Then 56 60;To 61 63;True 64 68;Type 69 73;Until 74 79;Var 80 83;While 84 89;",
    ),
    // Each delimiter.
    (
        Tokens(b"+ - * / ~ & . , ; | ( ) [ ] { } := ^ = # < <= > >= .. :"),
        "Plus 0 1;Minus 2 3;Star 4 5;Slash 6 7;Tilde 8 9;Ampersand 10 11;Dot 12 13;Comma 14 15;\
         Semicolon 16 17;Bar 18 19;LeftParen 20 21;RightParen 22 23;LeftBracket 24 25;RightBracket 26 27;\
         LeftBrace 28 29;RightBrace 30 31;Assign 32 34;Caret 35 36;Equals 37 38;Hash 39 40;Less 41 42;\
         LessEquals 43 45;Greater 46 47;GreaterEquals 48 50;DotDot 51 53;Colon 54 55;",
    ),
    // Faults.
    (Tokens(b"1E5"), "the digits at 0 are no number"),
    (Tokens(b"a (*)"), "the comment at 2 has no end"),
    (Tokens(b"x \""), "the string at 2 has no end"),
    (Tokens(b"a_b"), "the byte at 1 begins no token"),
    (TooLong, "the text is too long"),
    // A line ends at an LF, at a CR LF, or at a CR alone.
    (Place(b"a\rb\r\nc\nd", 0), "0 0"),
    (Place(b"a\rb\r\nc\nd", 1), "0 1"),
    (Place(b"a\rb\r\nc\nd", 2), "1 0"),
    (Place(b"a\rb\r\nc\nd", 3), "1 1"),
    (Place(b"a\rb\r\nc\nd", 4), "1 2"),
    (Place(b"a\rb\r\nc\nd", 5), "2 0"),
    (Place(b"a\rb\r\nc\nd", 6), "2 1"),
    (Place(b"a\rb\r\nc\nd", 7), "3 0"),
    (Place(b"a\rb\r\nc\nd", 8), "3 1"),
    (Place(b"ab\ncd", 3), "1 0"),
    (Place(b"ab\r\ncd", 3), "0 3"),
    (Place(b"ab\r\ncd", 4), "1 0"),
    (Place(b"ab\rcd", 3), "1 0"),
    (Place(b"abcd", 3), "0 3"),
    // Ends of sources.
    (Place(b"ab\ncd", 5), "1 2"),
    (Place(b"ab\n\n", 4), "2 0"),
    (Place(b"ab\r", 3), "1 0"),
    (Place(b"", 0), "0 0"),
];

/// The tokens of a source, each with its kind and both offsets, or the fault.
pub(crate) fn describe_token_list(alloc: Global, text: &[u8]) -> Result<String, AllocError> {
    let tokens = match scan(alloc, text) {
        Ok(tokens) => tokens,
        Err(fault) => return format!(in alloc; "{fault}"),
    };
    let mut all = String::from_str(alloc, if tokens.is_empty() { "none" } else { "" })?;
    for token in tokens.as_slice() {
        write!(all, "{:?} {} {};", token.kind, token.start, token.end)?;
    }
    Ok(all)
}

/// The line and the column of an offset, by the source and by the table of its lines.
pub(crate) fn describe_location(
    alloc: Global,
    text: &[u8],
    offset: u32,
) -> Result<String, AllocError> {
    if offset as usize > text.len() {
        return String::from_str(alloc, "no place");
    }
    let (place, found) = (position(text, offset), lines(alloc, text)?.position(offset));
    if place != found {
        return String::from_str(alloc, "two places");
    }
    format!(in alloc; "{} {}", place.line, place.column)
}

#[test]
fn sources_have_tokens_and_locations(rt: HostRuntime) -> Result<(), Fail> {
    check_rows(&rt, ROWS)
}
