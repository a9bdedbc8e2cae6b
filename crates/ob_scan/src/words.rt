//! The reserved words (Oberon-07 report, section 3).
ghost use Rattle.std.specs.Prelude.{◌≡◌};
ghost use Rattle.ob_scan.specs.Tables.{longer_word, reserved_word, two_letter_word, three_letter_word, four_letter_word, five_letter_word};
ghost use Rattle.std.specs.Str.{bytes_eq};

use crate::Kind;

/// Whether the text is this word.
fn is_equal(text: &[u8], word: &[u8]) -> bool
    ensures { result ≡ bytes_eq text.now word.now }
{
    text == word
}

/// The reserved word of two letters that the text is, if it is one.
fn two_letter_word(text: &[u8]) -> Option<Kind>
    ensures { result ≡ two_letter_word text.now }
{
    match text {
        b"BY" => Some(Kind::By),
        b"DO" => Some(Kind::Do),
        b"IF" => Some(Kind::If),
        b"IN" => Some(Kind::In),
        b"IS" => Some(Kind::Is),
        b"OF" => Some(Kind::Of),
        b"OR" => Some(Kind::Or),
        b"TO" => Some(Kind::To),
        _ => None,
    }
}

/// The reserved word of three letters that the text is, if it is one.
fn three_letter_word(text: &[u8]) -> Option<Kind>
    ensures { result ≡ three_letter_word text.now }
{
    match text {
        b"DIV" => Some(Kind::Div),
        b"END" => Some(Kind::End),
        b"FOR" => Some(Kind::For),
        b"MOD" => Some(Kind::Mod),
        b"NIL" => Some(Kind::Nil),
        b"VAR" => Some(Kind::Var),
        _ => None,
    }
}

/// The reserved word of four letters that the text is, if it is one.
fn four_letter_word(text: &[u8]) -> Option<Kind>
    ensures { result ≡ four_letter_word text.now }
{
    match text {
        b"CASE" => Some(Kind::Case),
        b"ELSE" => Some(Kind::Else),
        b"THEN" => Some(Kind::Then),
        b"TRUE" => Some(Kind::True),
        b"TYPE" => Some(Kind::Type),
        _ => None,
    }
}

/// The reserved word of five letters that the text is, if it is one.
fn five_letter_word(text: &[u8]) -> Option<Kind>
    ensures { result ≡ five_letter_word text.now }
{
    if is_equal(text, b"ARRAY") {
        return Some(Kind::Array);
    }
    if is_equal(text, b"BEGIN") {
        return Some(Kind::Begin);
    }
    if is_equal(text, b"CONST") {
        return Some(Kind::Const);
    }
    if is_equal(text, b"ELSIF") {
        return Some(Kind::Elsif);
    }
    if is_equal(text, b"FALSE") {
        return Some(Kind::False);
    }
    if is_equal(text, b"UNTIL") {
        return Some(Kind::Until);
    }
    if is_equal(text, b"WHILE") {
        return Some(Kind::While);
    }
    None
}

/// The reserved word of more than five letters that the text is, if it is one.
fn longer_word(text: &[u8]) -> Option<Kind>
    ensures { result ≡ longer_word text.now }
{
    if is_equal(text, b"IMPORT") {
        return Some(Kind::Import);
    }
    if is_equal(text, b"MODULE") {
        return Some(Kind::Module);
    }
    if is_equal(text, b"POINTER") {
        return Some(Kind::Pointer);
    }
    if is_equal(text, b"PROCEDURE") {
        return Some(Kind::Procedure);
    }
    if is_equal(text, b"RECORD") {
        return Some(Kind::Record);
    }
    if is_equal(text, b"REPEAT") {
        return Some(Kind::Repeat);
    }
    if is_equal(text, b"RETURN") {
        return Some(Kind::Return);
    }
    None
}

/// The reserved word that the text is, if it is one. The length selects a table, so that few words are compared.
pub(crate) fn reserved_word(text: &[u8]) -> Option<Kind>
    ensures { result ≡ reserved_word text.now }
{
    match text.len() {
        2 => two_letter_word(text),
        3 => three_letter_word(text),
        4 => four_letter_word(text),
        5 => five_letter_word(text),
        _ => longer_word(text),
    }
}
