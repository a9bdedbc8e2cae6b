//! The lexeme at an offset: a blank, a comment or a token, or none (Oberon-07 report, section 3).
ghost use Rattle.std.specs.Prelude.{◌≡◌, ◌<◌, true, false, length};
ghost use Rattle.std.specs.Char.{is_ascii_alphabetic};
ghost use Rattle.ob_scan.specs.Comments.{begins_comment};
ghost use Rattle.ob_scan.specs.Numbers.{first_passes, begins_digit};
ghost use Rattle.ob_scan.specs.Lexemes.{IsLexeme};
ghost use Rattle.ob_scan.specs.Spelling.{begins_blank, begins_quote};

use crate::Kind;
use crate::comment::comment_len;
use crate::delimiters::delimiter;
use crate::fault::Reason;
use crate::name::{name_kind, string_len};
use crate::number::number_token;
use texts::prefixes::alnum_prefix_len;

/// The blank or comment (`Gap`) or the token at the start of a text, with its length in bytes; or the reason why there is none.
#[derive(Clone, Copy)]
pub(crate) enum Lexeme {
    Gap(usize),
    Token(Kind, usize),
    Nothing(Reason),
}

/// Whether the first byte is a blank: a control character or a space.
pub(crate) fn begins_blank(rest: &[u8]) -> bool
    ensures { result ≡ begins_blank rest.now }
{
    match rest {
        [first, ..] => *first < 33,
        [] => false,
    }
}

/// Whether the bytes begin with `(*`.
fn begins_comment(rest: &[u8]) -> bool
    ensures { result ≡ begins_comment rest.now }
{
    matches!(rest, [b'(', b'*', ..])
}

/// Whether the first byte is a digit.
fn begins_digit(rest: &[u8]) -> bool
    ensures { result ≡ begins_digit rest.now }
{
    match rest {
        [first, ..] => first.is_ascii_digit(),
        [] => false,
    }
}

/// Whether the first byte is a letter.
fn begins_letter(rest: &[u8]) -> bool
    ensures { result ≡ first_passes is_ascii_alphabetic rest.now }
{
    match rest {
        [first, ..] => first.is_ascii_alphabetic(),
        [] => false,
    }
}

/// Whether the first byte is a double quote.
fn begins_quote(rest: &[u8]) -> bool
    ensures { result ≡ begins_quote rest.now }
{
    match rest {
        [first, ..] => *first == b'"',
        [] => false,
    }
}

/// The comment that the bytes begin with, or the reason that it is not closed. The bytes begin with `(*`.
fn comment_lexeme(rest: &[u8]) -> Lexeme
    requires { begins_comment rest.now ≡ true }
    // The result is what the bytes begin with, and its length is in bounds.
    ensures { IsLexeme rest.now result }
{
    match comment_len(rest) {
        Some(n) => Lexeme::Gap(n),
        None => Lexeme::Nothing(Reason::Comment),
    }
}

/// The number that the bytes begin with, or the string by the number of its character. If the digits form neither, the reason.
fn number_lexeme(rest: &[u8]) -> Lexeme
    requires { begins_digit rest.now ≡ true }
    // The result is what the bytes begin with, and its length is in bounds.
    ensures { IsLexeme rest.now result }
{
    match number_token(rest) {
        Some((kind, n)) => Lexeme::Token(kind, n),
        None => Lexeme::Nothing(Reason::Number),
    }
}

/// The identifier or reserved word that the bytes begin with.
fn name_lexeme(rest: &[u8]) -> Lexeme
    requires { first_passes is_ascii_alphabetic rest.now ≡ true }
    // The result is what the bytes begin with, and its length is in bounds.
    ensures { IsLexeme rest.now result }
{
    let n = alnum_prefix_len(rest);
    let (name, _) = rest.split_at(n);
    Lexeme::Token(name_kind(name), n)
}

/// The string in quotes that the bytes begin with.
fn string_lexeme(rest: &[u8]) -> Lexeme
    requires { begins_quote rest.now ≡ true }
    // The result is what the bytes begin with, and its length is in bounds.
    ensures { IsLexeme rest.now result }
{
    match string_len(rest) {
        Some(n) => Lexeme::Token(Kind::Text, n),
        None => Lexeme::Nothing(Reason::String),
    }
}

/// The delimiter that the bytes begin with, after all other kinds were excluded.
#[inline(always)]
fn delimiter_lexeme(rest: &[u8]) -> Lexeme
    requires some { 0 < length rest.now }
    requires no_blank { begins_blank rest.now ≡ false }
    requires no_comment { begins_comment rest.now ≡ false }
    requires no_digit { begins_digit rest.now ≡ false }
    requires no_letter { first_passes is_ascii_alphabetic rest.now ≡ false }
    requires no_quote { begins_quote rest.now ≡ false }
    // The result is what the bytes begin with, and its length is in bounds.
    ensures { IsLexeme rest.now result }
{
    match delimiter(rest) {
        Some((kind, n)) => Lexeme::Token(kind, n),
        None => Lexeme::Nothing(Reason::Byte),
    }
}

/// The blank, comment or token that the bytes begin with, or the reason why there is none. There is at least one byte.
pub(crate) fn first_lexeme(rest: &[u8]) -> Lexeme
    requires { 0 < length rest.now }
    // The result is what the bytes begin with, and its length is in bounds.
    ensures { IsLexeme rest.now result }
{
    if begins_blank(rest) {
        Lexeme::Gap(1)
    } else if begins_letter(rest) {
        name_lexeme(rest)
    } else if begins_comment(rest) {
        comment_lexeme(rest)
    } else if begins_digit(rest) {
        number_lexeme(rest)
    } else if begins_quote(rest) {
        string_lexeme(rest)
    } else {
        delimiter_lexeme(rest)
    }
}
