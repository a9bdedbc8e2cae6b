//! The delimiters (Oberon-07 report, section 3).
ghost use Rattle.std.specs.Prelude.{◌≡◌};
ghost use Rattle.ob_scan.specs.Lexemes.{delimiter_of, one_byte_delimiter_token};
ghost use Rattle.ob_scan.specs.Tables.{two_byte_delimiter, one_byte_delimiter};

use crate::Kind;

/// The delimiter of these two bytes, if they are one.
#[inline(always)]
fn two_byte_delimiter(first: u8, second: u8) -> Option<Kind>
    ensures { result ≡ two_byte_delimiter first second }
{
    match (first, second) {
        (b':', b'=') => Some(Kind::Assign),
        (b'<', b'=') => Some(Kind::LessEquals),
        (b'>', b'=') => Some(Kind::GreaterEquals),
        (b'.', b'.') => Some(Kind::DotDot),
        _ => None,
    }
}

/// The delimiter of this byte, if it is one.
#[inline(always)]
fn one_byte_delimiter(byte: u8) -> Option<Kind>
    ensures { result ≡ one_byte_delimiter byte }
{
    match byte {
        b'+' => Some(Kind::Plus),
        b'-' => Some(Kind::Minus),
        b'*' => Some(Kind::Star),
        b'/' => Some(Kind::Slash),
        b'~' => Some(Kind::Tilde),
        b'&' => Some(Kind::Ampersand),
        b'.' => Some(Kind::Dot),
        b',' => Some(Kind::Comma),
        b';' => Some(Kind::Semicolon),
        b'|' => Some(Kind::Bar),
        b'(' => Some(Kind::LeftParen),
        b')' => Some(Kind::RightParen),
        b'[' => Some(Kind::LeftBracket),
        b']' => Some(Kind::RightBracket),
        b'{' => Some(Kind::LeftBrace),
        b'}' => Some(Kind::RightBrace),
        b'^' => Some(Kind::Caret),
        b'=' => Some(Kind::Equals),
        b'#' => Some(Kind::Hash),
        b'<' => Some(Kind::Less),
        b'>' => Some(Kind::Greater),
        b':' => Some(Kind::Colon),
        _ => None,
    }
}

/// The delimiter that this byte is, with the length 1; `None` if the byte is no delimiter.
#[inline(always)]
fn one_byte_token(byte: u8) -> Option<(Kind, usize)>
    ensures { result ≡ one_byte_delimiter_token byte }
{
    one_byte_delimiter(byte).map(|kind| (kind, 1))
}

/// The delimiter that the bytes begin with, and its length. A delimiter of two bytes wins over one of one byte.
#[inline(always)]
pub(crate) fn delimiter(rest: &[u8]) -> Option<(Kind, usize)>
    ensures { result ≡ delimiter_of rest.now }
{
    match rest {
        [first, second, ..] => match two_byte_delimiter(*first, *second) {
            Some(kind) => Some((kind, 2)),
            None => one_byte_token(*first),
        },
        [first] => one_byte_token(*first),
        [] => None,
    }
}
