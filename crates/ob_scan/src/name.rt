//! Names, reserved words and strings in quotes (Oberon-07 report, section 3).
ghost use Rattle.std.specs.Prelude.{◌≡◌, ◌≤◌, ◌==◌, length, unwrap_or, IfSome};
ghost use Rattle.std.specs.List.{position};
ghost use Rattle.ob_scan.specs.declared.kind.Kind.TheVariants.{Ident};
ghost use Rattle.ob_scan.specs.Lexemes.{has_second_capital, string_len};
ghost use Rattle.ob_scan.specs.Tables.{reserved_word};

use crate::Kind;
use crate::words::reserved_word;

/// Whether the second letter is a capital, as in each reserved word and in few other names.
fn has_second_capital(name: &[u8]) -> bool
    ensures { result ≡ has_second_capital name.now }
{
    match name {
        [_, second, ..] => second.is_ascii_uppercase(),
        _ => false,
    }
}

/// The kind of a reserved word, or `Ident`. The second letter excludes most identifiers without a search in the table.
pub(crate) fn name_kind(name: &[u8]) -> Kind
    ensures { result ≡ unwrap_or (reserved_word name.now) Ident }
{
    if has_second_capital(name) {
        reserved_word(name).unwrap_or(Kind::Ident)
    } else {
        Kind::Ident
    }
}

/// The index of the first quote.
fn first_quote_index(bytes: &[u8]) -> Option<usize>
    ensures { result ≡ position (λ b. b == 34) bytes.now }
{
    bytes.iter().position(|b| *b == b'"')
}

/// The length of the string that the bytes begin with, or `None` if it has no end. The first byte is its opening quote, which is not
/// tested.
pub(crate) fn string_len(rest: &[u8]) -> Option<usize>
    requires { 1 ≤ length rest.now }
    // The index of the second quote, plus one.
    ensures value { result ≡ string_len rest.now }
    ensures within { IfSome result (λ n. n ≤ length rest.now) }
{
    let (_, inside) = rest.split_at(1);
    let end = first_quote_index(inside)?;
    Some(end + 2)
}
