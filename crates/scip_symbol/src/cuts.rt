//! Functions that split a string after a prefix, at an ASCII character, or after its identifier characters.
ghost use Rattle.std.specs.Prelude.{◌≡◌, ◌<◌, option_map, IfOk};
ghost use Rattle.std.specs.List.{prefix_len};
ghost use Rattle.std.specs.String.{string_bytes};
ghost use Rattle.scip_symbol.specs.SymbolTexts.{are_simple, is_simple};
ghost use Rattle.texts.specs.Fields.{split_at_first};
ghost use Rattle.scip_symbol.specs.Reading.{after_byte, after_bytes, delimited_prefix, simple_prefix};

use std::alloc::{AllocError, Global};

/// The rest of the string after the ASCII character `delimiter`, if the string begins with it; otherwise `None`.
pub(crate) fn strip_char(text: &str, delimiter: char) -> Option<&str>
    requires { delimiter < 128 }
    ensures { option_map (λ rest. rest.now) result ≡ after_byte delimiter text.now }
{
    text.strip_prefix(delimiter)
}

/// The rest of the string after `word`, if the string begins with it; otherwise `None`.
pub(crate) fn strip_word<'a>(text: &'a str, word: &str) -> Option<&'a str>
    ensures { option_map (λ rest. rest.now) result ≡ after_bytes word.now text.now }
{
    text.strip_prefix(word)
}

/// The parts of the string before and after the first ASCII character `delimiter`; `None` if the string doesn't have that character.
pub(crate) fn split_at_char(text: &str, delimiter: char) -> Option<(&str, &str)>
    requires { delimiter < 128 }
    ensures { option_map (λ parts. (parts.0.now, parts.1.now)) result ≡ split_at_first delimiter text.now }
{
    text.split_once(delimiter)
}

/// The part with which the string begins, unescaped, and the rest of the string after the part's end. In the part each ASCII character
/// `delimiter` is doubled, and a single `delimiter` ends the part. `None` if no single `delimiter` does.
pub(crate) fn read_delimited(
    alloc: Global,
    text: &str,
    delimiter: char,
) -> Result<Option<(String, &str)>, AllocError>
    requires { delimiter < 128 }
    ensures { IfOk result (λ found. option_map (λ x. (string_bytes x.0, x.1.now)) found ≡ delimited_prefix delimiter text.now) }
{
    let mut part = String::new(alloc);
    let mut rest = text;
    while let Some((front, after)) = split_at_char(rest, delimiter) {
        part.push_str(front)?;
        let Some(more) = strip_char(after, delimiter) else {
            return Ok(Some((part, after)));
        };
        part.push(delimiter)?;
        rest = more;
    }
    Ok(None)
}

/// Whether the byte is an identifier character (scip.proto): a letter, a digit or one of `_+-$`.
fn is_simple_byte(b: u8) -> bool
    ensures { result ≡ is_simple b }
{
    b.is_ascii_alphanumeric() || matches!(b, b'_' | b'+' | b'-' | b'$')
}

/// Whether all bytes are identifier characters (scip.proto): letters, digits and `_+-$`.
pub(crate) fn is_simple_text(text: &str) -> bool
    ensures { result ≡ are_simple text.now }
{
    text.as_bytes().iter().all(|b| is_simple_byte(*b))
}

/// The number of identifier characters before the first byte that isn't one.
fn simple_prefix_len(bytes: &[u8]) -> usize
    ensures { result ≡ prefix_len is_simple bytes.now }
{
    bytes.iter().take_while(|b| is_simple_byte(**b)).count()
}

/// Splits the string before its first byte that isn't an identifier character.
pub(crate) fn split_simple_prefix(text: &str) -> (&str, &str)
    ensures { (result.0.now, result.1.now) ≡ simple_prefix text.now }
{
    text.split_at(simple_prefix_len(text.as_bytes()))
}
