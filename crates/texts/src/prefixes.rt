//! Parsing from the start of a text, without finding the end of the line first. A name ends at the first byte that is neither a letter
//! nor a digit.
ghost use Rattle.std.specs.Prelude.{◌≡◌, ◌<◌, ◌≤◌, ◌++◌, ◌∷◌, IfSome, length, slice_index, take, true};
ghost use Rattle.std.specs.Char.{is_ascii_alphanumeric, is_ascii_digit};
ghost use Rattle.std.specs.Fmt.{decimal};
ghost use Rattle.std.specs.List.{list_all, prefix_len};
ghost use Rattle.std.specs.Str.Parse.{digits_value};
ghost use Rattle.texts.specs.Fields.{is_name};

use crate::lanes::{LANES, count_alnum_lanes};

/// The number of letters and digits before the first other byte, counted byte by byte.
fn count_alnum(text: &[u8]) -> usize
    ensures value { result ≡ prefix_len is_ascii_alphanumeric text.now }
    ensures within { result ≤ length text.now }
{
    text.iter()
        .take_while(|b| b.is_ascii_alphanumeric())
        .count()
}

/// The number of letters and digits before the first other byte. Tests the first sixteen bytes at once. If fewer bytes are left, or all
/// sixteen are letters and digits, it tests byte by byte.
#[inline(always)]
pub fn alnum_prefix_len(text: &[u8]) -> usize
    // The length of the longest prefix of letters and digits.
    ensures value { result ≡ prefix_len is_ascii_alphanumeric text.now }
    // It is at most the length of the text.
    ensures within { result ≤ length text.now }
{
    if text.len() >= LANES {
        let letters = count_alnum_lanes(text);
        if letters < LANES {
            return letters;
        }
    }
    count_alnum(text)
}

/// The longest identifier that the text begins with (Oberon-07 report, section 3), and the rest of the text.
#[inline]
pub fn parse_name(text: &[u8]) -> Option<(&str, &[u8])>
    // The first part is an identifier.
    ensures name { IfSome result (λ x. is_name x.0.now ≡ true) }
    // The text is the identifier followed by the rest.
    ensures text { IfSome result (λ x. text.now ≡ x.0.now ++ x.1.now) }
{
    let (name, rest) = text.split_at(alnum_prefix_len(text));
    let (first, _) = name.split_first()?;
    if !first.is_ascii_alphabetic() {
        return None;
    }
    // An identifier is ASCII, so the bytes are UTF-8.
    Some((unsafe { std::str::from_utf8_unchecked(name) }, rest))
}

/// The text after its first byte, if this byte is `byte`; else `None`.
#[inline]
pub fn strip_byte(text: &[u8], byte: u8) -> Option<&[u8]>
    ensures { IfSome result (λ rest. text.now ≡ byte ∷ rest.now) }
{
    let (first, rest) = text.split_first()?;
    if *first == byte { Some(rest) } else { None }
}

/// Returns `value`, the number that the digits before index `end` denote, and the text after the LF at index `end`. `None` if there is
/// no digit, or a leading zero.
fn finish_number(text: &[u8], end: usize, value: u64) -> Option<(u64, &[u8])>
    requires within { end < length text.now }
    requires ends { slice_index text.now end ≡ 10 }
    requires digits { list_all is_ascii_digit (take end text.now) ≡ true }
    requires value { value ≡ digits_value 10 (take end text.now) }
    ensures { IfSome result (λ x. text.now ≡ decimal x.0 ++ 10 ∷ x.1.now) }
{
    if end == 0 || (text[0] == b'0' && end != 1) {
        return None;
    }
    let (_, rest) = text.split_at(end + 1);
    Some((value, rest))
}

/// The number that is the first line of the text, and the text after the LF of this line. `None` if the line is no number up to 2^64 - 1
/// without leading zeros.
fn parse_number(text: &[u8]) -> Option<(u64, &[u8])>
    ensures { IfSome result (λ x. text.now ≡ decimal x.0 ++ 10 ∷ x.1.now) }
{
    let mut value = 0u64;
    for at in 0..text.len() {
        let byte = text[at];
        if byte == b'\n' {
            return finish_number(text, at, value);
        }
        if !byte.is_ascii_digit() {
            return None;
        }
        let digit = u64::from(byte - b'0');
        value = value.checked_mul(10)?.checked_add(digit)?;
    }
    None
}

/// The two names and the number that are the first line of the text, separated by single blanks, and the text after the LF of this line.
pub fn parse_names_and_number(text: &[u8]) -> Option<((&str, &str, u64), &[u8])>
    // Both names are identifiers.
    ensures names { IfSome result (λ x. (is_name x.0.0.now ≡ true) × (is_name x.0.1.now ≡ true)) }
    // The text is the names and the number with single blanks between them, an LF, and the rest.
    ensures text { IfSome result (λ x. text.now ≡ x.0.0.now ++ 32 ∷ (x.0.1.now ++ 32 ∷ (decimal x.0.2 ++ 10 ∷ x.1.now))) }
{
    let (from, rest) = parse_name(text)?;
    let (to, rest) = parse_name(strip_byte(rest, b' ')?)?;
    let (amount, rest) = parse_number(strip_byte(rest, b' ')?)?;
    Some(((from, to, amount), rest))
}
