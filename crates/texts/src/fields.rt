//! The fields of a line: the bytes before a separator, names, and decimal numbers.
ghost use Rattle.std.specs.Prelude.{◌≡◌, ◌==◌, ℕ, option_map};
ghost use Rattle.std.specs.List.{list_all, position};
ghost use Rattle.std.specs.Char.{is_ascii_alphanumeric, is_ascii_digit};
ghost use Rattle.texts.specs.Fields.{split_at_first, decimal_u64, is_name, named, number_of};

/// The index of the first occurrence of `byte`.
fn index_of(bytes: &[u8], byte: u8) -> Option<usize>
    ensures { result ≡ position (λ b. b == byte) bytes.now }
{
    bytes.iter().position(|b| *b == byte)
}

/// The bytes before and after the first `stop`, or `None` if `stop` doesn't occur.
#[tactic(auto, using(crate::proofs::FieldCuts::cut_is))]
pub fn split_at_byte(bytes: &[u8], stop: u8) -> Option<(&[u8], &[u8])>
    // The bytes before and after the first `stop`, or `None` if `stop` doesn't occur.
    ensures { option_map (λ parts. (parts.0.now, parts.1.now)) result ≡ split_at_first stop bytes.now }
{
    let at = index_of(bytes, stop)?;
    let (before, _) = bytes.split_at(at);
    let (_, after) = bytes.split_at(at + 1);
    Some((before, after))
}

/// Whether all bytes are ASCII letters or digits.
fn is_alphanumeric(bytes: &[u8]) -> bool
    ensures { result ≡ list_all is_ascii_alphanumeric bytes.now }
{
    bytes.iter().all(|b| b.is_ascii_alphanumeric())
}

/// Whether the bytes are an identifier: a letter, followed by letters and digits (Oberon-07 report, section 3).
pub fn is_identifier(bytes: &[u8]) -> bool
    ensures { result ≡ is_name bytes.now }
{
    match bytes.split_first() {
        None => false,
        Some((first, others)) => first.is_ascii_alphabetic() && is_alphanumeric(others),
    }
}

/// The number that the decimal digits denote, 0 if there is no digit. Leading zeros are allowed. `None` if a byte is no digit or the
/// number exceeds 2^64 - 1.
#[tactic(auto, unfolding(crate::specs::Fields::decimal_u64))]
fn parse_decimal_digits(bytes: &[u8]) -> Option<u64>
    ensures { result ≡ decimal_u64 bytes.now }
{
    let mut value = 0u64;
    for byte in bytes {
        if !byte.is_ascii_digit() {
            return None;
        }
        let digit = u64::from(*byte - b'0');
        value = value.checked_mul(10)?.checked_add(digit)?;
    }
    Some(value)
}

/// The number up to 2^64 - 1 that the decimal digits denote, or `None`. Leading zeros are rejected, so each number has one form.
#[tactic(auto, unfolding(crate::specs::Fields::number_of, crate::specs::Fields::decimal_u64))]
pub fn parse_field_number(bytes: &[u8]) -> Option<u64>
    ensures { result ≡ number_of bytes.now }
{
    if !bytes.is_empty() && (bytes[0] != b'0' || bytes.len() == 1) {
        parse_decimal_digits(bytes)
    } else {
        None
    }
}

/// The bytes as a string slice, or `None` if they are no identifier (Oberon-07 report, section 3).
pub fn parse_field_name(bytes: &[u8]) -> Option<&str>
    ensures { option_map (λ name. name.now) result ≡ named bytes.now }
{
    if !is_identifier(bytes) {
        return None;
    }
    // An identifier is ASCII, so the bytes are UTF-8 and are not validated again.
    Some(unsafe { std::str::from_utf8_unchecked(bytes) })
}
