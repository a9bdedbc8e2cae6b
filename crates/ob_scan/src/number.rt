//! Tokens that begin with a digit (Oberon-07 report, section 3).
ghost use Rattle.std.specs.Prelude.{◌≡◌, ◌≤◌, ◌<◌, length, true, IfSome};
ghost use Rattle.ob_scan.specs.Numbers.{begins_digit, decimal_of, digit_count, fraction_of, hex_digit_count, begins_with_byte, number_token};

use crate::Kind;

/// The number of hexadecimal digits that the bytes begin with.
fn hex_digit_count(rest: &[u8]) -> usize
    ensures value { result ≡ hex_digit_count rest.now }
    ensures within { result ≤ length rest.now }
{
    rest.iter()
        .take_while(|b| b.is_ascii_digit() || (**b >= b'A' && **b <= b'F'))
        .count()
}

/// The number of digits that the bytes begin with.
fn digit_count(rest: &[u8]) -> usize
    ensures value { result ≡ digit_count rest.now }
    ensures within { result ≤ length rest.now }
{
    rest.iter().take_while(|b| b.is_ascii_digit()).count()
}

/// Whether the bytes begin with this byte.
fn begins_with_byte(rest: &[u8], byte: u8) -> bool
    ensures value { result ≡ begins_with_byte byte rest.now }
    ensures some { result ≡ true → 0 < length rest.now }
{
    match rest {
        [first, ..] => *first == byte,
        [] => false,
    }
}

/// The token of a real number whose digits and point are the first n bytes, with the scale factor that follows, if there is one. `None`
/// if an `E` has no digits.
fn real_token(bytes: &[u8], n: usize) -> Option<(Kind, usize)>
    requires { n ≤ length bytes.now }
    ensures value { result ≡ fraction_of n bytes.now }
    ensures least { IfSome result (λ x. n ≤ x.1) }
    ensures within { IfSome result (λ x. x.1 ≤ length bytes.now) }
{
    match &bytes[n..] {
        [b'E', rest @ ..] => {
            let sign = match rest {
                [b'+' | b'-', ..] => 1,
                _ => 0,
            };
            match digit_count(&rest[sign..]) {
                0 => None,
                digit_count => Some((Kind::Real, n + 1 + sign + digit_count)),
            }
        }
        _ => Some((Kind::Real, n)),
    }
}

/// The token of a number without a letter, whose first n bytes are digits: an integer, or a real number if exactly one point follows.
fn decimal_token(bytes: &[u8], n: usize) -> Option<(Kind, usize)>
    requires { n ≤ length bytes.now }
    ensures value { result ≡ decimal_of n bytes.now }
    ensures least { IfSome result (λ x. n ≤ x.1) }
    ensures within { IfSome result (λ x. x.1 ≤ length bytes.now) }
{
    if !begins_with_byte(&bytes[n..], b'.') {
        return Some((Kind::Integer, n));
    }
    if begins_with_byte(&bytes[n + 1..], b'.') {
        return Some((Kind::Integer, n));
    }
    real_token(bytes, n + 1 + digit_count(&bytes[n + 1..]))
}

/// The kind and the length of the token that the bytes begin with, or `None` if the digits form no number. The first byte is a digit.
#[tactic(auto, using(crate::proofs::Numbers::hex_digits_some))]
pub(crate) fn number_token(bytes: &[u8]) -> Option<(Kind, usize)>
    requires { begins_digit bytes.now ≡ true }
    ensures value { result ≡ number_token bytes.now }
    // The token is not empty.
    ensures some { IfSome result (λ x. 0 < x.1) }
    ensures within { IfSome result (λ x. x.1 ≤ length bytes.now) }
{
    let n = hex_digit_count(bytes);
    match &bytes[n..] {
        [b'H', ..] => Some((Kind::Integer, n + 1)),
        [b'X', ..] => Some((Kind::Text, n + 1)),
        _ if digit_count(bytes) == n => decimal_token(bytes, n),
        _ => None,
    }
}
