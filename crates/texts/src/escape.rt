//! Escapes of control characters.
ghost use Rattle.std.specs.Prelude.{◌≡◌, ◌<◌, ◌++◌, IfOk, OnOk, true};
ghost use Rattle.std.specs.Char.{digit_char, encode_utf8, is_ascii_control};
ghost use Rattle.std.specs.List.{list_any};
ghost use Rattle.std.specs.String.{string_bytes};
ghost use Rattle.texts.specs.Escapes.{escape_of, escaped, hex_escape};

use std::alloc::{AllocError, Global};

/// Whether the text has a control character.
pub(crate) fn has_control(text: &[u8]) -> bool
    ensures { result ≡ list_any is_ascii_control text.now }
{
    text.iter().any(|byte| byte.is_ascii_control())
}

/// The lower-case hexadecimal digit of a value below 16.
fn hex_digit(value: u32) -> char
    requires { value < 16 }
    ensures { result ≡ digit_char value }
{
    match char::from_digit(value, 16) {
        Some(digit) => digit,
        None => unreachable!(),
    }
}

/// Appends `\x` and the code in two lower-case hexadecimal digits.
fn append_hex(out: &mut String, code: u32) -> Result<(), AllocError>
    requires { code < 128 }
    ensures { OnOk result (string_bytes out.new ≡ string_bytes out.old ++ hex_escape code) }
{
    out.push_str("\\x")?;
    out.push(hex_digit(code / 16))?;
    out.push(hex_digit(code % 16))
}

/// Appends the escape of a control character.
fn append_escape(out: &mut String, control: char) -> Result<(), AllocError>
    requires { is_ascii_control control ≡ true }
    ensures { OnOk result (string_bytes out.new ≡ string_bytes out.old ++ escape_of control) }
{
    match control {
        '\t' => out.push_str("\\t"),
        '\n' => out.push_str("\\n"),
        '\r' => out.push_str("\\r"),
        _ => append_hex(out, u32::from(control)),
    }
}

/// Appends a character, or its escape if it is a control character.
fn append_char(out: &mut String, character: char) -> Result<(), AllocError>
    ensures { OnOk result (string_bytes out.new ≡ string_bytes out.old ++ escaped (encode_utf8 character)) }
{
    if character.is_ascii_control() {
        append_escape(out, character)
    } else {
        out.push(character)
    }
}

/// Appends the characters of the text, control characters as their escapes.
fn append_chars(out: &mut String, text: &str) -> Result<(), AllocError>
    ensures { OnOk result (string_bytes out.new ≡ string_bytes out.old ++ escaped text.now) }
{
    for character in text.chars() {
        append_char(out, character)?;
    }
    Ok(())
}

/// The text with its control characters escaped: `\t`, `\n` and `\r`, and `\x` with two lower-case hexadecimal digits for 127 and each
/// other character below 32. Every other byte is copied, a backslash too. Fails if an allocation does.
pub fn escaped(alloc: Global, text: &str) -> Result<String, AllocError>
    // The result is the escaped text.
    ensures { IfOk result (λ out. string_bytes out ≡ escaped text.now) }
{
    let mut out = String::new(alloc);
    append_chars(&mut out, text)?;
    Ok(out)
}
