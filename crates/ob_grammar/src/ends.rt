//! Comparison of the names after END.

ghost use Rattle.std.specs.Prelude.{◌≡◌, ◌<◌, ◌≤◌, length};
ghost use Rattle.std.specs.List.{All};
ghost use Rattle.ob_grammar.specs.Ends.{IsEnd, IsInText};
ghost use Rattle.ob_scan.specs.Texts.{bytes_of};

use ob_scan::Token;

/// The bytes of a token.
fn token_bytes<'a>(bytes: &'a [u8], token: Token) -> &'a [u8]
    requires { (token.start ≤ token.end) × (token.end ≤ length bytes.now) }
    ensures { result.now ≡ bytes_of bytes.now token }
{
    &bytes[token.start as usize..token.end as usize]
}

/// Whether the name after END, the token `end`, has the bytes of the token `name` of its module or procedure.
pub fn names_match(bytes: &[u8], tokens: &[Token], name: u32, end: u32) -> bool
    // `name` and `end` are indices of tokens.
    requires in_range { (name < length tokens.now) × (end < length tokens.now) }
    // The tokens are in the bounds of the bytes.
    requires in_text { All (IsInText bytes.now) tokens.now }
    // True exactly if the two tokens have equal bytes.
    ensures { IsEnd bytes.now tokens.now result (name, end) }
{
    token_bytes(bytes, tokens[name as usize]) == token_bytes(bytes, tokens[end as usize])
}
