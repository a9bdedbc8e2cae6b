//! The bytes of tokens, by their indices.
ghost use Rattle.std.specs.Prelude.{◌≡◌, IfOk};
ghost use Rattle.std.specs.Str.{IsUtf8};
ghost use Rattle.std.specs.String.{string_bytes};
ghost use Rattle.ob_scan.specs.Spelling.{AreInText};
ghost use Rattle.ob_scan.specs.Texts.{text_at, token_at};

use crate::Token;
use std::alloc::{AllocError, Global};

/// The bytes of a file and its tokens, for lookups by the index of a token.
#[derive(Clone, Copy)]
pub struct TokenTexts<'a> {
    pub bytes: &'a [u8],
    pub tokens: &'a [Token],
}

impl<'a> TokenTexts<'a> {
    /// The bytes of a token; empty if no token has this index.
    pub fn token_text(&self, number: u32) -> &'a [u8]
        // The tokens are in bounds, in order and disjoint, as the tokens are that the bytes spell.
        requires { AreInText self.now.bytes.now self.now.tokens.now }
        // The result is exactly the bytes of the token.
        ensures { result.now ≡ text_at self.now.bytes.now self.now.tokens.now number }
    {
        match self.tokens.get(number as usize) {
            Some(token) => &self.bytes[token.start as usize..token.end as usize],
            None => &self.bytes[..0],
        }
    }

    /// The offset of the first byte of a token; 0 if no token has this index.
    pub fn start(&self, number: u32) -> u32
        ensures { result ≡ (token_at self.now.tokens.now number).start }
    {
        match self.tokens.get(number as usize) {
            Some(token) => token.start,
            None => 0,
        }
    }

    /// The offset after the last byte of a token; 0 if no token has this index.
    pub fn end(&self, number: u32) -> u32
        ensures { result ≡ (token_at self.now.tokens.now number).end }
    {
        match self.tokens.get(number as usize) {
            Some(token) => token.end,
            None => 0,
        }
    }

    /// The bytes of a token as a string. Nothing is promised of the string if the bytes are not UTF-8. Fails if an allocation fails.
    pub fn string(&self, alloc: Global, number: u32) -> Result<String, AllocError>
        // The tokens are in bounds, in order and disjoint, as the tokens are that the bytes spell.
        requires { AreInText self.now.bytes.now self.now.tokens.now }
        // The string has the token's bytes, if they are UTF-8. The bytes of an identifier are.
        ensures { IfOk result (λ s. IsUtf8 (text_at self.now.bytes.now self.now.tokens.now number) → string_bytes s ≡ text_at self.now.bytes.now self.now.tokens.now number) }
    {
        String::from_utf8_lossy(alloc, self.token_text(number))
    }
}
