//! The main loop of the scanner.
ghost use Rattle.std.specs.Prelude.{◌≡◌, ◌≤◌, [], length, List, Result};
ghost use Rattle.ob_scan.specs.declared.fault.ScanFault.{ScanFault};
ghost use Rattle.ob_scan.specs.declared.token.Token.{Token};
ghost use Rattle.ob_scan.specs.Faults.{HasOutcome};
ghost use Rattle.ob_scan.specs.Spelling.{IsOutcome};

use crate::lexeme::{Lexeme, begins_blank, first_lexeme};
use crate::{ScanFault, Token, Tokens};
use std::alloc::Global;

/// The largest length of a module in bytes.
const MAX_BYTES: usize = 16_777_216;

/// The largest initial capacity of the list of tokens.
const MAX_INITIAL_CAPACITY: usize = 4096;

/// An empty list of tokens with capacity for the usual number, one for four bytes, but for at most 4,096. If the allocation fails, the
/// list has no capacity, and `push` allocates.
fn token_buffer(alloc: Global, bytes: usize) -> Vec<Token>
    ensures { result.items ≡ [] }
{
    match Vec::with_capacity(alloc, (bytes / 4).min(MAX_INITIAL_CAPACITY)) {
        Ok(tokens) => tokens,
        Err(_) => Vec::new(alloc),
    }
}

/// The list, shrunk to its length if its capacity is at least twice its length, as after a text of mostly blanks and comments. If the
/// allocation of the smaller list fails, the larger list is returned.
fn shrink_tokens(tokens: Vec<Token>) -> Tokens
    ensures { result ≡ tokens.items }
{
    let mut list = tokens;
    if list.capacity() / 2 >= list.len() {
        list.shrink_to_fit();
    }
    Tokens::from_items(list)
}

/// The tokens of a text whose length was checked.
fn scan_tokens(alloc: Global, bytes: &[u8]) -> Result<Tokens, ScanFault>
    requires { length bytes.now ≤ 16777216 }
    ensures { HasOutcome result (IsOutcome bytes.now) }
{
    let mut tokens = token_buffer(alloc, bytes.len());
    let mut at = 0;
    'lexemes: while at < bytes.len() {
        let rest = &bytes[at..];
        // A third of the bytes of most texts are blanks. This test skips them faster; `first_lexeme` would return a gap of length 1.
        if begins_blank(rest) {
            at += 1;
            continue;
        }
        match first_lexeme(rest) {
            Lexeme::Gap(n) => at += n,
            Lexeme::Token(kind, n) => {
                tokens.push(Token {
                    kind,
                    start: at as u32,
                    end: (at + n) as u32,
                })?;
                at += n;
            }
            Lexeme::Nothing(reason) => return Err(reason.at(at as u32)),
        }
    }
    Ok(shrink_tokens(tokens))
}

/// The tokens of a module, or its first error: TooLong for more than 16,777,216 bytes, checked first; else the scan error with the
/// smallest offset; Memory if an allocation failed.
pub fn scan(alloc: Global, bytes: &[u8]) -> Result<Tokens, ScanFault>
    // Unless an allocation fails, the tokens spell the bytes, or the bytes have the returned error.
    ensures exact { HasOutcome result (IsOutcome bytes.now) }
    // An outcome that the bytes have is returned, unless an allocation fails.
    ensures only { (o : Result (List Token) ScanFault) → IsOutcome bytes.now o → HasOutcome result (λ p. p ≡ o) }
{
    if bytes.len() > MAX_BYTES {
        return Err(ScanFault::TooLong);
    }
    scan_tokens(alloc, bytes)
}
