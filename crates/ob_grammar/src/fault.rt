//! The errors of the parser, and the largest depth of nesting.

ghost use Rattle.std.specs.Prelude.{◌≡◌, slice_get};
ghost use Rattle.ob_grammar.specs.Ends.{fault_of_stop};
ghost use Rattle.ob_grammar.specs.Parsed.{start_or};

use crate::stop::Stop;
use ob_scan::Token;
use std::alloc::AllocError;
use thiserror::Error;

/// The largest depth of nesting. Procedure declarations, types, statements that are not empty, expressions and factors after `~` are
/// levels.
pub const MAX_DEPTH: u32 = 200;

/// Why there is no tree. Offsets are in bytes, from 0.
#[derive(Clone, Copy, Debug, PartialEq, Eq, Error)]
pub enum ParseFault {
    /// No tree derives the tokens. Parsing from the left, the token at this offset is the first wrong one. If the text ends too early, the
    /// offset is the length of the text.
    #[error("the token at {offset} is wrong")]
    Syntax { offset: u32 },
    /// A name after an END differs from the name of its module or procedure. The first wrong name begins at this offset.
    #[error("the name at {offset} is not that of its module or procedure")]
    EndName { offset: u32 },
    /// No tree of at most 200 levels derives the tokens. Parsed from the left, the token at this offset begins a construct for which no
    /// level is left. A token there that begins no construct is a Syntax error.
    #[error("the construct at {offset} is nested too deep")]
    TooDeep { offset: u32 },
    /// An allocation failed.
    #[error("memory ran out")]
    Memory,
}

impl From<AllocError> for ParseFault {
    ghost use Rattle.ob_grammar.specs.declared.fault.ParseFault.TheVariants.{Memory};

    ghost from_gives = { λ _ fault. fault ≡ Memory };

    fn from(_error: AllocError) -> ParseFault {
        ParseFault::Memory
    }
}

/// The offset of the token with this index, or `end` if there is none.
fn token_offset(end: u32, tokens: &[Token], number: u32) -> u32
    ensures { result ≡ start_or end (slice_get tokens.now number) }
{
    match tokens.get(number as usize) {
        None => end,
        Some(token) => token.start,
    }
}

/// The error of a text of `end` bytes for which the parser stopped with `stop`: the offset of the token, or `end` if there is none.
pub fn stop_fault(end: u32, tokens: &[Token], stop: Stop) -> ParseFault
    // The result is exactly the error for this stop.
    ensures { result ≡ fault_of_stop end tokens.now stop }
{
    match stop {
        Stop::Unexpected(input) => ParseFault::Syntax {
            offset: token_offset(end, tokens, input.number()),
        },
        Stop::TooDeep(input) => match tokens.get(input.number() as usize) {
            None => ParseFault::Syntax { offset: end },
            Some(token) => ParseFault::TooDeep {
                offset: token.start,
            },
        },
        Stop::Memory => ParseFault::Memory,
    }
}
