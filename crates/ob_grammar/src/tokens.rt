//! Single tokens: required, optional, or tested.

ghost use Rattle.std.specs.Prelude.{◌≡◌, ◌+◌, Ok, IfOk, IfSome, if◌then◌else◌};
ghost use Rattle.ob_grammar.specs.Lookahead.{uncons, head_is, is_word};
ghost use Rattle.ob_grammar.specs.Combinators.{expect_at, accept_at, identifier_at, limited, nothing, optional};
ghost use Rattle.ob_grammar.specs.ParsesAs.{Fails, ParsesAs, remaining, skipped};
ghost use Rattle.ob_tree.specs.TreeEvents.{if_true, word};

use crate::cursor::Cursor;
use crate::stop::Stop;
use ob_scan::{Kind, Token};
use ob_tree::token::Leaf;

/// The cursor after the next token, if it is the reserved word or delimiter `kind`; else the error Unexpected.
#[tactic(auto, unfolding(crate::specs::Combinators::expect_at))]
pub fn expect(tokens: &[Token], input: Cursor, kind: Kind) -> Result<Cursor, Stop>
    // Exactly what the grammar reads, or the grammar's error.
    ensures read { ParsesAs tokens.now (λ rest. (word kind, remaining tokens.now rest)) result (expect_at kind (remaining tokens.now input)) }
    // The cursor is advanced by the token, if it is taken.
    ensures number { IfOk result (λ rest. rest.at ≡ input.at + 1) }
{
    match input.next(tokens) {
        Some((Leaf::Word(found), rest)) if found == kind => Ok(rest),
        _ => Err(Stop::Unexpected(input)),
    }
}

/// The cursor after the next token, if it is the reserved word or delimiter `kind`; else `None`.
#[tactic(auto, unfolding(crate::specs::Combinators::accept_at))]
pub fn accept(tokens: &[Token], input: Cursor, kind: Kind) -> Option<Cursor>
    // The result is exactly what the grammar reads here.
    ensures read { skipped tokens.now kind result ≡ accept_at kind (remaining tokens.now input) }
    // The cursor is advanced by the token, if it is taken.
    ensures number { IfSome result (λ rest. rest.at ≡ input.at + 1) }
{
    match input.next(tokens) {
        Some((Leaf::Word(found), rest)) if found == kind => Some(rest),
        _ => None,
    }
}

/// Whether the next token is the reserved word or delimiter `kind`. If so, the returned cursor is after this token, else it is `input`.
pub fn skip(tokens: &[Token], input: Cursor, kind: Kind) -> (bool, Cursor)
    // The result is exactly what the grammar reads here.
    ensures read { Ok (if_true result.0 (word kind), remaining tokens.now result.1) ≡ optional (accept_at kind) nothing (remaining tokens.now input) }
    // The cursor is advanced by the token, if it is taken.
    ensures number { result.1.at ≡ input.at + (if result.0 then 1 else 0) }
{
    match accept(tokens, input, kind) {
        None => (false, input),
        Some(rest) => (true, rest),
    }
}

/// Whether the next token is of this kind.
pub fn next_is(tokens: &[Token], input: Cursor, kind: Kind) -> bool
    // True exactly if the next token is the reserved word or delimiter `kind`.
    ensures { result ≡ head_is (is_word kind) (uncons (remaining tokens.now input)) }
{
    match input.next(tokens) {
        Some((Leaf::Word(found), _)) => found == kind,
        _ => false,
    }
}

/// The index of the next token, which has to be an identifier, and the cursor after it.
#[tactic(auto, unfolding(crate::specs::Combinators::identifier_at))]
pub fn identifier(tokens: &[Token], input: Cursor) -> Result<(u32, Cursor), Stop>
    // Exactly what the grammar reads, or the grammar's error.
    ensures read { ParsesAs tokens.now (λ x. (x.0, remaining tokens.now x.1)) result (identifier_at (remaining tokens.now input)) }
    // The cursor is advanced by the token, if it is taken.
    ensures number { IfOk result (λ x. x.1.at ≡ input.at + 1) }
{
    match input.next(tokens) {
        Some((Leaf::Name(number), rest)) => Ok((number, rest)),
        _ => Err(Stop::Unexpected(input)),
    }
}

/// The error if no level of nesting is left: TooDeep if a construct begins here (`begins`), else Unexpected.
pub fn depth_stop(tokens: &[Token], input: Cursor, begins: bool) -> Stop
    // The result is the error of the grammar.
    ensures { Fails tokens.now result (limited begins (uncons (remaining tokens.now input))) }
{
    if begins {
        Stop::TooDeep(input)
    } else {
        Stop::Unexpected(input)
    }
}
