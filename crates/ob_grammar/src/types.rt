//! Types (Oberon-07 report, section 6).

ghost use Rattle.std.specs.Prelude.{◌≡◌, ◌+◌, ◌++◌, IfOk, IfSome};
ghost use Rattle.ob_scan.specs.declared.kind.Kind.TheVariants as kinds;
ghost use Rattle.ob_tree.specs.TreeEvents.{word, if_present};
ghost use Rattle.ob_tree.specs.Names.{qualident_events};
ghost use Rattle.ob_tree.specs.Widths.{base_width};
ghost use Rattle.ob_grammar.specs.Lookahead.{head_is, uncons};
ghost use Rattle.ob_grammar.specs.Combinators.{optional, accept_at, expect_at, seq};
ghost use Rattle.ob_grammar.specs.ReadNames.{qualident_at};
ghost use Rattle.ob_grammar.specs.ReadTypes.{type_first, field_start};
ghost use Rattle.ob_grammar.specs.ParsesAs.{ParsesAs, remaining, skipped};

use crate::cursor::Cursor;
use crate::names::qualident;
use crate::stop::Stop;
use crate::tokens::{accept, expect};
use ob_scan::{Kind, Token};
use ob_tree::name::Qualident;
use ob_tree::token::Leaf;

/// Whether a type begins here.
pub fn begins_type(tokens: &[Token], input: Cursor) -> bool
    // True exactly if a type can begin with the next token.
    ensures { result ≡ head_is type_first (uncons (remaining tokens.now input)) }
{
    match input.next(tokens) {
        Some((Leaf::Name(_), _)) => true,
        Some((Leaf::Word(Kind::Array), _)) => true,
        Some((Leaf::Word(Kind::Record), _)) => true,
        Some((Leaf::Word(Kind::Pointer), _)) => true,
        Some((Leaf::Word(Kind::Procedure), _)) => true,
        _ => false,
    }
}

/// The cursor after a semicolon, if a semicolon is next and an identifier, with which a field list begins, follows it. Here alone the
/// grammar needs two tokens of look-ahead.
#[inline(always)]
#[tactic(auto, unfolding(crate::specs::ReadTypes::field_start))]
pub fn accept_field_separator(tokens: &[Token], input: Cursor) -> Option<Cursor>
    // The result is exactly what the grammar reads here.
    ensures read { skipped tokens.now kinds.Semicolon result ≡ field_start (remaining tokens.now input) }
    // The cursor is one token further.
    ensures number { IfSome result (λ rest. rest.at ≡ input.at + 1) }
{
    match input.next(tokens) {
        Some((Leaf::Word(Kind::Semicolon), rest)) => match rest.next(tokens) {
            Some((Leaf::Name(_), _)) => Some(rest),
            _ => None,
        },
        _ => None,
    }
}

/// Parses the base of a record in parentheses, if an opening parenthesis is next.
#[inline(always)]
pub fn base(tokens: &[Token], input: Cursor) -> Result<(Option<Qualident>, Cursor), Stop>
    // The result is the base and the remaining tokens that the grammar reads, or the grammar's error.
    ensures read { ParsesAs tokens.now (λ x. (if_present (λ q. word kinds.LeftParen ++ (qualident_events q ++ word kinds.RightParen)) x.0, remaining tokens.now x.1)) result
        (optional (accept_at kinds.LeftParen) (seq qualident_at (expect_at kinds.RightParen)) (remaining tokens.now input)) }
    // The cursor is advanced by these tokens.
    ensures number { IfOk result (λ x. x.1.at ≡ input.at + base_width x.0) }
{
    match accept(tokens, input, Kind::LeftParen) {
        Some(rest) => {
            let (base, rest) = qualident(tokens, rest)?;
            let rest = expect(tokens, rest, Kind::RightParen)?;
            Ok((Some(base), rest))
        }
        None => Ok((None, input)),
    }
}
