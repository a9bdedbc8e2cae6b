//! Operators, and the first tokens of expressions, factors and selectors (Oberon-07 report, section 8). The functions of operators parse
//! an operator if it is the next token.

ghost use Rattle.std.specs.Prelude.{◌≡◌, ◌+◌, Ok, is_some, IfSome, if◌then◌else◌};
ghost use Rattle.ob_tree.specs.TreeEvents.{word, if_present};
ghost use Rattle.ob_tree.specs.Expressions.{sign_kind};
ghost use Rattle.ob_grammar.specs.Lookahead.{uncons, head_is};
ghost use Rattle.ob_grammar.specs.Combinators.{nothing, optional};
ghost use Rattle.ob_grammar.specs.ParsesAs.{remaining, with_remaining};
ghost use Rattle.ob_grammar.specs.ReadExpressions.{relation_at, add_at, mul_at, sign_start, expr_first, factor_first, selector_first};

use crate::cursor::Cursor;
use ob_scan::{Kind, Token};
use ob_tree::expression::{AddOperator, MulOperator, Relation, Sign};
use ob_tree::token::Leaf;

/// The relation that is next, if one is, and the cursor after it.
#[tactic(auto, unfolding(crate::specs::ReadExpressions::relation_at))]
pub fn relation(tokens: &[Token], input: Cursor) -> Option<(Relation, Cursor)>
    // The result is exactly what the grammar reads here.
    ensures read { with_remaining tokens.now result ≡ relation_at (remaining tokens.now input) }
    // The cursor is advanced by the token, if there is one.
    ensures number { IfSome result (λ x. x.1.at ≡ input.at + 1) }
{
    let (leaf, rest) = input.next(tokens)?;
    let relation = match leaf {
        Leaf::Word(Kind::Equals) => Relation::Equal,
        Leaf::Word(Kind::Hash) => Relation::Unequal,
        Leaf::Word(Kind::Less) => Relation::Less,
        Leaf::Word(Kind::LessEquals) => Relation::LessEqual,
        Leaf::Word(Kind::Greater) => Relation::Greater,
        Leaf::Word(Kind::GreaterEquals) => Relation::GreaterEqual,
        Leaf::Word(Kind::In) => Relation::In,
        Leaf::Word(Kind::Is) => Relation::Is,
        _ => return None,
    };
    Some((relation, rest))
}

/// The sign that is next, if one is, and the cursor after it.
#[tactic(auto, unfolding(crate::specs::ReadExpressions::sign_at))]
pub fn sign(tokens: &[Token], input: Cursor) -> (Option<Sign>, Cursor)
    // The result is exactly what the grammar reads here.
    ensures read { Ok (if_present (λ x. word (sign_kind x)) result.0, remaining tokens.now result.1) ≡ optional sign_start nothing (remaining tokens.now input) }
    // The cursor is advanced by the token, if there is one.
    ensures number { result.1.at ≡ input.at + (if is_some result.0 then 1 else 0) }
{
    match input.next(tokens) {
        Some((Leaf::Word(Kind::Plus), rest)) => (Some(Sign::Plus), rest),
        Some((Leaf::Word(Kind::Minus), rest)) => (Some(Sign::Minus), rest),
        _ => (None, input),
    }
}

/// The operator between terms that is next, if one is, and the cursor after it.
#[tactic(auto, unfolding(crate::specs::ReadExpressions::add_at))]
pub fn parse_add_operator(tokens: &[Token], input: Cursor) -> Option<(AddOperator, Cursor)>
    // The result is exactly what the grammar reads here.
    ensures read { with_remaining tokens.now result ≡ add_at (remaining tokens.now input) }
    // The cursor is advanced by the token, if there is one.
    ensures number { IfSome result (λ x. x.1.at ≡ input.at + 1) }
{
    match input.next(tokens) {
        Some((Leaf::Word(Kind::Plus), rest)) => Some((AddOperator::Plus, rest)),
        Some((Leaf::Word(Kind::Minus), rest)) => Some((AddOperator::Minus, rest)),
        Some((Leaf::Word(Kind::Or), rest)) => Some((AddOperator::Or, rest)),
        _ => None,
    }
}

/// The operator between factors that is next, if one is, and the cursor after it.
#[tactic(auto, unfolding(crate::specs::ReadExpressions::mul_at))]
pub fn parse_mul_operator(tokens: &[Token], input: Cursor) -> Option<(MulOperator, Cursor)>
    // The result is exactly what the grammar reads here.
    ensures read { with_remaining tokens.now result ≡ mul_at (remaining tokens.now input) }
    // The cursor is advanced by the token, if there is one.
    ensures number { IfSome result (λ x. x.1.at ≡ input.at + 1) }
{
    match input.next(tokens) {
        Some((Leaf::Word(Kind::Star), rest)) => Some((MulOperator::Times, rest)),
        Some((Leaf::Word(Kind::Slash), rest)) => Some((MulOperator::Divide, rest)),
        Some((Leaf::Word(Kind::Div), rest)) => Some((MulOperator::Div, rest)),
        Some((Leaf::Word(Kind::Mod), rest)) => Some((MulOperator::Mod, rest)),
        Some((Leaf::Word(Kind::Ampersand), rest)) => Some((MulOperator::And, rest)),
        _ => None,
    }
}

/// Whether a selector begins here.
pub fn begins_selector(tokens: &[Token], input: Cursor) -> bool
    // Exactly if the next token can begin a selector.
    ensures { result ≡ head_is selector_first (uncons (remaining tokens.now input)) }
{
    match input.next(tokens) {
        Some((Leaf::Word(Kind::Dot), _)) => true,
        Some((Leaf::Word(Kind::LeftBracket), _)) => true,
        Some((Leaf::Word(Kind::Caret), _)) => true,
        Some((Leaf::Word(Kind::LeftParen), _)) => true,
        _ => false,
    }
}

/// Whether a factor begins here.
pub fn begins_factor(tokens: &[Token], input: Cursor) -> bool
    // Exactly if the next token can begin a factor.
    ensures { result ≡ head_is factor_first (uncons (remaining tokens.now input)) }
{
    match input.next(tokens) {
        Some((Leaf::Name(_), _)) => true,
        Some((Leaf::Value(_, _), _)) => true,
        Some((Leaf::Word(Kind::Nil), _)) => true,
        Some((Leaf::Word(Kind::True), _)) => true,
        Some((Leaf::Word(Kind::False), _)) => true,
        Some((Leaf::Word(Kind::LeftBrace), _)) => true,
        Some((Leaf::Word(Kind::LeftParen), _)) => true,
        Some((Leaf::Word(Kind::Tilde), _)) => true,
        _ => false,
    }
}

/// Whether an expression begins here.
pub fn begins_expression(tokens: &[Token], input: Cursor) -> bool
    // Exactly if the next token can begin an expression.
    ensures { result ≡ head_is expr_first (uncons (remaining tokens.now input)) }
{
    match input.next(tokens) {
        Some((Leaf::Word(Kind::Plus), _)) => true,
        Some((Leaf::Word(Kind::Minus), _)) => true,
        _ => begins_factor(tokens, input),
    }
}
