//! The labels of a case (Oberon-07 report, section 9.5).

ghost use Rattle.std.specs.Prelude.{◌≡◌};
ghost use Rattle.ob_grammar.specs.Lookahead.{uncons, head_is};
ghost use Rattle.ob_grammar.specs.ParsesAs.{remaining};
ghost use Rattle.ob_grammar.specs.ReadStatements.{label_first};

use crate::cursor::Cursor;
use ob_scan::Token;
use ob_tree::expression::Literal;
use ob_tree::token::Leaf;

/// Whether a label begins here.
pub fn begins_label(tokens: &[Token], input: Cursor) -> bool
    // Exactly if the next token is an identifier, an integer or a string.
    ensures { result ≡ head_is label_first (uncons (remaining tokens.now input)) }
{
    match input.next(tokens) {
        Some((Leaf::Name(_), _)) => true,
        Some((Leaf::Value(Literal::Integer, _), _)) => true,
        Some((Leaf::Value(Literal::Text, _), _)) => true,
        _ => false,
    }
}
