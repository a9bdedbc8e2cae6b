//! Statements (Oberon-07 report, section 9).

ghost use Rattle.std.specs.Prelude.{◌≡◌};
ghost use Rattle.ob_grammar.specs.Lookahead.{uncons, head_is};
ghost use Rattle.ob_grammar.specs.ParsesAs.{remaining};
ghost use Rattle.ob_grammar.specs.ReadStatements.{statement_first};

use crate::cursor::Cursor;
use ob_scan::{Kind, Token};
use ob_tree::token::Leaf;

/// Whether a statement that is not empty begins here.
pub fn begins_statement(tokens: &[Token], input: Cursor) -> bool
    // True exactly if a statement can begin with the next token.
    ensures { result ≡ head_is statement_first (uncons (remaining tokens.now input)) }
{
    match input.next(tokens) {
        Some((Leaf::Name(_), _)) => true,
        Some((Leaf::Word(Kind::If), _)) => true,
        Some((Leaf::Word(Kind::Case), _)) => true,
        Some((Leaf::Word(Kind::While), _)) => true,
        Some((Leaf::Word(Kind::Repeat), _)) => true,
        Some((Leaf::Word(Kind::For), _)) => true,
        _ => false,
    }
}
