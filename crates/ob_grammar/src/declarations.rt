//! Declarations: constants, types, variables and procedures (Oberon-07 report, sections 5, 6, 7 and 10).

ghost use Rattle.std.specs.Prelude.{◌≡◌};
ghost use Rattle.ob_grammar.specs.Lookahead.{head_is, uncons};
ghost use Rattle.ob_grammar.specs.ReadModules.{is_identifier};
ghost use Rattle.ob_grammar.specs.ParsesAs.{remaining};

use crate::cursor::Cursor;
use ob_scan::Token;
use ob_tree::token::Leaf;

/// Whether a declaration of a constant, a type or variables begins here: whether the next token is an identifier.
pub fn begins_declaration(tokens: &[Token], input: Cursor) -> bool
    // Exactly if the next token is an identifier.
    ensures { result ≡ head_is is_identifier (uncons (remaining tokens.now input)) }
{
    matches!(input.next(tokens), Some((Leaf::Name(_), _)))
}
