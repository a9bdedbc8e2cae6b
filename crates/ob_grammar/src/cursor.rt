//! A position in the list of tokens.

ghost use Rattle.std.specs.Prelude.{◌≡◌, ◌+◌, IfSome};

use ob_scan::Token;
use ob_tree::token::{Leaf, leaf_at};

/// The tokens from an index on, which are still to be parsed. It is only the index, so it borrows nothing and has no lifetime.
#[derive(Clone, Copy)]
pub struct Cursor {
    at: u32,
}

impl Cursor {
    ghost use Rattle.ob_grammar.specs.Lookahead.{uncons};
    ghost use Rattle.ob_grammar.specs.ParsesAs.{remaining, with_remaining};

    /// The cursor before the first token.
    pub const ALL: Cursor = Cursor { at: 0 };

    /// The next token, and the cursor after it; `None` after the last token.
    #[inline(always)]
    #[tactic(auto, unfolding(crate::specs::ParsesAs::remaining))]
    pub fn next(self, tokens: &[Token]) -> Option<(Leaf, Cursor)>
        // The result is the first remaining token, with a cursor at the tokens after it.
        ensures read { with_remaining tokens.now result ≡ uncons (remaining tokens.now self) }
        // The new cursor is one token further.
        ensures number { IfSome result (λ x. x.1.at ≡ self.at + 1) }
    {
        let token = tokens.get(self.at as usize)?;
        let at = self.at.checked_add(1)?;
        Some((leaf_at(self.at, token.kind), Cursor { at }))
    }

    /// The index of the next token, or the number of tokens if there is none.
    pub fn number(self) -> u32
        ensures { result ≡ self.at }
    {
        self.at
    }
}
