//! Comparison of the names after END.

ghost use Rattle.std.specs.List.{All};
ghost use Rattle.ob_grammar.specs.Ends.{HasFirstWrongEnd, AreTokenNumbers, IsInText};

use ob_grammar::ends::names_match;
use ob_scan::Token;

/// The byte offset of the first name after an END that differs from the name that it has to repeat; `None` if all are equal. An element of
/// `ends` has two token indexes: of the name to repeat, and of the name after END.
pub(crate) fn first_wrong_end(bytes: &[u8], tokens: &[Token], ends: &[(u32, u32)]) -> Option<u32>
    // All these indexes are indexes of tokens.
    requires in_range { All (AreTokenNumbers tokens.now) ends.now }
    requires in_text { All (IsInText bytes.now) tokens.now }
    ensures { HasFirstWrongEnd bytes.now tokens.now ends.now result }
{
    'ends: for (name, end) in ends {
        if !names_match(bytes, tokens, *name, *end) {
            return Some(tokens[*end as usize].start);
        }
    }
    None
}
