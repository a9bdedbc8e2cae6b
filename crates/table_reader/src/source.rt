//! The tokens of a module, and their matching brackets.

ghost use Rattle.std.specs.Prelude.{◌<◌, ◌^◌, length};

use ob_scan::{Kind, Token};
use std::alloc::{AllocError, Global};

/// The tokens of a module. At the index of each opening bracket or parenthesis, `brackets` has the index of the closing one, which helps to
/// estimate the number of selectors. Nothing is proved of `brackets`, and no table entry depends on it.
#[derive(Drop)]
pub(crate) struct ParserInput<'a> {
    pub(crate) tokens: &'a [Token],
    pub(crate) brackets: &'a [u32],
}

/// Denotes that no bracket is open, in place of a bracket's index.
const NONE: u32 = u32::MAX;

/// The kind of the token with this index; `Dot` if there is no such token.
pub(crate) fn kind_or_dot(tokens: &[Token], at: u32) -> Kind {
    match tokens.get(at as usize) {
        Some(token) => token.kind,
        None => Kind::Dot,
    }
}

/// A vector with an element for each token: for an opening bracket or parenthesis the index of the closing one, for any other token any
/// value. Until the closing one is found, the element holds the index of the enclosing bracket, so the vector is also the stack.
pub(crate) fn match_brackets(alloc: Global, tokens: &[Token]) -> Result<Vec<u32>, AllocError>
    requires { length tokens.now < 2 ^ 32 }
{
    let mut brackets = vec![in alloc; NONE; tokens.len()]?;
    let mut open = NONE;
    for at in 0..tokens.len() as u32 {
        match kind_or_dot(tokens, at) {
            Kind::LeftBracket | Kind::LeftParen => {
                if let Some(row) = brackets.get_mut(at as usize) {
                    *row = open;
                    open = at;
                }
            }
            Kind::RightBracket | Kind::RightParen => {
                if let Some(row) = brackets.get_mut(open as usize) {
                    open = *row;
                    *row = at;
                }
            }
            _ => {}
        }
    }
    Ok(brackets)
}
