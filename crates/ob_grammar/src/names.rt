//! Names (Oberon-07 report, section 4). Each function parses the production that its name states.

ghost use Rattle.std.specs.Prelude.{◌≡◌, ◌+◌, IfOk};
ghost use Rattle.ob_tree.specs.Widths.{identdef_width, name_width};
ghost use Rattle.ob_tree.specs.Names.{qualident_events, identdef_events};
ghost use Rattle.ob_grammar.specs.ParsesAs.{ParsesAs, remaining};
ghost use Rattle.ob_grammar.specs.ReadNames as readers;

use crate::cursor::Cursor;
use crate::stop::Stop;
use crate::tokens::{accept, identifier, skip};
use ob_scan::{Kind, Token};
use ob_tree::name::{Identdef, Qualident};

/// Parses a qualified identifier after its first identifier, which has the index `head`.
#[tactic(auto, unfolding(ob_tree::specs::Names::qualident_events, crate::specs::ReadNames::qualident_after, crate::specs::Combinators::name_at))]
pub fn qualident_after(
    tokens: &[Token],
    head: u32,
    input: Cursor,
) -> Result<(Qualident, Cursor), Stop>
    // The result is what the grammar reads, or the grammar's error.
    ensures read { ParsesAs tokens.now (λ x. (qualident_events x.0, remaining tokens.now x.1)) result (readers.qualident_after head (remaining tokens.now input)) }
    // The cursor is advanced by these tokens.
    ensures number { IfOk result (λ x. x.1.at + 1 ≡ input.at + name_width x.0.member) }
{
    match accept(tokens, input, Kind::Dot) {
        None => Ok((Qualident { head, member: None }, input)),
        Some(rest) => {
            let (member, rest) = identifier(tokens, rest)?;
            Ok((
                Qualident {
                    head,
                    member: Some(member),
                },
                rest,
            ))
        }
    }
}

/// Parses a qualified identifier.
#[tactic(auto, unfolding(crate::specs::ReadNames::qualident_after, crate::specs::ReadNames::qualident_at, crate::specs::Combinators::name_at))]
pub fn qualident(tokens: &[Token], input: Cursor) -> Result<(Qualident, Cursor), Stop>
    // The result is what the grammar reads, or the grammar's error.
    ensures read { ParsesAs tokens.now (λ x. (qualident_events x.0, remaining tokens.now x.1)) result (readers.qualident_at (remaining tokens.now input)) }
    // The cursor is advanced by these tokens.
    ensures number { IfOk result (λ x. x.1.at ≡ input.at + name_width x.0.member) }
{
    let (head, rest) = identifier(tokens, input)?;
    qualident_after(tokens, head, rest)
}

/// Parses a declaring identifier, which an asterisk exports.
#[tactic(auto, using(crate::proofs::Stars::star_read), unfolding(ob_tree::specs::Names::identdef_events, crate::specs::ReadNames::identdef_at, crate::specs::ReadNames::identdef_after))]
pub fn identdef(tokens: &[Token], input: Cursor) -> Result<(Identdef, Cursor), Stop>
    // The result is what the grammar reads, or the grammar's error.
    ensures read { ParsesAs tokens.now (λ x. (identdef_events x.0, remaining tokens.now x.1)) result (readers.identdef_at (remaining tokens.now input)) }
    // The cursor is advanced by these tokens.
    ensures number { IfOk result (λ x. x.1.at ≡ input.at + identdef_width x.0) }
{
    let (name, rest) = identifier(tokens, input)?;
    let (is_exported, rest) = skip(tokens, rest, Kind::Star);
    Ok((Identdef { name, is_exported }, rest))
}
