//! Modules (Oberon-07 report, section 11).

ghost use Rattle.std.specs.Prelude.{◌≡◌, ◌+◌, ◌++◌, IfOk};
ghost use Rattle.ob_tree.specs.Widths.{name_width};
ghost use Rattle.ob_scan.specs.declared.kind.Kind.TheVariants as kinds;
ghost use Rattle.ob_tree.specs.TreeEvents.{word, if_present, imported};
ghost use Rattle.ob_tree.specs.Declaring.{import_events};
ghost use Rattle.ob_grammar.specs.Combinators.{optional, accept_at, name_at};
ghost use Rattle.ob_grammar.specs.ReadModules.{import_item_at};
ghost use Rattle.ob_grammar.specs.ParsesAs.{ParsesAs, remaining};

use crate::cursor::Cursor;
use crate::stop::Stop;
use crate::tokens::{accept, identifier};
use ob_scan::{Kind, Token};
use ob_tree::declaration::ImportItem;

/// Parses `:=` and the name of a module that is imported with an alias, if `:=` is next.
#[tactic(auto, unfolding(crate::specs::Combinators::name_at))]
fn alias_target(tokens: &[Token], input: Cursor) -> Result<(Option<u32>, Cursor), Stop>
    ensures read { ParsesAs tokens.now (λ x. (if_present (λ m. word kinds.Assign ++ imported m) x.0, remaining tokens.now x.1)) result (optional (accept_at kinds.Assign) (name_at imported) (remaining tokens.now input)) }
    ensures number { IfOk result (λ x. x.1.at + 1 ≡ input.at + name_width x.0) }
{
    match accept(tokens, input, Kind::Assign) {
        Some(rest) => {
            let (of, rest) = identifier(tokens, rest)?;
            Ok((Some(of), rest))
        }
        None => Ok((None, input)),
    }
}

/// Parses an import item.
#[tactic(auto, using(ob_tree::proofs::DeclarationLayers::declaring_made), unfolding(crate::specs::ReadModules::import_item_at, crate::specs::Combinators::name_at))]
pub fn import(tokens: &[Token], input: Cursor) -> Result<(ImportItem, Cursor), Stop>
    // The result is the item and the remaining tokens that the grammar reads, or the grammar's error.
    ensures read { ParsesAs tokens.now (λ x. (import_events x.0, remaining tokens.now x.1)) result (import_item_at (remaining tokens.now input)) }
    // The cursor is advanced by the tokens of the item.
    ensures number { IfOk result (λ x. x.1.at ≡ input.at + name_width x.0.of) }
{
    let (name, here) = identifier(tokens, input)?;
    let (of, here) = alias_target(tokens, here)?;
    Ok((ImportItem { name, of }, here))
}
