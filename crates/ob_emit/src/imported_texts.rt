//! The symbol strings of declarations of other modules.
ghost use Rattle.std.specs.Prelude.{◌≡◌, ℕ, List, IfOk};
ghost use Rattle.std.specs.Option.{option_map};
ghost use Rattle.std.specs.String.{string_bytes};
ghost use Rattle.scip_symbol.specs.SymbolTexts.{canonical_text};
ghost use Rattle.ob_emit.specs.StoredTexts.{prefix_text};
ghost use Rattle.ob_emit.specs.Named.{NamesAreIdentifiers};
ghost use Rattle.ob_emit.specs.Symbols.{imported_symbol};

use crate::path::path_text;
use ob_view::View;
use std::alloc::{AllocError, Global};

/// The symbol string of the declaration at index `declaration` in the interface of the reached module `reached`. `None` if there is no such
/// declaration, or if it has no symbol.
/// `prefix` is the prefix of the symbol strings of the tree's package.
pub(crate) fn imported_text(
    alloc: Global,
    view: &View<'_>,
    prefix: &str,
    reached: u32,
    declaration: u32,
) -> Result<Option<String>, AllocError>
    requires { NamesAreIdentifiers view.now }
    ensures { (package_name : List ℕ) → prefix.now ≡ prefix_text package_name →
        IfOk result (λ text. option_map string_bytes text ≡ option_map canonical_text (imported_symbol view.now package_name reached declaration)) }
{
    let Some(interface) = view.interface(reached) else {
        return Ok(None);
    };
    path_text(alloc, prefix, interface.name(), interface, declaration)
}
