//! Computes lists for a whole module before its identifiers are resolved one by one.
ghost use Rattle.std.specs.Prelude.{IfOk};
ghost use Rattle.ob_resolve.specs.Precomputed.{IsPrecomputed};

use crate::decl_kinds::declaration_kinds;
use crate::selectors::selector_targets;
use crate::syntax_positions::syntax_positions;
use crate::used::use_targets;
use crate::written::written_names;
use module_table::DeclKind;
use ob_targets::SyntaxPosition;
use ob_types::Types;
use ob_view::Target;
use std::alloc::{AllocError, Global};

/// Lists of a module from which the reference of each identifier is determined. An index is a token number, or the index of an entry of the
/// module table.
#[derive(Drop)]
pub(crate) struct Precomputed {
    /// The syntactic position of each token, by token number; `Nowhere` for a token that no table entry has.
    pub(crate) syntax_positions: Vec<SyntaxPosition>,
    /// For each token, by token number, whether it is the name of a variable that an assignment or a FOR statement writes.
    pub(crate) written: Vec<bool>,
    /// The kind of the declaration at each token, by token number; `None` if no kind is stored for the token.
    pub(crate) decl_kinds: Vec<Option<DeclKind>>,
    /// The target of each use, by the use's index in the table.
    pub(crate) used: Vec<Target>,
    /// The target of the name of each selector, by the selector's index in the table; `Unresolved` for a selector without a name.
    pub(crate) selected: Vec<Target>,
}

/// Computes the lists for all tokens, uses and selectors of a module. Fails with `AllocError` if an allocation fails.
pub(crate) fn precompute(alloc: Global, types: &Types<'_>) -> Result<Precomputed, AllocError>
    ensures { IfOk result (IsPrecomputed types.now) }
{
    let view = types.view();
    let count = view.tokens().len();
    let syntax_positions = syntax_positions(alloc, view.table(), count)?;
    let written = written_names(alloc, view.table(), count)?;
    let decl_kinds = declaration_kinds(alloc, view, count)?;
    let used = use_targets(alloc, view)?;
    let selected = selector_targets(
        alloc,
        types,
        decl_kinds.as_slice(),
        syntax_positions.as_slice(),
        used.as_slice(),
    )?;
    Ok(Precomputed {
        syntax_positions,
        written,
        decl_kinds,
        used,
        selected,
    })
}
