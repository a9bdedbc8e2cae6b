//! Looks up the kind of each declaration of the module once, for all uses of the declaration.
//! `AreStoredKinds view decl_kinds` in the clauses: each kind in the list is that of the declaration at the token with this index.
ghost use Rattle.std.specs.Prelude.{◌≡◌, IfOk, None, length, replicate};
ghost use Rattle.ob_view.specs.World.{decl_kind_of};
ghost use Rattle.ob_resolve.specs.StoredKinds.{AreStoredKinds};

use module_table::DeclKind;
use ob_view::View;
use std::alloc::{AllocError, Global};

/// Stores the kind of the declaration at token `declared` as the element with the index `declared`. Does nothing if the list is too short.
fn store_kind(view: &View<'_>, decl_kinds: &mut [Option<DeclKind>], declared: u32)
    requires { AreStoredKinds view.now decl_kinds.old }
    ensures { AreStoredKinds view.now decl_kinds.new }
{
    if (declared as usize) < decl_kinds.len() {
        decl_kinds[declared as usize] = view.decl_kind(declared);
    }
}

/// Stores the kind of each declaration of the module, as the element whose index is the number of the declared token.
fn store_kinds(view: &View<'_>, decl_kinds: &mut [Option<DeclKind>])
    // No kind is stored yet.
    requires { decl_kinds.old ≡ replicate (length decl_kinds.old) None }
    ensures { AreStoredKinds view.now decl_kinds.new }
{
    for row in view.table().declared() {
        store_kind(view, decl_kinds, row.number);
    }
}

/// Makes a list with an element for each of the first `count` tokens: the kind of the token's declaration, or `None` if it declares
/// nothing.
/// A module has many more uses than declarations, so reading the list is cheaper than a lookup for each use.
pub(crate) fn declaration_kinds(
    alloc: Global,
    view: &View<'_>,
    count: usize,
) -> Result<Vec<Option<DeclKind>>, AllocError>
    ensures { IfOk result (λ v. AreStoredKinds view.now v.items) }
{
    let mut decl_kinds = vec![in alloc; None; count]?;
    store_kinds(view, decl_kinds.as_mut_slice());
    Ok(decl_kinds)
}

/// The kind of the declaration at token `declared`, from the list, or else by a lookup in the module table. `None` if the token declares
/// nothing.
pub(crate) fn decl_kind_of(
    view: &View<'_>,
    decl_kinds: &[Option<DeclKind>],
    declared: u32,
) -> Option<DeclKind>
    requires { AreStoredKinds view.now decl_kinds.now }
    ensures { result ≡ decl_kind_of view.now declared }
{
    match decl_kinds.get(declared as usize) {
        Some(Some(decl_kind)) => Some(*decl_kind),
        _ => view.decl_kind(declared),
    }
}
