//! The types that blocks declare, by block and name. A pointer's target type may be declared after its use.
ghost use Rattle.std.specs.Prelude.{◌≡◌, ℕ, true, length, IfOk, IfSome, IfNone};
ghost use Rattle.module_table.specs.declared.rows.DeclKind.TheVariants as decl_kinds;
ghost use Rattle.ob_scope.specs.BlockTypes.{AreTypes};
ghost use Rattle.scopes.specs.declared.members.Scope.TheVariants as locations;

use indexmap::IndexMap;
use module_table::DeclKind;
use scopes::{Member, Scope};
use std::alloc::{AllocError, Global};
use text_hash::Seed;

/// Whether a declaration of this kind declares a type.
fn is_type(decl_kind: DeclKind) -> bool
    ensures yes { result ≡ true → decl_kind ≡ decl_kinds.Type }
    ensures no { decl_kind ≡ decl_kinds.Type → result ≡ true }
{
    match decl_kind {
        DeclKind::Type => true,
        DeclKind::Import => false,
        DeclKind::Constant => false,
        DeclKind::Variable => false,
        DeclKind::Procedure => false,
        DeclKind::Parameter => false,
        DeclKind::Field => false,
    }
}

/// The block that declares this member, if the member is a type; otherwise `None`.
fn block_of_type(member: Member) -> Option<u32>
    ensures found { IfSome result (λ b. (member.place ≡ locations.Block b) × (member.decl_kind ≡ decl_kinds.Type)) }
    ensures none { IfNone result ((b : ℕ) → member.place ≡ locations.Block b → member.decl_kind ≡ decl_kinds.Type → ⊥) }
{
    if !is_type(member.decl_kind) {
        return None;
    }
    match member.place {
        Scope::Block(block) => Some(block),
        Scope::Record(_) => None,
    }
}

/// A map from a block and the number of a name to the index of the member that is the type which this block declares by this name. It
/// contains only types, which are few among the members.
pub(crate) fn index_block_types(
    alloc: Global,
    seed: Seed,
    members: &[Member],
    numbers: &[usize],
) -> Result<IndexMap<(u32, usize), usize, Seed>, AllocError>
    requires { length numbers.now ≡ length members.now }
    // With `Ok` the map has exactly the types that the blocks declare.
    ensures { IfOk result (AreTypes members.now numbers.now (length members.now)) }
{
    let mut types = IndexMap::with_hasher(alloc, seed);
    for i in 0..members.len() {
        if let Some(block) = block_of_type(members[i]) {
            types.insert((block, numbers[i]), i)?;
        }
    }
    Ok(types)
}
