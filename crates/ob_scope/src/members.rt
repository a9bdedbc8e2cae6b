//! Finds the members of a module: its declared identifiers, each with its scope.
ghost use Rattle.std.specs.Prelude.{◌≡◌, true, IfNone, IfOk, IfSome};
ghost use Rattle.module_table.specs.declared.rows.DeclGroup.{DeclGroup};
ghost use Rattle.scopes.specs.declared.members.Member.{Member};
ghost use Rattle.module_table.specs.Order.{IsIncreasingBy, HasNoneBy, IsIndexBy};
ghost use Rattle.scopes.specs.Members.{decl_group_at, declared_member, declared_members, group_scope};

use module_table::{DeclGroup, Declared, index_of};
use scopes::{Member, Scope};
use std::alloc::{AllocError, Global};

/// The scope that declares the identifiers of a declaration group: a record if it is a group of fields, otherwise a block.
fn group_scope(by: DeclGroup) -> Scope
    ensures { result ≡ group_scope by }
{
    match by.of_record {
        None => Scope::Block(by.block),
        Some(record) => Scope::Record(record),
    }
}

/// Whether the declaration group with this index begins with this token.
fn group_begins_at(decl_groups: &[DeclGroup], at: usize, first: u32) -> bool
    ensures { result ≡ true → IsIndexBy (λ (d : DeclGroup). d.first) decl_groups.now first at }
{
    match decl_groups.get(at) {
        Some(by) => by.first == first,
        None => false,
    }
}

/// The index of the declaration group that begins with the token `first`; `None` if there is none. Tries the index `cursor` and the next
/// one, then a binary search.
fn group_index_by_hint(decl_groups: &[DeclGroup], cursor: usize, first: u32) -> Option<usize>
    requires { IsIncreasingBy (λ (d : DeclGroup). d.first) decl_groups.now }
    ensures found { IfSome result (IsIndexBy (λ (d : DeclGroup). d.first) decl_groups.now first) }
    ensures none { IfNone result (HasNoneBy (λ (d : DeclGroup). d.first) decl_groups.now first) }
{
    if group_begins_at(decl_groups, cursor, first) {
        return Some(cursor);
    }
    let next = cursor.saturating_add(1);
    if group_begins_at(decl_groups, next, first) {
        return Some(next);
    }
    index_of(decl_groups, first)
}

/// The declaration group that begins with the token `first`; `None` if there is none. Starts the search at index `cursor`, and sets it to
/// the index of the found group, so that look-ups in order take constant time.
fn decl_group_at(decl_groups: &[DeclGroup], cursor: &mut usize, first: u32) -> Option<DeclGroup>
    requires { IsIncreasingBy (λ (d : DeclGroup). d.first) decl_groups.now }
    ensures { result ≡ decl_group_at decl_groups.now first }
{
    let at = group_index_by_hint(decl_groups, *cursor, first)?;
    *cursor = at;
    Some(decl_groups[at])
}

/// The member for a declared identifier, with the scope and kind of its declaration group; `None` if it has no group.
fn declared_member(
    decl_groups: &[DeclGroup],
    cursor: &mut usize,
    declared: Declared,
) -> Option<Member>
    requires { IsIncreasingBy (λ (d : DeclGroup). d.first) decl_groups.now }
    ensures { result ≡ declared_member declared (decl_group_at decl_groups.now declared.declared_by) }
{
    match decl_group_at(decl_groups, cursor, declared.declared_by) {
        Some(by) => Some(Member {
            place: group_scope(by),
            number: declared.number,
            decl_kind: by.decl_kind,
        }),
        None => None,
    }
}

/// The members for these declared identifiers, each with the scope and kind of its declaration group, in the order of the identifiers.
pub(crate) fn declared_members(
    alloc: Global,
    decl_groups: &[DeclGroup],
    declared: &[Declared],
) -> Result<Vec<Member>, AllocError>
    requires { IsIncreasingBy (λ (d : DeclGroup). d.first) decl_groups.now }
    ensures { IfOk result (λ v. v.items ≡ declared_members decl_groups.now declared.now) }
{
    let mut members = Vec::with_capacity(alloc, declared.len())?;
    // Identifiers are mostly in the order of their declaration groups, so most look-ups succeed at the cursor.
    let mut cursor = 0;
    for row in declared {
        if let Some(member) = declared_member(decl_groups, &mut cursor, *row) {
            members.push(member)?;
        }
    }
    Ok(members)
}
