//! Look-ups of entries of the module table, at a probable index and by binary search. In the clauses, `IsIncreasingBy` and `IsMonotoneBy`
//! say that the list is sorted by a number of its entries, without or with repetitions.
ghost use Rattle.std.specs.Prelude.{◌≡◌, ◌<◌, ◌≤◌, ◌^◌, ◌==◌, ℕ, IfSome, None, Some, find, true, length, position, slice_get};
ghost use Rattle.module_table.specs.Order.{IsIncreasingBy, IsMonotoneBy};
ghost use Rattle.module_table.specs.declared.rows.Declared.{Declared as DeclaredRow};
ghost use Rattle.module_table.specs.declared.rows.DeclGroup.{DeclGroup as DeclGroupRow};
ghost use Rattle.module_table.specs.declared.rows.TypePart.{TypePart as PartRow};
ghost use Rattle.module_table.specs.declared.rows.Import.{Import as ImportItem};

use module_table::{DeclGroup, Declared, Import, TypePart};

/// The entry at index `at`, if it is that of the identifier at token `number`, and otherwise `None`.
pub(crate) fn declared_if_at(rows: &[Declared], at: usize, number: u32) -> Option<Declared>
    requires { IsIncreasingBy (λ (d : DeclaredRow). d.number) rows.now }
    ensures { IfSome result (λ row. find (λ (d : DeclaredRow). d.number == number) rows.now ≡ Some row) }
{
    let row = rows.get(at)?;
    if row.number == number {
        Some(*row)
    } else {
        None
    }
}

/// The entry at index `at`, if it is that of the declaration group whose first token is `first`, and otherwise `None`.
pub(crate) fn decl_group_if_at(rows: &[DeclGroup], at: usize, first: u32) -> Option<DeclGroup>
    requires { IsIncreasingBy (λ (c : DeclGroupRow). c.first) rows.now }
    ensures { IfSome result (λ row. find (λ (c : DeclGroupRow). c.first == first) rows.now ≡ Some row) }
{
    let row = rows.get(at)?;
    if row.first == first { Some(*row) } else { None }
}

/// Whether all components before index `at` belong to declaration groups that begin before token `first`. Components are sorted by group,
/// so comparing the last of them suffices. False also if `at` is beyond the end of the list.
fn begins_type_expr(parts: &[TypePart], at: usize, first: u32) -> bool
    requires { IsMonotoneBy (λ (p : PartRow). p.declared_by) parts.now }
    ensures { result ≡ true → (j : ℕ) (p : PartRow) → j < at → slice_get parts.now j ≡ Some p → p.declared_by < first }
{
    match at.checked_sub(1) {
        Some(last) => match parts.get(last) {
            Some(part) => part.declared_by < first,
            None => false,
        },
        None => true,
    }
}

/// The index `at`, if the type expression of the declaration group whose first token is `first` begins there, and otherwise `None`.
pub(crate) fn type_if_at(parts: &[TypePart], at: usize, first: u32) -> Option<usize>
    requires { IsMonotoneBy (λ (p : PartRow). p.declared_by) parts.now }
    ensures { IfSome result (λ index. position (λ (p : PartRow). p.declared_by == first) parts.now ≡ Some index) }
{
    let part = parts.get(at)?;
    if part.declared_by == first && begins_type_expr(parts, at, first) {
        Some(at)
    } else {
        None
    }
}

/// The index of the outermost component of the type of the declaration group whose first token is `first`, by binary search; `None` if the
/// group has no type.
pub(crate) fn find_type_part(parts: &[TypePart], first: u32) -> Option<usize>
    requires { IsMonotoneBy (λ (p : PartRow). p.declared_by) parts.now }
    ensures { result ≡ position (λ (p : PartRow). p.declared_by == first) parts.now }
{
    let at = parts.partition_point(|part| part.declared_by < first);
    if at >= parts.len() {
        return None;
    }
    if parts[at].declared_by == first {
        Some(at)
    } else {
        None
    }
}

/// Whether token `alias` comes after the aliases of all import items. Most tokens do, since import items come before all other
/// declarations.
fn follows_all_aliases(imports: &[Import], alias: u32) -> bool
    requires { IsMonotoneBy (λ (i : ImportItem). i.alias) imports.now }
    ensures { result ≡ true → position (λ (i : ImportItem). i.alias == alias) imports.now ≡ None }
{
    match imports.last() {
        Some(item) => item.alias < alias,
        None => true,
    }
}

/// The index of the import item whose alias is at token `alias`, by binary search; `None` if there is none.
pub(crate) fn find_import(imports: &[Import], alias: u32) -> Option<u32>
    requires rise { IsMonotoneBy (λ (i : ImportItem). i.alias) imports.now }
    requires few { length imports.now ≤ 2 ^ 32 }
    ensures { result ≡ position (λ (i : ImportItem). i.alias == alias) imports.now }
{
    if follows_all_aliases(imports, alias) {
        return None;
    }
    let at = imports.partition_point(|item| item.alias < alias);
    if at >= imports.len() {
        return None;
    }
    if imports[at].alias == alias {
        Some(at as u32)
    } else {
        None
    }
}
