//! Look-up of the declaration groups in the module's block by their first tokens. A search starts at the result of the previous one.
ghost use Rattle.std.specs.Prelude.{◌≡◌, IfNone, IfSome};
ghost use Rattle.module_table.specs.Order.{IsIncreasingBy, HasNoneBy, IsIndexBy};
ghost use Rattle.module_table.specs.declared.rows.DeclGroup.{DeclGroup as DeclGroupRow};
ghost use Rattle.ob_interface.specs.Interfaces.{module_level_by};

use module_table::{DeclGroup, index_of};

/// The number of indexes that are tried before the binary search.
const MAX_PROBES: usize = 4;

/// The index of the declaration group that begins with this token. Tries `MAX_PROBES` indexes from the hint on, then a binary search.
fn index_by_hint(decl_groups: &[DeclGroup], cursor: usize, first: u32) -> Option<usize>
    // The declaration groups are sorted by their first tokens.
    requires { IsIncreasingBy (λ (d : DeclGroupRow). d.first) decl_groups.now }
    ensures found { IfSome result (IsIndexBy (λ (d : DeclGroupRow). d.first) decl_groups.now first) }
    ensures none { IfNone result (HasNoneBy (λ (d : DeclGroupRow). d.first) decl_groups.now first) }
{
    for at in cursor..cursor.saturating_add(MAX_PROBES) {
        if let Some(decl_group) = decl_groups.get(at) {
            if decl_group.first == first {
                return Some(at);
            }
        }
    }
    index_of(decl_groups, first)
}

/// The declaration group that begins with this token, if it is directly in the module's block. The search starts at index `cursor`, which
/// is set to the index of the group.
pub(crate) fn find_module_level_group(
    decl_groups: &[DeclGroup],
    cursor: &mut usize,
    first: u32,
) -> Option<DeclGroup>
    // The declaration groups are sorted by their first tokens.
    requires { IsIncreasingBy (λ (d : DeclGroupRow). d.first) decl_groups.now }
    ensures { result ≡ module_level_by decl_groups.now first }
{
    let at = index_by_hint(decl_groups, *cursor, first)?;
    *cursor = at;
    let decl_group = decl_groups[at];
    let is_module_level = decl_group.block == 0;
    if is_module_level {
        Some(decl_group)
    } else {
        None
    }
}
