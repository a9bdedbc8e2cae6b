//! The components of type expressions in the module's block.
ghost use Rattle.std.specs.Prelude.{◌≡◌, ℕ, map, slice_range, IfOk, IsSome};
ghost use Rattle.std.specs.List.{filter};
ghost use Rattle.std.specs.List.Sorted.{IsNonDecreasingBy};
ghost use Rattle.ob_scan.specs.Spelling.{AreInText};
ghost use Rattle.module_table.specs.Order.{IsIncreasingBy};
ghost use Rattle.module_table.specs.declared.rows.DeclGroup.{DeclGroup as DeclGroupRow};
ghost use Rattle.ob_interface.specs.Interfaces.{is_part_by, module_level_by, part_of};
ghost use Rattle.ob_interface.specs.Texts.{part_row_in, AllDecodeTo, IsGrown};

use crate::buffer::append_component;
use crate::module_level::find_module_level_group;
use crate::rows::PartRow;
use module_table::{DeclGroup, TypePart};
use ob_scan::TokenTexts;
use std::alloc::{AllocError, Global};

/// The components that belong to declaration groups of the module's block, in the order of `parts`.
fn module_level_parts(
    alloc: Global,
    decl_groups: &[DeclGroup],
    parts: &[TypePart],
) -> Result<Vec<TypePart>, AllocError>
    // The declaration groups are sorted by their first tokens.
    requires { IsIncreasingBy (λ (d : DeclGroupRow). d.first) decl_groups.now }
    ensures { IfOk result (λ own. (k : ℕ) → IsSome (module_level_by decl_groups.now k) → filter (is_part_by k) own.items ≡ filter (is_part_by k) parts.now) }
{
    let mut own = Vec::new(alloc);
    let mut cursor = 0;
    for i in 0..parts.len() {
        let part = parts[i];
        if find_module_level_group(decl_groups, &mut cursor, part.declared_by).is_some() {
            own.push(part)?;
        }
    }
    Ok(own)
}

/// The components that belong to declaration groups of the module's block, sorted by group.
pub(crate) fn sorted_parts(
    alloc: Global,
    decl_groups: &[DeclGroup],
    parts: &[TypePart],
) -> Result<Vec<TypePart>, AllocError>
    // The declaration groups are sorted by their first tokens.
    requires { IsIncreasingBy (λ (d : DeclGroupRow). d.first) decl_groups.now }
    ensures together { IfOk result (λ own. IsNonDecreasingBy (λ p. p.declared_by) own.items) }
    ensures same { IfOk result (λ own. (k : ℕ) → IsSome (module_level_by decl_groups.now k) → filter (is_part_by k) own.items ≡ filter (is_part_by k) parts.now) }
{
    let mut own = module_level_parts(alloc, decl_groups, parts)?;
    own.sort_by_key(|part| part.declared_by)?;
    Ok(own)
}

/// The range of the components of one declaration group: its first index, and the index after its last.
pub(crate) fn part_range(parts: &[TypePart], declared_by: u32) -> (usize, usize)
    requires { IsNonDecreasingBy (λ p. p.declared_by) parts.now }
    ensures { slice_range parts.now result.0 result.1 ≡ filter (is_part_by declared_by) parts.now }
{
    let first = parts.partition_point(|part| part.declared_by < declared_by);
    let end = parts.partition_point(|part| part.declared_by <= declared_by);
    (first, end)
}

/// Appends the names of the components to the buffer. Returns the components' entries.
pub(crate) fn collect_components(
    alloc: Global,
    text: &mut Vec<u8>,
    source: &TokenTexts,
    parts: &[TypePart],
) -> Result<Vec<PartRow>, AllocError>
    // The tokens are ranges of the bytes.
    requires { AreInText source.now.bytes.now source.now.tokens.now }
    // With `Ok` the buffer was only appended to.
    ensures grown { IfOk result (λ _. IsGrown text.old.items text.new.items) }
    // In the buffer and in every extension of it the entries decode to the specified values.
    ensures decode { IfOk result (λ rows. AllDecodeTo part_row_in text.new.items rows.items (map (part_of source.now.bytes.now source.now.tokens.now) parts.now)) }
{
    let mut rows = Vec::new(alloc);
    for i in 0..parts.len() {
        let row = append_component(text, source, parts[i])?;
        rows.push(row)?;
    }
    Ok(rows)
}
