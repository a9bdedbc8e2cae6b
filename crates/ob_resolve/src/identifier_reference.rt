//! Determines the reference of one identifier, its target and its role, from its syntactic position. In the clauses:
//! `IsReference view number r`: `r` has this token number, and the target and the role that the rules give the identifier.
//! `IsPrecomputed view found`: the lists in `found` are those of the module. `written`: whether the identifier is written.
ghost use Rattle.std.specs.Prelude.{◌≡◌, ◌<◌, ℕ, length};
ghost use Rattle.module_table.specs.Order.{IsIncreasingBy};
ghost use Rattle.module_table.specs.declared.rows.Import.{Import as ImportRow};
ghost use Rattle.ob_targets.specs.SyntaxPosition.{syntax_position};
ghost use Rattle.ob_targets.specs.Targets.{is_written};
ghost use Rattle.ob_targets.specs.declared.syntax_position.SyntaxPosition.TheVariants as syntax_positions;
ghost use Rattle.ob_view.specs.declared.target.Target.TheVariants as targets;
ghost use Rattle.ob_resolve.specs.Precomputed.{IsPrecomputed, IsReference};

use crate::precomputed::Precomputed;
use crate::targets::{end_target, qualident_member_target, use_role};
use crate::used::use_target_at;
use module_table::Import;
use ob_targets::SyntaxPosition;
use ob_view::{Reference, Target, View};

/// Converts the index of an import item to 32 bits. It fits: the items' aliases are increasing token numbers of 32 bits, so the index of an
/// item is at most the token number of its alias.
fn item_number(imports: &[Import], position: usize) -> u32
    requires within { position < length imports.now }
    requires ascend { IsIncreasingBy (λ (i : ImportRow). i.alias) imports.now }
    ensures { result ≡ position }
{
    let _alias = imports[position].alias;
    position as u32
}

/// The target of an identifier that denotes a module: the module that the import item at index `position` names.
fn module_target(view: &View<'_>, position: usize) -> Target
    requires { position < length view.now.rows.imports }
    ensures { result ≡ targets.«Module» position }
{
    let table = view.table();
    table.invariants();
    Target::Module(item_number(table.imports(), position))
}

/// The reference of the identifier at token `number`, which is in the import item at index `item`.
fn import_reference(view: &View<'_>, number: u32, item: usize) -> Reference
    requires { syntax_position view.now.rows number ≡ syntax_positions.Item item }
    ensures { IsReference view.now number result }
{
    Reference {
        number,
        target: module_target(view, item),
        role: 2,
    }
}

/// The reference of the name at token `number`, which follows an END and has the index `end` among the names after END.
fn end_reference(view: &View<'_>, number: u32, end: usize) -> Reference
    requires { syntax_position view.now.rows number ≡ syntax_positions.End end }
    ensures { IsReference view.now number result }
{
    let ends = view.table().ends();
    Reference {
        number,
        target: end_target(ends[end].of),
        role: 0,
    }
}

/// The reference of the identifier at token `number`, which is the use at index `position`. The scope rules determine its target.
fn use_reference(
    view: &View<'_>,
    found: &Precomputed,
    number: u32,
    position: usize,
    written: bool,
) -> Reference
    requires found { IsPrecomputed view.now found.now }
    requires written { written ≡ is_written view.now.rows number }
    ensures { (at : ℕ) → syntax_position view.now.rows number ≡ syntax_positions.Use at → IsReference view.now number result }
{
    let target = use_target_at(view, found.used.as_slice(), position, number);
    Reference {
        number,
        target,
        role: use_role(view, found.decl_kinds.as_slice(), target, written),
    }
}

/// The reference of the name at token `number`, which follows the dot of the selector at index `selector` in a designator.
fn selector_reference(
    view: &View<'_>,
    found: &Precomputed,
    number: u32,
    selector: usize,
    written: bool,
) -> Reference
    requires found { IsPrecomputed view.now found.now }
    requires written { written ≡ is_written view.now.rows number }
    requires position_is { syntax_position view.now.rows number ≡ syntax_positions.Selected selector }
    ensures { IsReference view.now number result }
{
    let target = found.selected[selector];
    Reference {
        number,
        target,
        role: use_role(view, found.decl_kinds.as_slice(), target, written),
    }
}

/// The reference of the identifier at token `number`, which is the second one of a qualident. The first one is the use at index `first`.
fn qualident_member_reference(
    view: &View<'_>,
    found: &Precomputed,
    number: u32,
    first: usize,
) -> Reference
    requires found { IsPrecomputed view.now found.now }
    requires position_is { syntax_position view.now.rows number ≡ syntax_positions.QualidentMember first }
    ensures { IsReference view.now number result }
{
    let uses = view.table().uses();
    let before = use_target_at(view, found.used.as_slice(), first, uses[first].number);
    let target = qualident_member_target(view, number, before);
    Reference {
        number,
        target,
        role: use_role(view, found.decl_kinds.as_slice(), target, false),
    }
}

/// The reference of the identifier at token `number`: its target, and its role (scip.proto, `SymbolRole`).
pub(crate) fn reference_of(view: &View<'_>, found: &Precomputed, number: u32) -> Reference
    requires found { IsPrecomputed view.now found.now }
    requires within { number < length view.now.tokens }
    ensures { IsReference view.now number result }
{
    let written = found.written[number as usize];
    let syntax_position = found.syntax_positions[number as usize];
    match syntax_position {
        SyntaxPosition::OwnName => Reference {
            number,
            target: Target::Own,
            role: 1,
        },
        SyntaxPosition::Item(item) => import_reference(view, number, item),
        SyntaxPosition::Declaration(_) => Reference {
            number,
            target: Target::Declared(number),
            role: 1,
        },
        SyntaxPosition::End(end) => end_reference(view, number, end),
        SyntaxPosition::Use(position) => use_reference(view, found, number, position, written),
        SyntaxPosition::Selected(selector) => selector_reference(
            view, found, number, selector, written,
        ),
        SyntaxPosition::QualidentMember(first) => qualident_member_reference(
            view, found, number, first,
        ),
        SyntaxPosition::Nowhere => Reference {
            number,
            target: Target::Unresolved,
            role: 0,
        },
    }
}
