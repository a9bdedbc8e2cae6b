//! Finds the targets of the names after the dots of designators. A designator type is what a prefix of a designator is known to denote: a
//! module, a value of some type, or nothing. In the clauses:
//! - `decl_kinds`: each kind in the list is that of the declaration at the token with this index. `used`: the targets are those of all
//! uses.
//! - `finder.new ≡ finder.old`: the call doesn't change the types on which the finder works.
ghost use Rattle.std.specs.Prelude.{◌≡◌, ◌<◌, IfOk, Some, length};
ghost use Rattle.module_table.specs.declared.rows.Step.TheVariants as steps;
ghost use Rattle.ob_targets.specs.Steps.{begins_designator, IsTypeBefore};
ghost use Rattle.ob_resolve.specs.Selected.{AreNamedTargets, IsTypeAfter, IsSelectorResult};
ghost use Rattle.ob_resolve.specs.StoredKinds.{AreStoredKinds};
ghost use Rattle.ob_resolve.specs.Used.{AreUseTargets};

use crate::steps::{indexed_type, pointed_type, selected_target};
use crate::targets::{guard_type, target_type};
use crate::used::use_target_by_token;
use module_table::{DeclKind, Selector, Step};
use ob_targets::{DesignatorType, SyntaxPosition};
use ob_types::Types;
use ob_view::Target;
use std::alloc::{AllocError, Global};
use type_graph::Finder;

/// The result of following a selector: `target` is the target of the selector's name, or `Unresolved` if it has no name; `known` is the
/// designator type after the selector.
#[derive(Clone, Copy, Drop)]
pub(crate) struct SelectorResult {
    pub(crate) target: Target,
    pub(crate) known: DesignatorType,
}

/// Whether `selector`, at index `position`, is the first selector of its designator: the selector before it belongs to another designator.
fn begins_designator(selectors: &[Selector], position: usize, selector: Selector) -> bool
    ensures { result ≡ begins_designator selectors.now position selector }
{
    match position.checked_sub(1) {
        None => true,
        Some(earlier) => match selectors.get(earlier) {
            None => true,
            Some(before) => before.of != selector.of,
        },
    }
}

/// Follows a selector `.name`: finds the target of the name at token `name`, and the designator type of this target. `before` is the
/// designator type before the selector.
fn select_by_name(
    finder: &mut Finder<'_, Types<'_>>,
    decl_kinds: &[Option<DeclKind>],
    before: DesignatorType,
    name: u32,
) -> Result<SelectorResult, AllocError>
    requires { AreStoredKinds finder.old decl_kinds.now }
    ensures types { finder.new ≡ finder.old }
    ensures step_result { IfOk result (IsSelectorResult finder.old before (steps.Field name)) }
{
    let target = selected_target(finder, before, name)?;
    Ok(SelectorResult {
        target,
        known: target_type(finder.graph(), decl_kinds, target),
    })
}

/// Follows the selector `step` from the designator type `before`: finds the target of the selector's name, if it has one, and the
/// designator type after the selector.
fn follow_selector(
    finder: &mut Finder<'_, Types<'_>>,
    decl_kinds: &[Option<DeclKind>],
    before: DesignatorType,
    step: Step,
) -> Result<SelectorResult, AllocError>
    requires { AreStoredKinds finder.old decl_kinds.now }
    ensures types { finder.new ≡ finder.old }
    ensures step_result { IfOk result (IsSelectorResult finder.old before step) }
{
    let known = match step {
        Step::Field(name) => return select_by_name(finder, decl_kinds, before, name),
        Step::Elements(count) => indexed_type(finder, before, count)?,
        Step::Target => pointed_type(finder, before)?,
        Step::Arguments(guard) => guard_type(finder.graph(), guard),
    };
    Ok(SelectorResult {
        target: Target::Unresolved,
        known,
    })
}

/// The designator type before the selector at index `position`. For the first selector of a designator it is the type of the designator's
/// head. For any other selector it is `previous_type`, the designator type after the previous selector.
fn type_before(
    types: &Types<'_>,
    decl_kinds: &[Option<DeclKind>],
    syntax_positions: &[SyntaxPosition],
    used: &[Target],
    selectors: &[Selector],
    position: usize,
    previous_type: DesignatorType,
) -> DesignatorType
    requires decl_kinds { AreStoredKinds types.now decl_kinds.now }
    requires used { AreUseTargets types.now used.now }
    // The list has the selectors of the module table.
    requires same { selectors.now ≡ types.now.rows.selectors }
    requires within { position < length selectors.now }
    requires previous_type { IsTypeAfter types.now position previous_type }
    ensures { IsTypeBefore types.now position result }
{
    let selector = selectors[position];
    if begins_designator(selectors, position, selector) {
        target_type(
            types,
            decl_kinds,
            use_target_by_token(types.view(), syntax_positions, used, selector.of),
        )
    } else {
        previous_type
    }
}

/// Finds the targets of the names of all selectors. The result is indexed as the selectors are, and has `Unresolved` for a selector without
/// a name. Fails with `AllocError` if an allocation fails.
pub(crate) fn selector_targets(
    alloc: Global,
    types: &Types<'_>,
    decl_kinds: &[Option<DeclKind>],
    syntax_positions: &[SyntaxPosition],
    used: &[Target],
) -> Result<Vec<Target>, AllocError>
    requires decl_kinds { AreStoredKinds types.now decl_kinds.now }
    requires used { AreUseTargets types.now used.now }
    ensures { IfOk result (λ v. AreNamedTargets types.now (length types.now.rows.selectors) v.items) }
{
    let view = types.view();
    let selectors = view.table().selectors();
    let mut finder = Finder::new(alloc, types, view.bytes(), selectors.len());
    let mut targets = Vec::with_capacity(alloc, selectors.len())?;
    let mut previous_type = DesignatorType::Nothing;
    for position in 0..selectors.len() {
        let before = type_before(
            types,
            decl_kinds,
            syntax_positions,
            used,
            selectors,
            position,
            previous_type,
        );
        let step_result = follow_selector(
            &mut finder,
            decl_kinds,
            before,
            selectors[position].step,
        )?;
        targets.push(step_result.target)?;
        previous_type = step_result.known;
    }
    Ok(targets)
}
