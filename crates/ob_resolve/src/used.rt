//! Finds the targets of all uses of a module once, and returns a stored target wherever one is needed.
//! `AreUseTargets view used` in the clauses: the list has the targets of all uses of the module, in order.
ghost use Rattle.std.specs.Prelude.{◌≡◌, IfOk, IfSome};
ghost use Rattle.ob_targets.specs.Targets.{use_target};
ghost use Rattle.ob_resolve.specs.Used.{AreUseTargets};

use crate::targets::{use_target, use_target_by_hint};
use ob_targets::SyntaxPosition;
use ob_view::{Target, View};
use std::alloc::{AllocError, Global};

/// Finds the targets of all uses of the module, in the order of the uses. Each search begins where the previous one ended, which makes it
/// fast.
pub(crate) fn use_targets(alloc: Global, view: &View<'_>) -> Result<Vec<Target>, AllocError>
    ensures { IfOk result (λ v. AreUseTargets view.now v.items) }
{
    let uses = view.table().uses();
    let mut targets = Vec::with_capacity(alloc, uses.len())?;
    let mut hint = 0;
    for row in uses {
        targets.push(use_target_by_hint(view, &mut hint, row.number))?;
    }
    Ok(targets)
}

/// The stored target of the use at index `at`, if this use is at token `number`, and otherwise `None`.
fn stored_target(view: &View<'_>, used: &[Target], at: usize, number: u32) -> Option<Target>
    requires { AreUseTargets view.now used.now }
    ensures { IfSome result (λ t. t ≡ use_target view.now number) }
{
    let row = view.table().uses().get(at)?;
    if row.number == number {
        used.get(at).copied()
    } else {
        None
    }
}

/// The target of the use at token `number`: the stored one if the use has the index `at`, and otherwise the one that a lookup of its
/// meaning finds.
pub(crate) fn use_target_at(view: &View<'_>, used: &[Target], at: usize, number: u32) -> Target
    requires { AreUseTargets view.now used.now }
    ensures { result ≡ use_target view.now number }
{
    match stored_target(view, used, at, number) {
        Some(target) => target,
        None => use_target(view, number),
    }
}

/// The target of the use at token `number`. The syntactic position of the token has the index at which the target is stored.
pub(crate) fn use_target_by_token(
    view: &View<'_>,
    syntax_positions: &[SyntaxPosition],
    used: &[Target],
    number: u32,
) -> Target
    requires { AreUseTargets view.now used.now }
    ensures { result ≡ use_target view.now number }
{
    match syntax_positions.get(number as usize) {
        Some(SyntaxPosition::Use(at)) => use_target_at(view, used, *at, number),
        _ => use_target(view, number),
    }
}
