//! Follows single selectors: from the designator type before a selector to that after it. A designator type is what a prefix of a
//! designator is known to denote. In the clauses, `finder.new ≡ finder.old` says that the call doesn't change the types of the finder.
//! `Follows R before result`: the result is the type to which relation `R` leads from `before`, or `Nothing` if it leads to none.
ghost use Rattle.std.specs.Prelude.{◌≡◌, IfOk};
ghost use Rattle.type_graph.specs.Searches.{HasElement, HasTarget};
ghost use Rattle.ob_types.specs.SameDeclaration.{same};
ghost use Rattle.ob_types.specs.Shapes.{shape};
ghost use Rattle.ob_targets.specs.declared.designator_type.DesignatorType.TheVariants as knowns;
ghost use Rattle.ob_targets.specs.Steps.{Follows, Levels, Selects};

use crate::targets::{exported_target, field_target};
use ob_targets::DesignatorType;
use ob_types::{Node, Types};
use ob_view::Target;
use std::alloc::AllocError;
use type_graph::Finder;

/// The target of the name at token `name` as the name of a field of the type `node`; `Unresolved` if the type has no field of this name.
fn field_target_at(
    finder: &mut Finder<'_, Types<'_>>,
    node: Node,
    name: u32,
) -> Result<Target, AllocError>
    ensures types { finder.new ≡ finder.old }
    ensures selects { IfOk result (Selects finder.old (knowns.Typed node) name) }
{
    let text = finder.graph().view().text(name);
    match finder.find_field(node, text)? {
        Some(field) => Ok(field_target(field)),
        None => Ok(Target::Unresolved),
    }
}

/// The target of the name at token `name`, which follows a dot; `known` is the designator type before the dot. `Unresolved` if no module
/// and no type is known there, or if it has no such name.
pub(crate) fn selected_target(
    finder: &mut Finder<'_, Types<'_>>,
    known: DesignatorType,
    name: u32,
) -> Result<Target, AllocError>
    ensures types { finder.new ≡ finder.old }
    ensures selects { IfOk result (Selects finder.old known name) }
{
    match known {
        DesignatorType::Nothing => Ok(Target::Unresolved),
        DesignatorType::Module(item) => Ok(exported_target(finder.graph().view(), item, name)),
        DesignatorType::Typed(node) => field_target_at(finder, node, name),
    }
}

/// The designator type after one index expression, given the designator type `known` before it: the type of the array's elements, or
/// `Nothing` if no array is known there.
fn element_type(
    finder: &mut Finder<'_, Types<'_>>,
    known: DesignatorType,
) -> Result<DesignatorType, AllocError>
    ensures types { finder.new ≡ finder.old }
    ensures follows { IfOk result (Follows (HasElement same (shape finder.old)) known) }
{
    match known {
        DesignatorType::Nothing => Ok(DesignatorType::Nothing),
        DesignatorType::Module(_) => Ok(DesignatorType::Nothing),
        DesignatorType::Typed(node) => match finder.element(node)? {
            Some(next) => Ok(DesignatorType::Typed(next)),
            None => Ok(DesignatorType::Nothing),
        },
    }
}

/// The designator type after `count` index expressions, given the designator type `known` before them.
pub(crate) fn indexed_type(
    finder: &mut Finder<'_, Types<'_>>,
    known: DesignatorType,
    count: u32,
) -> Result<DesignatorType, AllocError>
    ensures types { finder.new ≡ finder.old }
    ensures levels { IfOk result (Levels finder.old count known) }
{
    let mut at = known;
    for _level in 0..count {
        at = element_type(finder, at)?;
    }
    Ok(at)
}

/// The designator type after the selector `^`, given the designator type `known` before it: the type to which the pointer points, or
/// `Nothing` if no pointer is known there.
pub(crate) fn pointed_type(
    finder: &mut Finder<'_, Types<'_>>,
    known: DesignatorType,
) -> Result<DesignatorType, AllocError>
    ensures types { finder.new ≡ finder.old }
    ensures follows { IfOk result (Follows (HasTarget same (shape finder.old)) known) }
{
    match known {
        DesignatorType::Nothing => Ok(DesignatorType::Nothing),
        DesignatorType::Module(_) => Ok(DesignatorType::Nothing),
        DesignatorType::Typed(node) => match finder.target(node)? {
            Some(next) => Ok(DesignatorType::Typed(next)),
            None => Ok(DesignatorType::Nothing),
        },
    }
}
