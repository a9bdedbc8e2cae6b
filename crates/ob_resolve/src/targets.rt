//! Determines the targets of names, the designator types of targets, and the roles of uses. Almost all functions equal the definition of
//! the same name. `AreStoredKinds view decl_kinds`: each kind in the list is that of the declaration at the token with this index.
ghost use Rattle.std.specs.Prelude.{◌≡◌};
ghost use Rattle.ob_targets.specs.Targets.{declared_target, use_target, exported_target, qualident_member_target, end_target, field_target, target_type, type_if_value, holds_value, use_role, value_role};
ghost use Rattle.ob_targets.specs.Steps.{guard_type};
ghost use Rattle.ob_types.specs.Shapes.{type_node_of};
ghost use Rattle.ob_view.specs.World.{meaning};
ghost use Rattle.ob_resolve.specs.StoredKinds.{AreStoredKinds};

use crate::decl_kinds::decl_kind_of;
use module_table::{DeclKind, TypeName};
use ob_targets::{DesignatorType, is_predeclared};
use ob_types::{Field, Node, Types};
use ob_view::{Target, View};
use type_graph::Shape;

/// The target of a use that means the declaration at token `declared`. If the declaration is the alias of an import item, the target is the
/// module that the item names, and otherwise the declaration itself.
fn declared_target(view: &View<'_>, declared: u32) -> Target
    ensures { result ≡ declared_target view.now declared }
{
    match view.item(declared) {
        None => Target::Declared(declared),
        Some(item) => Target::Module(item),
    }
}

/// The target of the use at token `used`. `meant` is the token of the declaration that the use means, or `None` if it means none.
/// Always inlined, since it is called for each use.
#[inline(always)]
fn meaning_target(view: &View<'_>, used: u32, meant: Option<u32>) -> Target
    requires { meant ≡ meaning view.now used }
    ensures { result ≡ use_target view.now used }
{
    match meant {
        Some(declared) => declared_target(view, declared),
        None => {
            if is_predeclared(view.text(used)) {
                Target::Predeclared
            } else {
                Target::Unresolved
            }
        }
    }
}

/// The target of the use at token `used`, by the scopes of the module and the list of predeclared names.
pub(crate) fn use_target(view: &View<'_>, used: u32) -> Target
    ensures { result ≡ use_target view.now used }
{
    meaning_target(view, used, view.meaning(used))
}

/// The target of the use at token `used`. Fast if it is called for the uses in their order: the search for the meaning begins at the index
/// in `hint`, among the uses that mean a declaration. If it finds a meaning, it leaves there the index of the next such use.
pub(crate) fn use_target_by_hint(view: &View<'_>, hint: &mut usize, used: u32) -> Target
    ensures { result ≡ use_target view.now used }
{
    meaning_target(view, used, view.meaning_by_hint(hint, used))
}

/// The target of the name at token `name`, which follows the alias of the import item at index `item` and a dot: the declaration that the
/// module exports, or the name itself if the module isn't in the tree. `Unresolved` if the module exports no such name.
pub(crate) fn exported_target(view: &View<'_>, item: u32, name: u32) -> Target
    ensures { result ≡ exported_target view.now item name }
{
    match view.module_number(item) {
        None => Target::External { item, name },
        Some(reached) => match view.exported_index(reached, view.text(name)) {
            None => Target::Unresolved,
            Some(declaration) => Target::Imported {
                reached,
                declaration,
            },
        },
    }
}

/// The target of the identifier at token `name`, the second one of a qualident, given the target `first` of the first one. `Unresolved` if
/// the first one isn't a module.
pub(crate) fn qualident_member_target(view: &View<'_>, name: u32, first: Target) -> Target
    ensures { result ≡ qualident_member_target view.now name first }
{
    match first {
        Target::Module(item) => exported_target(view, item, name),
        Target::Declared(_) => Target::Unresolved,
        Target::Imported { .. } => Target::Unresolved,
        Target::External { .. } => Target::Unresolved,
        Target::Own => Target::Unresolved,
        Target::Predeclared => Target::Unresolved,
        Target::Unresolved => Target::Unresolved,
    }
}

/// The target of the name after END. `of` is the token at which the procedure that ends there is declared, or `None` at the end of the
/// module.
pub(crate) fn end_target(of: Option<u32>) -> Target
    ensures { result ≡ end_target of }
{
    match of {
        None => Target::Own,
        Some(procedure) => Target::Declared(procedure),
    }
}

/// The target of a name that denotes this field.
pub(crate) fn field_target(field: Field) -> Target
    ensures { result ≡ field_target field }
{
    match field {
        Field::Own(number) => Target::Declared(number),
        Field::Other {
            reached,
            declaration,
        } => Target::Imported {
            reached,
            declaration,
        },
    }
}

/// Whether a declaration of this kind holds a value: a variable, a parameter or a field.
fn holds_value(decl_kind: DeclKind) -> bool
    ensures { result ≡ holds_value decl_kind }
{
    match decl_kind {
        DeclKind::Variable | DeclKind::Parameter | DeclKind::Field => true,
        DeclKind::Import | DeclKind::Constant | DeclKind::Type | DeclKind::Procedure => false,
    }
}

/// The designator type of a declaration with this kind and this type: the type, or `Nothing` if the declaration doesn't hold a value, or if
/// its kind or type isn't known.
fn type_if_value(decl_kind: Option<DeclKind>, node: Option<Node>) -> DesignatorType
    ensures { result ≡ type_if_value decl_kind node }
{
    match decl_kind {
        None => DesignatorType::Nothing,
        Some(decl_kind) => match node {
            None => DesignatorType::Nothing,
            Some(node) => {
                if holds_value(decl_kind) {
                    DesignatorType::Typed(node)
                } else {
                    DesignatorType::Nothing
                }
            }
        },
    }
}

/// The designator type of the declaration at token `declared`, whose kind is `decl_kind`. The type is looked up only if the declaration
/// holds a value.
fn declared_type(types: &Types<'_>, decl_kind: Option<DeclKind>, declared: u32) -> DesignatorType
    ensures { result ≡ type_if_value decl_kind (type_node_of types.now declared) }
{
    match decl_kind {
        None => DesignatorType::Nothing,
        Some(decl_kind) => {
            if holds_value(decl_kind) {
                type_if_value(Some(decl_kind), types.type_expr(declared))
            } else {
                DesignatorType::Nothing
            }
        }
    }
}

/// The designator type of a target: the module, or the type of a declaration that holds a value, and otherwise `Nothing`. Always inlined,
/// since it is called in the loop over all selectors.
#[inline(always)]
pub(crate) fn target_type(
    types: &Types<'_>,
    decl_kinds: &[Option<DeclKind>],
    target: Target,
) -> DesignatorType
    requires { AreStoredKinds types.now decl_kinds.now }
    ensures { result ≡ target_type types.now target }
{
    match target {
        Target::Declared(declared) => {
            declared_type(
                types,
                decl_kind_of(types.view(), decl_kinds, declared),
                declared,
            )
        }
        Target::Imported {
            reached,
            declaration,
        } => type_if_value(
            types.view().imported_kind(reached, declaration),
            Some(Node::Other {
                reached,
                declaration,
                part: 0,
            }),
        ),
        Target::Module(item) => DesignatorType::Module(item),
        Target::External { .. } => DesignatorType::Nothing,
        Target::Own => DesignatorType::Nothing,
        Target::Predeclared => DesignatorType::Nothing,
        Target::Unresolved => DesignatorType::Nothing,
    }
}

/// The designator type after a selector in parentheses. `guard` is the name between the parentheses, if there is nothing else. If this is
/// the name of a type, the selector is a type guard and the result is the type, and otherwise `Nothing`.
pub(crate) fn guard_type(types: &Types<'_>, guard: Option<TypeName>) -> DesignatorType
    ensures { result ≡ guard_type types.now guard }
{
    match guard {
        None => DesignatorType::Nothing,
        Some(name) => match types.resolve_type_name(name.head, name.member) {
            Shape::Named(_, _) => DesignatorType::Typed(Node::Name {
                head: name.head,
                member: name.member,
            }),
            Shape::Array(_) => DesignatorType::Nothing,
            Shape::Pointer(_) => DesignatorType::Nothing,
            Shape::Record(_) => DesignatorType::Nothing,
            Shape::Procedure => DesignatorType::Nothing,
            Shape::Unknown => DesignatorType::Nothing,
        },
    }
}

/// The role of a use of a declaration of this kind (scip.proto, `SymbolRole`). A use of a variable, parameter or field has role 4 if it is
/// written and 8 if it is read; a use of any other declaration has role 0.
fn value_role(decl_kind: Option<DeclKind>, written: bool) -> u8
    ensures { result ≡ value_role decl_kind written }
{
    match decl_kind {
        None => 0,
        Some(decl_kind) => {
            if holds_value(decl_kind) {
                if written { 4 } else { 8 }
            } else {
                0
            }
        }
    }
}

/// The role of a use with this target (scip.proto, `SymbolRole`). If the target is a variable, parameter or field, the role is 4 for a
/// write and 8 for a read, and otherwise 0.
pub(crate) fn use_role(
    view: &View<'_>,
    decl_kinds: &[Option<DeclKind>],
    target: Target,
    written: bool,
) -> u8
    requires { AreStoredKinds view.now decl_kinds.now }
    ensures { result ≡ use_role view.now target written }
{
    match target {
        Target::Declared(declared) => value_role(decl_kind_of(view, decl_kinds, declared), written),
        Target::Imported {
            reached,
            declaration,
        } => value_role(view.imported_kind(reached, declaration), written),
        Target::Module(_) => 0,
        Target::External { .. } => 0,
        Target::Own => 0,
        Target::Predeclared => 0,
        Target::Unresolved => 0,
    }
}
