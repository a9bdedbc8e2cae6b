//! The last steps of symbol paths. A declaration in the module's block other than an import item, and a field of a record type that is
//! declared there, has such a step: its own descriptor, and for a field the number of its owner. The owner is the declaration whose type
//! holds the record.
ghost use Rattle.std.specs.Prelude.{◌≡◌, ℕ, Option};
ghost use Rattle.std.specs.Option.{option_map};
ghost use Rattle.ob_emit.specs.StoredTexts.{step_model};
ghost use Rattle.ob_emit.specs.Symbols.{PathStep, step_in_block, step_in_record, descriptor_kind};

use module_table::DeclKind;
use scip_symbol::DescriptorKind;

/// The last step of a declaration's path: the kind and the name of the declaration's own descriptor. `owner` is the number of the
/// declaration whose type holds the field's record, and `None` for a declaration that isn't a field.
#[derive(Clone, Copy, Drop)]
pub(crate) struct LastStep<'a> {
    pub(crate) kind: DescriptorKind,
    pub(crate) name: &'a [u8],
    pub(crate) owner: Option<u32>,
}

/// A module whose declarations have numbers. The number of a declaration is for example its token, or its index in an interface.
pub(crate) trait NumberedDeclarations {
    ghost steps_in: { Self → ℕ → Option PathStep };

    /// The last step of the path of the declaration with this number. `None` if there is no such declaration, for an import item, and for a
    /// declaration that is neither in the module's block nor a field of a record type that is declared there.
    fn step(&self, number: u32) -> Option<LastStep<'_>>
        ensures { option_map step_model result ≡ steps_in self.now number };
}

/// The kind of the descriptor of a declaration of this kind; `None` for an import item, which has no descriptor.
fn descriptor_kind(decl_kind: DeclKind) -> Option<DescriptorKind>
    ensures { result ≡ descriptor_kind decl_kind }
{
    match decl_kind {
        DeclKind::Import => None,
        DeclKind::Type => Some(DescriptorKind::TypeName),
        DeclKind::Procedure => Some(DescriptorKind::Method),
        DeclKind::Constant | DeclKind::Variable | DeclKind::Parameter | DeclKind::Field => {
            Some(DescriptorKind::Term)
        }
    }
}

/// The last path step of a declaration in the module's block, with this kind and this name; `None` for an import item.
pub(crate) fn step_in_block(decl_kind: DeclKind, name: &[u8]) -> Option<LastStep<'_>>
    ensures { option_map step_model result ≡ step_in_block decl_kind name.now }
{
    let kind = descriptor_kind(decl_kind)?;
    Some(LastStep {
        kind,
        name,
        owner: None,
    })
}

/// The last path step of the field with this number and this name. `None` if it has no owner, or if the owner's number isn't smaller than
/// `number`. The smaller number makes the recursion from a field to its owner end.
pub(crate) fn step_in_record(number: u32, name: &[u8], owner: Option<u32>) -> Option<LastStep<'_>>
    ensures { option_map step_model result ≡ step_in_record number name.now owner }
{
    match owner {
        Some(before) if before < number => Some(LastStep {
            kind: DescriptorKind::Term,
            name,
            owner,
        }),
        _ => None,
    }
}
