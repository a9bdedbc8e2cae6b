//! The declarations of the module itself, by token number, and the steps of their symbol paths.
ghost use Rattle.std.specs.Prelude.{◌≡◌, ◌==◌, find, slice_get};
ghost use Rattle.std.specs.Option.{option_map};
ghost use Rattle.module_table.specs.declared.rows.Declared.{Declared};
ghost use Rattle.module_table.specs.declared.rows.DeclGroup.{DeclGroup};
ghost use Rattle.module_table.specs.Tables.{rows_in};
ghost use Rattle.ob_view.specs.World.{decl_group_of};
ghost use Rattle.ob_emit.specs.StoredTexts.{step_model};
ghost use Rattle.ob_emit.specs.Symbols.{is_local, declared_step, declared_steps};

use crate::hinted_lookup::decl_group_by_hint;
use crate::steps::{LastStep, NumberedDeclarations, step_in_block, step_in_record};
use module_table::{DeclGroup, Declared, Import, Table};
use ob_view::View;

/// The declaration group whose first token is `first`, or `None` if there is none.
fn decl_group_from(table: &Table, first: u32) -> Option<DeclGroup>
    ensures { result ≡ find (λ (by : DeclGroup). by.first == first) (rows_in table.now).decl_groups }
{
    table.invariants();
    table.decl_group(first).copied()
}

/// The entry of the identifier that token `number` declares, or `None` if the token declares none.
fn declared_at(table: &Table, number: u32) -> Option<Declared>
    ensures { result ≡ find (λ (d : Declared). d.number == number) (rows_in table.now).declared }
{
    table.invariants();
    table.declaration(number).copied()
}

/// The import item at index `item` of the module's import list, or `None` if there is none.
pub(crate) fn import_at<'a>(view: &View<'a>, item: u32) -> Option<&'a Import>
    ensures { option_map (λ i. i.now) result ≡ slice_get view.now.rows.imports item }
{
    view.table().imports().get(item as usize)
}

/// Whether an identifier is declared in another block than the module's: in that of a procedure or of a procedure type. The search for the
/// identifier's declaration group begins at the index in `hint` and updates it.
pub(crate) fn is_local(view: &View<'_>, hint: &mut usize, declared: &Declared) -> bool
    ensures { result ≡ is_local view.now declared.now }
{
    match decl_group_by_hint(view.table(), hint, declared.declared_by) {
        Some(by) => by.block != 0,
        None => false,
    }
}

/// The declaration group of the identifier that token `number` declares, or `None` if the token declares none.
pub(crate) fn decl_group_of(view: &View<'_>, number: u32) -> Option<DeclGroup>
    ensures { result ≡ decl_group_of view.now number }
{
    let declared = declared_at(view.table(), number)?;
    decl_group_from(view.table(), declared.declared_by)
}

/// The last path step of the identifier at token `number`, which the declaration group `by` declares. `None` for an import item, for a
/// group in another block than the module's, and for a field whose owner isn't declared before it.
fn declared_step<'a>(view: &View<'a>, number: u32, by: DeclGroup) -> Option<LastStep<'a>>
    ensures { option_map step_model result ≡ declared_step view.now number by }
{
    if by.block != 0 {
        return None;
    }
    let name = view.text(number);
    match by.of_record {
        None => step_in_block(by.decl_kind, name),
        Some(record) => step_in_record(number, name, view.owner(record)),
    }
}

impl NumberedDeclarations for View<'_> {
    ghost use Rattle.ob_emit.specs.Symbols.{declared_steps};

    ghost steps_in = { λ w. declared_steps w };

    fn step(&self, number: u32) -> Option<LastStep<'_>> {
        let by = decl_group_of(self, number)?;
        declared_step(self, number, by)
    }
}
