//! The entries of import items, and of names after END.

ghost use Rattle.std.specs.Prelude.{◌≡◌, ◌+◌, ◌<◌, ◌^◌};
ghost use Rattle.table_rules.specs.Declaring.{import_inner, import_rows, module_end, named_by, procedure_end};
ghost use Rattle.ob_tree.specs.Widths.{name_width};
ghost use Rattle.module_table.specs.TableStages.{after, PerformsStep};
ghost use Rattle.module_table.specs.Parts.{with_rows, token};

use module_table::builder::{Context, TableBuilder, decl_group_context, new_decl_group};
use module_table::{DeclKind, Declared, End, Import};
use ob_tree::declaration::ImportItem;

/// Appends the name after the END of a procedure, with the name that it has to repeat.
#[tactic(auto, using(crate::proofs::DeclarationLayers::sections_made))]
pub fn append_procedure_end(builder: &mut TableBuilder, context: Context)
    requires decl_group { context.decl_group + 1 < 2 ^ 32 }
    requires number { builder.old.number + 1 < 2 ^ 32 }
    // Exactly the entry of the name is appended, unless an allocation fails.
    ensures stage { PerformsStep (after (with_rows procedure_end token) context) builder.old builder.new }
    // One token is consumed.
    ensures number { builder.new.number ≡ builder.old.number + 1 }
{
    let number = builder.number;
    builder.add_end(End {
        number,
        of: Some(context.decl_group + 1),
    });
    builder.advance()
}

/// The index of the name of the imported module, in the import item that begins with this token: the identifier after `:=`, or the first
/// one if there is no alias.
fn imported_name_index(import: ImportItem, number: u32) -> u32
    requires { number + name_width import.of < 2 ^ 32 }
    ensures { result ≡ named_by import.of number }
{
    match import.of {
        None => number,
        Some(_) => number + 2,
    }
}

/// Appends the import item itself and the identifier that it declares, without the declaration group.
#[tactic(auto, using(crate::proofs::DeclarationLayers::sections_made))]
fn append_import_entries(builder: &mut TableBuilder, context: Context, import: ImportItem)
    requires { builder.old.number + name_width import.of < 2 ^ 32 }
    // Exactly the two entries are appended, unless an allocation fails.
    ensures stage { PerformsStep (after (import_inner import) context) builder.old builder.new }
    // The tokens of the import item are consumed.
    ensures number { builder.new.number ≡ builder.old.number + name_width import.of }
{
    let number = builder.number;
    let imported = imported_name_index(import, number);
    builder.add_import(Import {
        alias: number,
        imported,
    });
    builder.add_declared(Declared {
        number,
        exported: false,
        declared_by: context.decl_group,
    });
    builder.advance();
    match import.of {
        None => {}
        Some(_) => {
            builder.advance();
            builder.advance();
        }
    }
}

/// Appends the entries of an import item, with a declaration group from its first token to its last.
#[tactic(auto, using(crate::proofs::DeclarationLayers::sections_made))]
pub fn append_import(builder: &mut TableBuilder, context: Context, import: ImportItem)
    requires { builder.old.number + name_width import.of < 2 ^ 32 }
    // Exactly the entries of the import item are appended, unless an allocation fails.
    ensures stage { PerformsStep (after (import_rows import) context) builder.old builder.new }
    // The tokens of the import item are consumed.
    ensures number { builder.new.number ≡ builder.old.number + name_width import.of }
{
    let first = builder.number;
    let row = new_decl_group(DeclKind::Import, context, first);
    let at = builder.open_decl_group(row);
    append_import_entries(builder, decl_group_context(context, first), import);
    builder.close_decl_group(at, row);
}

/// Appends the name after the END of the module.
#[tactic(auto, using(crate::proofs::DeclarationLayers::sections_made))]
pub fn append_module_end(builder: &mut TableBuilder, context: Context)
    requires { builder.old.number + 1 < 2 ^ 32 }
    // Exactly the entry of the name is appended, unless an allocation fails.
    ensures stage { PerformsStep (after (with_rows module_end token) context) builder.old builder.new }
    // One token is consumed.
    ensures number { builder.new.number ≡ builder.old.number + 1 }
{
    let number = builder.number;
    builder.add_end(End { number, of: None });
    builder.advance()
}
