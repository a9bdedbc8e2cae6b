//! Builds a hash table of the fields of a module, by record and name.
ghost use Rattle.std.specs.Prelude.{◌≡◌, ◌&&◌, Some, IfOk, OnOk, if◌then◌else◌};
ghost use Rattle.std.specs.Option.{option_and_then};
ghost use Rattle.std.specs.Str.{bytes_eq};
ghost use Rattle.indexmap.specs.IndexMap.{get};
ghost use Rattle.module_table.specs.declared.rows.DeclGroup.{DeclGroup as Construct};
ghost use Rattle.ob_types.specs.FieldIndex.{field_key_eq, AreFields, FieldKey};
ghost use Rattle.ob_view.specs.World.{decl_group_from, is_of_record, text};

use indexmap::IndexMap;
use module_table::Declared;
use ob_view::View;
use std::alloc::{AllocError, Global};
use text_hash::{Name, Seed};

/// The record of the declaration group whose first token is `first`, if it declares fields; `None` for any other group. `index` is the
/// index of an identifier of the group, as a hint.
pub(crate) fn record_of(view: &View<'_>, index: usize, first: u32) -> Option<u32>
    ensures { result ≡ option_and_then (λ (c : Construct). c.of_record) (decl_group_from view.now first) }
{
    view.decl_group(index, first)?.of_record
}

/// Inserts the identifier `row` under its record and name, if it is a field. Replaces an earlier field with the same record and name.
fn insert_if_field<'a>(
    view: &View<'a>,
    fields: &mut IndexMap<(u32, Name<'a>), u32, Seed>,
    index: usize,
    row: Declared,
) -> Result<(), AllocError>
    ensures { OnOk result ((key : FieldKey) → get field_key_eq fields.new key ≡ (if is_of_record view.now key.0 row && bytes_eq (text view.now row.number) key.1.bytes.now then Some row.number else get field_key_eq fields.old key)) }
{
    match record_of(view, index, row.declared_by) {
        None => Ok(()),
        Some(record) => {
            let bytes = view.text(row.number);
            fields.insert((record, Name { bytes }), row.number)?;
            Ok(())
        }
    }
}

/// Makes the map from a record and a name to the token of the field. Fields are inserted from the last to the first, so of several fields
/// of a record with one name the first remains. The map is in a box, so that a move copies only a pointer.
pub(crate) fn index_fields<'a>(
    alloc: Global,
    view: &View<'a>,
) -> Result<Box<IndexMap<(u32, Name<'a>), u32, Seed>>, AllocError>
    ensures { IfOk result (λ fields. AreFields view.now fields.value) }
{
    let rows = view.table().declared();
    let seed = Seed::for_keys(view.bytes(), rows.len());
    let mut fields = Box::new(alloc, IndexMap::with_hasher(alloc, seed))?;
    let mut at = rows.len();
    'rows: while at > 0 {
        at -= 1;
        insert_if_field(view, &mut fields, at, rows[at])?;
    }
    Ok(fields)
}
