//! Lists the records and fields of a module and of the modules that it reaches.
ghost use Rattle.std.specs.Prelude.{IfOk, OnOk};
ghost use Rattle.ob_interface.specs.Views.{declaration_value};
ghost use Rattle.type_graph.specs.ListedFields.{AreAllFields};
ghost use Rattle.ob_types.specs.Shapes.{field_of};
ghost use Rattle.ob_types.specs.FieldLists.{ListsDeclaration, ListsModule, ListsLocal, ListsReached, ListsRow};

use crate::field_index::record_of;
use crate::nodes::Record;
use module_table::Declared;
use ob_interface::{Declaration, Interface, Part};
use ob_view::View;
use std::alloc::{AllocError, Global};
use type_graph::RecordField;

/// Appends the identifier `row`, which the module declares, if it is a field. `index` is the index of the identifier.
fn append_if_field<'a>(
    view: &View<'a>,
    fields: &mut Vec<RecordField<'a, Record>>,
    index: usize,
    row: Declared,
) -> Result<(), AllocError>
    ensures { OnOk result (ListsRow view.now row fields.old.items fields.new.items) }
{
    match record_of(view, index, row.declared_by) {
        None => Ok(()),
        Some(record) => {
            fields.push(RecordField {
                of_record: Record::Own(record),
                name: view.text(row.number),
            })?;
            Ok(())
        }
    }
}

/// Appends the fields that the module declares.
fn append_local_fields<'a>(
    view: &View<'a>,
    fields: &mut Vec<RecordField<'a, Record>>,
) -> Result<(), AllocError>
    ensures { OnOk result (ListsLocal view.now fields.old.items fields.new.items) }
{
    let rows = view.table().declared();
    for index in 0..rows.len() {
        append_if_field(view, fields, index, rows[index])?;
    }
    Ok(())
}

/// Appends a declaration of a reached module, if it is an exported field.
fn append_if_exported_field<'a>(
    fields: &mut Vec<RecordField<'a, Record>>,
    reached: u32,
    declaration: &Declaration<'a>,
) -> Result<(), AllocError>
    ensures { OnOk result (ListsDeclaration reached (declaration_value declaration.now) fields.old.items fields.new.items) }
{
    match declaration.record {
        Some(record) if declaration.exported => {
            fields.push(RecordField {
                of_record: Record::Other { reached, record },
                name: declaration.name,
            })?;
            Ok(())
        }
        _ => Ok(()),
    }
}

/// Appends the fields that a reached module exports.
fn append_module_fields<'a>(
    module: &'a Interface,
    fields: &mut Vec<RecordField<'a, Record>>,
    reached: u32,
) -> Result<(), AllocError>
    ensures { OnOk result (ListsModule reached module.now fields.old.items fields.new.items) }
{
    for index in 0..module.declaration_count() {
        match module.declaration_at(index as u32) {
            None => return Ok(()),
            Some(declaration) => append_if_exported_field(fields, reached, &declaration)?,
        }
    }
    Ok(())
}

/// Appends the fields that all reached modules export.
fn append_reached_fields<'a>(
    view: &View<'a>,
    fields: &mut Vec<RecordField<'a, Record>>,
) -> Result<(), AllocError>
    ensures { OnOk result (ListsReached view.now.reached fields.old.items fields.new.items) }
{
    view.invariants();
    let reached = view.reached();
    for at in 0..reached.len() {
        append_module_fields(&reached[at], fields, at as u32)?;
    }
    Ok(())
}

/// Lists the fields of all records: those that the module declares, and those that the reached modules export. Each field is listed with
/// the record that declares it.
pub(crate) fn list_fields<'a>(
    alloc: Global,
    view: &View<'a>,
) -> Result<Vec<RecordField<'a, Record>>, AllocError>
    ensures { IfOk result (λ fields. AreAllFields (field_of view.now) fields.items) }
{
    let mut fields = Vec::new(alloc);
    append_local_fields(view, &mut fields)?;
    append_reached_fields(view, &mut fields)?;
    Ok(fields)
}

/// An upper bound of the number of components of a declaration's type expression, found by doubling. `last_part` searches below it.
fn part_bound(module: &Interface, index: u32) -> usize {
    let mut distance = 1_usize;
    for _ in 0..32 {
        if module.type_part(index, distance).is_none() {
            return distance;
        }
        distance = distance.saturating_mul(2);
    }
    distance
}

/// The last component of a declaration's type expression, which is the innermost one, with its index; `None` if there are no components.
/// If the type has a record, this is it. Type expressions can be long, so this is a binary search.
pub(crate) fn last_part<'a>(module: &'a Interface, index: u32) -> Option<(usize, Part<'a>)> {
    let mut low = 0_usize;
    let mut high = part_bound(module, index);
    for _ in 0..32 {
        let half = high.saturating_sub(low) / 2;
        if half == 0 {
            break;
        }
        let middle = low.saturating_add(half);
        if module.type_part(index, middle).is_none() {
            high = middle;
        } else {
            low = middle;
        }
    }
    Some((low, module.type_part(index, low)?))
}

/// Appends the records of the declarations of a reached module.
fn append_records(
    module: &Interface,
    records: &mut Vec<Record>,
    reached: u32,
) -> Result<(), AllocError> {
    for index in 0..module.declaration_count() {
        if let Some((_, Part::Record(record))) = last_part(module, index as u32) {
            records.push(Record::Other { reached, record })?;
        }
    }
    Ok(())
}

/// The records of the module itself.
fn local_records(alloc: Global, view: &View<'_>) -> Result<Vec<Record>, AllocError> {
    let mut records = Vec::new(alloc);
    for row in view.table().records() {
        records.push(Record::Own(row.number))?;
    }
    Ok(records)
}

/// The records of the module and of the modules that it reaches.
pub(crate) fn list_records(alloc: Global, view: &View<'_>) -> Result<Vec<Record>, AllocError> {
    let mut records = local_records(alloc, view)?;
    view.invariants();
    let reached = view.reached();
    for at in 0..reached.len() {
        append_records(&reached[at], &mut records, at as u32)?;
    }
    Ok(records)
}

/// An estimate, by doubling, of the number of declarations of a reached module: the smallest power of two that isn't a declaration's index.
fn estimate_declaration_count(module: &Interface) -> u64 {
    let mut many = 1_u32;
    for _ in 0..32 {
        if module.declaration_at(many).is_none() {
            return u64::from(many);
        }
        many = many.saturating_mul(2);
    }
    u64::from(many)
}

/// An estimate of the number of declarations and records in the module and in the modules that it reaches. It affects only speed.
pub(crate) fn size_estimate(view: &View<'_>) -> u64 {
    let own = view
        .table()
        .declared()
        .len()
        .saturating_add(view.table().records().len());
    let mut size = own as u64;
    for module in view.reached() {
        size = size.saturating_add(estimate_declaration_count(module));
    }
    size
}
