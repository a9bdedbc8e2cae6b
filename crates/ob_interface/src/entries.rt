//! Builds the four sorted indexes of an interface.
ghost use Rattle.std.specs.Prelude.{◌≡◌, ◌++◌, ◌<◌, ◌≤◌, ◌^◌, Some, IfOk, IsPermutation, length};
ghost use Rattle.ob_interface.specs.Orders.{alias_entry, base_entry, last_part, declaration_entry, owner_by, owner_entry, record_token_of_part, AreByName, AreByRecord};
ghost use Rattle.ob_interface.specs.IndexEntries.{entries_from};
ghost use Rattle.std.specs.Option.{option_copied, option_to_list};

use crate::order::{sort_by_name, sort_by_record};
use crate::rows::{
    BaseRow, DeclarationRow, ImportRow, NameIndexEntry, PartRow, RecordIndexEntry, RowPart,
};
use crate::views::parts_between;
use std::alloc::{AllocError, Global};

/// The entry for the declaration number `at` in the index by name.
fn declaration_entry(row: &DeclarationRow, at: usize) -> NameIndexEntry
    requires { at < 2 ^ 32 }
    ensures { declaration_entry row.now at ≡ Some result }
{
    NameIndexEntry {
        record: row.record,
        name: row.name,
        index: at as u32,
    }
}

/// The index entries of all declarations.
fn declaration_entries(
    alloc: Global,
    rows: &[DeclarationRow],
) -> Result<Vec<NameIndexEntry>, AllocError>
    requires { length rows.now ≤ 2 ^ 32 }
    ensures { IfOk result (λ entries. entries.items ≡ entries_from declaration_entry 0 rows.now) }
{
    let mut entries = Vec::with_capacity(alloc, rows.len())?;
    for i in 0..rows.len() {
        let entry = declaration_entry(&rows[i], i);
        entries.push(entry)?;
    }
    Ok(entries)
}

/// The entry for the import item number `at` in the index by alias.
fn alias_entry(row: &ImportRow, at: usize) -> NameIndexEntry
    requires { at < 2 ^ 32 }
    ensures { alias_entry row.now at ≡ Some result }
{
    NameIndexEntry {
        record: None,
        name: row.alias,
        index: at as u32,
    }
}

/// The index entries of all import items.
fn alias_entries(alloc: Global, rows: &[ImportRow]) -> Result<Vec<NameIndexEntry>, AllocError>
    requires { length rows.now ≤ 2 ^ 32 }
    ensures { IfOk result (λ entries. entries.items ≡ entries_from alias_entry 0 rows.now) }
{
    let mut entries = Vec::with_capacity(alloc, rows.len())?;
    for i in 0..rows.len() {
        let entry = alias_entry(&rows[i], i);
        entries.push(entry)?;
    }
    Ok(entries)
}

/// The entry for the base number `at` in the index by record.
fn base_entry(row: &BaseRow, at: usize) -> RecordIndexEntry
    requires { at < 2 ^ 32 }
    ensures { base_entry row.now at ≡ Some result }
{
    RecordIndexEntry {
        record: row.record,
        index: at as u32,
    }
}

/// The index entries of all bases.
fn base_entries(alloc: Global, rows: &[BaseRow]) -> Result<Vec<RecordIndexEntry>, AllocError>
    requires { length rows.now ≤ 2 ^ 32 }
    ensures { IfOk result (λ entries. entries.items ≡ entries_from base_entry 0 rows.now) }
{
    let mut entries = Vec::with_capacity(alloc, rows.len())?;
    for i in 0..rows.len() {
        let entry = base_entry(&rows[i], i);
        entries.push(entry)?;
    }
    Ok(entries)
}

/// The token number of the component's RECORD keyword, if the component is a record type.
fn record_token_of_part(part: Option<&PartRow>) -> Option<u32>
    ensures { result ≡ record_token_of_part (option_copied part.entry) }
{
    match part?.part {
        RowPart::Record(record) => Some(record),
        RowPart::Array | RowPart::Pointer | RowPart::Procedure | RowPart::Named { .. } => None,
    }
}

/// The record in which the type expression of a declaration ends; `None` if it ends in no record.
fn owned_record(parts: &[PartRow], row: &DeclarationRow) -> Option<u32>
    ensures { result ≡ record_token_of_part (last_part parts.now row.now) }
{
    record_token_of_part(parts_between(parts, row.first_part, row.parts_end).last())
}

/// Appends an index entry for the declaration number `at` if its type expression ends in a record.
fn append_owner_entry(
    owners: &mut Vec<RecordIndexEntry>,
    record: Option<u32>,
    at: usize,
) -> Result<(), AllocError>
    requires { at < 2 ^ 32 }
    ensures { IfOk result (λ _. owners.new.items ≡ owners.old.items ++ option_to_list (owner_by at «record»)) }
{
    match record {
        None => Ok(()),
        Some(record) => {
            let index = at as u32;
            owners.push(RecordIndexEntry { record, index })?;
            Ok(())
        }
    }
}

/// The index entries of all declarations whose type expression ends in a record.
fn record_owner_entries(
    alloc: Global,
    parts: &[PartRow],
    rows: &[DeclarationRow],
) -> Result<Vec<RecordIndexEntry>, AllocError>
    requires { length rows.now ≤ 2 ^ 32 }
    ensures { IfOk result (λ entries. entries.items ≡ entries_from (owner_entry parts.now) 0 rows.now) }
{
    let mut entries = Vec::new(alloc);
    for i in 0..rows.len() {
        let record = owned_record(parts, &rows[i]);
        append_owner_entry(&mut entries, record, i)?;
    }
    Ok(entries)
}

/// The index of the declarations, sorted by record, name and index.
pub(crate) fn sorted_declarations(
    alloc: Global,
    text: &[u8],
    rows: &[DeclarationRow],
) -> Result<Vec<NameIndexEntry>, AllocError>
    requires { length rows.now ≤ 2 ^ 32 }
    // The entries are sorted by record, name and index.
    ensures sorted { IfOk result (λ entries. AreByName text.now entries.items) }
    // No entry is added or lost.
    ensures same { IfOk result (λ entries. IsPermutation (entries_from declaration_entry 0 rows.now) entries.items) }
{
    let mut entries = declaration_entries(alloc, rows)?;
    sort_by_name(text, &mut entries);
    Ok(entries)
}

/// The index of the import items, sorted by alias and index.
pub(crate) fn sorted_aliases(
    alloc: Global,
    text: &[u8],
    rows: &[ImportRow],
) -> Result<Vec<NameIndexEntry>, AllocError>
    requires { length rows.now ≤ 2 ^ 32 }
    // The entries are sorted by record, name and index.
    ensures sorted { IfOk result (λ entries. AreByName text.now entries.items) }
    // No entry is added or lost.
    ensures same { IfOk result (λ entries. IsPermutation (entries_from alias_entry 0 rows.now) entries.items) }
{
    let mut entries = alias_entries(alloc, rows)?;
    sort_by_name(text, &mut entries);
    Ok(entries)
}

/// The index of the bases, sorted by record and index.
pub(crate) fn sorted_bases(
    alloc: Global,
    rows: &[BaseRow],
) -> Result<Vec<RecordIndexEntry>, AllocError>
    requires { length rows.now ≤ 2 ^ 32 }
    // The entries are sorted by record and index.
    ensures sorted { IfOk result (λ entries. AreByRecord entries.items) }
    // No entry is added or lost.
    ensures same { IfOk result (λ entries. IsPermutation (entries_from base_entry 0 rows.now) entries.items) }
{
    let mut entries = base_entries(alloc, rows)?;
    sort_by_record(&mut entries);
    Ok(entries)
}

/// The index of the declarations whose type expression ends in a record, sorted by record and index.
pub(crate) fn sorted_owners(
    alloc: Global,
    parts: &[PartRow],
    rows: &[DeclarationRow],
) -> Result<Vec<RecordIndexEntry>, AllocError>
    requires { length rows.now ≤ 2 ^ 32 }
    // The entries are sorted by record and index.
    ensures sorted { IfOk result (λ entries. AreByRecord entries.items) }
    // No entry is added or lost.
    ensures same { IfOk result (λ entries. IsPermutation (entries_from (owner_entry parts.now) 0 rows.now) entries.items) }
{
    let mut entries = record_owner_entries(alloc, parts, rows)?;
    sort_by_record(&mut entries);
    Ok(entries)
}
