//! Interfaces with sorted indexes.
ghost use Rattle.std.specs.Prelude.{◌≡◌, ◌+◌, ◌<◌, ◌≤◌, ◌^◌, None, Some, IfOk, OnSome, length, position, slice_get};
ghost use Rattle.std.specs.Option.{option_and_then, option_map};
ghost use Rattle.ob_interface.specs.Views.{base_value, declaration_value, part_value};
ghost use Rattle.ob_interface.specs.Orders.{fits_alias, fits_base, fits_name, name_key, index_by_name, index_by_record, record_key, AreByName, AreByRecord};
ghost use Rattle.ob_interface.specs.Placed.{base_named, declaration_at, type_part, holds, module_named, owner_index, index_of};
ghost use Rattle.ob_interface.specs.IndexEntries.{Indexes};
ghost use Rattle.ob_interface.specs.RowValues.{interface_in, HasBoundedLists};
ghost use Rattle.ob_interface.specs.Indexed.{HasIndexes};
ghost use Rattle.ob_interface.specs.Texts.{base_in, text_in};
ghost use Rattle.ob_interface.specs.declared.rows.ImportRow.{ImportRow as ImportItem};

use crate::entries::{sorted_aliases, sorted_bases, sorted_declarations, sorted_owners};
use crate::export_rows::PlainInterface;
use crate::order::{first_index_by_name, first_index_by_record, span_text};
use crate::rows::{DeclarationRow, NameIndexEntry, RecordIndexEntry, Rows};
use crate::views::{
    Base, Declaration, Part, decode_base, decode_declaration, decode_part, parts_between,
};
use std::alloc::{AllocError, Global};
use std::marker::Model;

/// The sorted indexes of the entries.
#[derive(Drop)]
struct RowIndexes {
    /// The declarations by record and name. The declarations of the module's block come first.
    members: Vec<NameIndexEntry>,
    /// The import items by alias.
    aliases: Vec<NameIndexEntry>,
    /// The bases by record.
    bases: Vec<RecordIndexEntry>,
    /// The declarations by the record in which their type expression ends.
    owners: Vec<RecordIndexEntry>,
}

/// Builds the four sorted indexes of an interface.
fn build_indexes(alloc: Global, rows: &Rows) -> Result<RowIndexes, AllocError>
    requires { HasBoundedLists rows.now }
    ensures { IfOk result (λ x. HasIndexes rows.now x.members.items x.aliases.items x.bases.items x.owners.items) }
{
    let text = rows.text.as_slice();
    let declarations = rows.declarations.as_slice();
    let members = sorted_declarations(alloc, text, declarations)?;
    let aliases = sorted_aliases(alloc, text, rows.imports.as_slice())?;
    let bases = sorted_bases(alloc, rows.bases.as_slice())?;
    let owners = sorted_owners(alloc, rows.parts.as_slice(), declarations)?;
    Ok(RowIndexes {
        members,
        aliases,
        bases,
        owners,
    })
}

/// The interface of a module, with sorted indexes: a look-up is one binary search. Its value in contracts is the `ModuleInterface`. It
/// owns all its data.
///
/// A declaration is represented by its index among the declarations in file order, from 0, and a record by the token number of its RECORD
/// keyword, from 0. If several elements match a look-up, it returns the first one in the file.
#[derive(Drop)]
pub struct Interface {
    rows: Rows,
    indexes: RowIndexes,
}

impl Model for Interface {
    ghost use Rattle.ob_interface.specs.Interfaces.{ModuleInterface};
    ghost use Rattle.ob_interface.specs.RowValues.{interface_in};
    ghost use Rattle.ob_interface.specs.Indexed.{HasIndexes};

    ghost Value = { ModuleInterface };

    ghost view = { λ i. interface_in i.rows };

    ghost invariant = { λ i. HasIndexes i.rows i.indexes.members.items i.indexes.aliases.items i.indexes.bases.items i.indexes.owners.items };
}

/// The index of the declaration of a name in a record, or in the module's block if no record is given.
fn find_member_index(
    rows: &Rows,
    members: &[NameIndexEntry],
    record: Option<u32>,
    name: &[u8],
) -> Option<u32>
    // The index is sorted by record, name and index.
    requires by_name { AreByName rows.now.text.items members.now }
    // The first entry with a key has the index of the first element with this key.
    requires indexes { Indexes (name_key rows.now.text.items) index_by_name fits_name (interface_in rows.now).declarations members.now }
    ensures { result ≡ index_of (interface_in rows.now) «record» name.now }
{
    first_index_by_name(rows.text.as_slice(), members, record, name)
}

/// The index of the import item of an alias.
fn find_import_index(rows: &Rows, aliases: &[NameIndexEntry], alias: &[u8]) -> Option<u32>
    // The index is sorted by record, name and index.
    requires by_name { AreByName rows.now.text.items aliases.now }
    // The first entry with a key has the index of the first element with this key.
    requires indexes { Indexes (name_key rows.now.text.items) index_by_name fits_alias (interface_in rows.now).imports aliases.now }
    ensures { result ≡ position (fits_alias (None, alias.now)) (interface_in rows.now).imports }
{
    first_index_by_name(rows.text.as_slice(), aliases, None, alias)
}

/// The index of the base of a record.
fn find_base_index(rows: &Rows, bases: &[RecordIndexEntry], record: u32) -> Option<u32>
    // The index is sorted by record and index.
    requires by_record { AreByRecord bases.now }
    // The first entry with a key has the index of the first element with this key.
    requires indexes { Indexes record_key index_by_record fits_base (interface_in rows.now).bases bases.now }
    ensures { result ≡ position (fits_base «record») (interface_in rows.now).bases }
{
    let _ = &rows.bases;
    first_index_by_record(bases, record)
}

/// The index of the declaration that owns a record.
fn find_owner_index(rows: &Rows, owners: &[RecordIndexEntry], record: u32) -> Option<u32>
    // The index is sorted by record and index.
    requires by_record { AreByRecord owners.now }
    // The first entry with a key has the index of the first element with this key.
    requires indexes { Indexes record_key index_by_record holds (interface_in rows.now).declarations owners.now }
    ensures { result ≡ owner_index (interface_in rows.now) «record» }
{
    let _ = &rows.declarations;
    first_index_by_record(owners, record)
}

/// The entry of the declaration with this index.
fn declaration_row(rows: &Rows, index: u32) -> Option<&DeclarationRow>
    ensures { option_map (λ row. row.now) result ≡ slice_get rows.now.declarations.items index }
{
    rows.declarations.as_slice().get(index as usize)
}

/// The declaration with this index.
fn declaration_by_index(rows: &Rows, index: u32) -> Option<Declaration<'_>>
    ensures { option_map declaration_value result ≡ declaration_at (interface_in rows.now) index }
{
    let row = declaration_row(rows, index)?;
    Some(decode_declaration(rows, row))
}

/// The component with index `at`, from 0, of the type expression of the declaration with this index.
fn part_by_index(rows: &Rows, index: u32, at: usize) -> Option<Part<'_>>
    ensures part { option_map part_value result ≡ type_part (interface_in rows.now) index at }
    ensures few { OnSome result (at + 1 < 2 ^ 64) }
{
    let row = declaration_row(rows, index)?;
    let type_expr = parts_between(rows.parts.as_slice(), row.first_part, row.parts_end);
    let part = type_expr.get(at)?;
    Some(decode_part(rows.text.as_slice(), part.part))
}

/// The own name of the module that the import item with this index names.
fn imported_module_name(rows: &Rows, index: u32) -> Option<&[u8]>
    ensures { option_map (λ m. m.now) result ≡ option_map (λ (r : ImportItem). text_in rows.now.text.items r.imported) (slice_get rows.now.imports.items index) }
{
    let row = rows.imports.as_slice().get(index as usize)?;
    Some(span_text(rows.text.as_slice(), row.imported))
}

/// The base with this index.
fn base_by_index(rows: &Rows, index: u32) -> Option<Base<'_>>
    ensures { option_map base_value result ≡ option_map (base_in rows.now.text.items) (slice_get rows.now.bases.items index) }
{
    let row = rows.bases.as_slice().get(index as usize)?;
    Some(decode_base(rows.text.as_slice(), row))
}

/// The own name of the module that an alias denotes.
fn module_name_by_alias<'a>(
    rows: &'a Rows,
    aliases: &[NameIndexEntry],
    alias: &[u8],
) -> Option<&'a [u8]>
    // The index is sorted by record, name and index.
    requires by_name { AreByName rows.now.text.items aliases.now }
    // The first entry with a key has the index of the first element with this key.
    requires indexes { Indexes (name_key rows.now.text.items) index_by_name fits_alias (interface_in rows.now).imports aliases.now }
    ensures { option_map (λ m. m.now) result ≡ module_named (interface_in rows.now) alias.now }
{
    let index = find_import_index(rows, aliases, alias)?;
    imported_module_name(rows, index)
}

/// The base of a record.
fn find_base<'a>(rows: &'a Rows, bases: &[RecordIndexEntry], record: u32) -> Option<Base<'a>>
    // The index is sorted by record and index.
    requires by_record { AreByRecord bases.now }
    // The first entry with a key has the index of the first element with this key.
    requires indexes { Indexes record_key index_by_record fits_base (interface_in rows.now).bases bases.now }
    ensures { option_map base_value result ≡ base_named (interface_in rows.now) «record» }
{
    let index = find_base_index(rows, bases, record)?;
    base_by_index(rows, index)
}

impl Interface {
    /// Builds the indexes of an interface. Returns `AllocError` if an allocation fails.
    pub fn new(alloc: Global, seen: PlainInterface) -> Result<Interface, AllocError>
        ensures { IfOk result (λ i. i ≡ seen) }
    {
        let PlainInterface { rows } = seen;
        let indexes = build_indexes(alloc, &rows)?;
        Ok(Interface { rows, indexes })
    }

    /// The module's name.
    pub fn name(&self) -> &[u8]
        ensures { result.now ≡ self.now.name }
    {
        span_text(self.rows.text.as_slice(), self.rows.name)
    }

    /// The number of declarations, at most 2^32.
    pub fn declaration_count(&self) -> usize
        // The result is the number of declarations.
        ensures count { result ≡ length self.now.declarations }
        // Every index of a declaration fits 32 bits.
        ensures few { result ≤ 2 ^ 32 }
    {
        self.rows.declarations.len()
    }

    /// The index of the declaration of a name in a record, or in the module's block if no record is given.
    pub fn index_of(&self, record: Option<u32>, name: &[u8]) -> Option<u32>
        ensures { result ≡ index_of self.now «record» name.now }
    {
        find_member_index(&self.rows, self.indexes.members.as_slice(), record, name)
    }

    /// The declaration with this index.
    pub fn declaration_at(&self, index: u32) -> Option<Declaration<'_>>
        ensures { option_map declaration_value result ≡ declaration_at self.now index }
    {
        declaration_by_index(&self.rows, index)
    }

    /// The component with index `at`, from 0, of the type expression of the declaration with this index.
    pub fn type_part(&self, index: u32, at: usize) -> Option<Part<'_>>
        // The result is the component, if there is one.
        ensures part { option_map part_value result ≡ type_part self.now index at }
        // The index after an existing component fits 64 bits.
        ensures few { OnSome result (at + 1 < 2 ^ 64) }
    {
        part_by_index(&self.rows, index, at)
    }

    /// The declaration of this name in the module's block.
    pub fn declaration(&self, name: &[u8]) -> Option<Declaration<'_>>
        ensures { option_map declaration_value result ≡ option_and_then (declaration_at self.now) (index_of self.now None name.now) }
    {
        let index = self.index_of(None, name)?;
        self.declaration_at(index)
    }

    /// The field of this name in a record.
    pub fn field(&self, record: u32, name: &[u8]) -> Option<Declaration<'_>>
        ensures { option_map declaration_value result ≡ option_and_then (declaration_at self.now) (index_of self.now (Some «record») name.now) }
    {
        let index = self.index_of(Some(record), name)?;
        self.declaration_at(index)
    }

    /// The own name of the module that an alias denotes.
    pub fn module_of(&self, alias: &[u8]) -> Option<&[u8]>
        ensures { option_map (λ m. m.now) result ≡ module_named self.now alias.now }
    {
        module_name_by_alias(&self.rows, self.indexes.aliases.as_slice(), alias)
    }

    /// The base of a record.
    pub fn base(&self, record: u32) -> Option<Base<'_>>
        ensures { option_map base_value result ≡ base_named self.now «record» }
    {
        find_base(&self.rows, self.indexes.bases.as_slice(), record)
    }

    /// The index of the declaration whose type is the record, directly or through arrays and pointers. If an identifier list declares
    /// several identifiers of this type, it is the index of the first.
    pub fn owner(&self, record: u32) -> Option<u32>
        ensures { result ≡ owner_index self.now «record» }
    {
        find_owner_index(&self.rows, self.indexes.owners.as_slice(), record)
    }
}
