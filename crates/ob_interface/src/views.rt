//! The types that an interface returns; their names are slices of its buffer.

ghost use Rattle.std.specs.Prelude.{◌≡◌, None, Some, map, drop, length, IfSome, IfNone, slice_get, slice_range};
ghost use Rattle.ob_interface.specs.Views.{base_value, declaration_value, name_value, part_value};
ghost use Rattle.ob_interface.specs.RowValues.{type_expr_in};
ghost use Rattle.ob_interface.specs.Texts.{base_in, declaration_in, name_in, part_in, part_row_in};

use crate::order::span_text;
use crate::rows::{BaseRow, DeclarationRow, NameRow, PartRow, RowPart, Rows};
use module_table::DeclKind;
use std::marker::Model;

/// The name of a type, without or with the alias that qualifies it.
#[derive(Clone, Copy, Drop)]
pub enum TypeName<'a> {
    Simple(&'a [u8]),
    Qualified(&'a [u8], &'a [u8]),
}

/// A component of a type expression.
#[derive(Clone, Copy, Drop)]
pub enum Part<'a> {
    /// An array; one component for each of its lengths.
    Array,
    /// A pointer.
    Pointer,
    /// A record type, by the token number of its RECORD keyword, from 0.
    Record(u32),
    /// A procedure type.
    Procedure,
    /// A type's name, with its byte offset in the file.
    Named { start: u32, name: TypeName<'a> },
}

/// A type expression. Its value in contracts is the list of its components, from the outermost to the innermost.
#[derive(Drop)]
pub struct TypeExpr<'a> {
    text: &'a [u8],
    parts: &'a [PartRow],
}

impl<'a> Model for TypeExpr<'a> {
    ghost use Rattle.std.specs.Prelude.{List, map};
    ghost use Rattle.ob_interface.specs.Interfaces.{Part};
    ghost use Rattle.ob_interface.specs.Texts.{part_row_in};

    ghost Value = { List Part };

    ghost view = { λ f. map (part_row_in f.text.now) f.parts.now };
}

/// A constant, type, variable or procedure in the module's block, or a field of a record there.
#[derive(Drop)]
pub struct Declaration<'a> {
    /// The identifier.
    pub name: &'a [u8],
    /// The byte offset of the identifier in the file.
    pub start: u32,
    /// The kind of the declaration, neither `Import` nor `Parameter`.
    pub decl_kind: DeclKind,
    /// Whether it is exported.
    pub exported: bool,
    /// The record of a field, by the token number of its RECORD keyword, from 0.
    pub record: Option<u32>,
    /// The token number of the first token of its declaration group, from 0; the identifiers of one list share it.
    pub declared_by: u32,
    /// The type expression; empty for constants and procedures.
    pub type_expr: TypeExpr<'a>,
}

/// The base of a record.
#[derive(Clone, Copy, Drop)]
pub struct Base<'a> {
    /// The record, by the token number of its RECORD keyword, from 0.
    pub record: u32,
    /// The byte offset of the base's name in the file.
    pub start: u32,
    /// The base's name.
    pub name: TypeName<'a>,
}

/// The name of an entry, as slices of the buffer `text`.
fn decode_name<'a>(text: &'a [u8], name: NameRow) -> TypeName<'a>
    ensures { name_value result ≡ name_in text.now name }
{
    match name.member {
        None => TypeName::Simple(span_text(text, name.head)),
        Some(member) => TypeName::Qualified(span_text(text, name.head), span_text(text, member)),
    }
}

/// The component of an entry, with its name as slices of the buffer `text`.
pub(crate) fn decode_part<'a>(text: &'a [u8], part: RowPart) -> Part<'a>
    ensures { part_value result ≡ part_in text.now part }
{
    match part {
        RowPart::Array => Part::Array,
        RowPart::Pointer => Part::Pointer,
        RowPart::Record(number) => Part::Record(number),
        RowPart::Procedure => Part::Procedure,
        RowPart::Named { start, name } => Part::Named {
            start,
            name: decode_name(text, name),
        },
    }
}

impl<'a> TypeExpr<'a> {
    /// The outermost component; `None` if the type expression is empty.
    pub fn first(&self) -> Option<Part<'a>>
        // The result is the outermost component.
        ensures some { IfSome result (λ p. slice_get self.now 0 ≡ Some (part_value p)) }
        // `None` is returned only for an empty type expression.
        ensures none { IfNone result (slice_get self.now 0 ≡ None) }
    {
        let row = self.parts.first()?;
        Some(decode_part(self.text, row.part))
    }

    /// The type expression without its outermost component.
    pub fn rest(&self) -> TypeExpr<'a>
        ensures { result ≡ drop 1 self.now }
    {
        TypeExpr {
            text: self.text,
            parts: &self.parts[self.parts.len().min(1)..],
        }
    }
}

/// The components from index `first` to before `end`; indexes beyond the list are ignored.
pub(crate) fn parts_between(parts: &[PartRow], first: usize, end: usize) -> &[PartRow]
    ensures { result.now ≡ slice_range parts.now first end }
{
    let rest = &parts[first.min(parts.len())..];
    let length = end.saturating_sub(first);
    &rest[..length.min(rest.len())]
}

/// The declaration of an entry, with its names as slices of the buffer.
pub(crate) fn decode_declaration<'a>(rows: &'a Rows, row: &DeclarationRow) -> Declaration<'a>
    ensures { declaration_value result ≡ declaration_in (type_expr_in rows.now.text.items rows.now.parts.items) rows.now.text.items row.now }
{
    let text = rows.text.as_slice();
    let type_expr = TypeExpr {
        text,
        parts: parts_between(rows.parts.as_slice(), row.first_part, row.parts_end),
    };
    Declaration {
        name: span_text(text, row.name),
        start: row.start,
        decl_kind: row.decl_kind,
        exported: row.exported,
        record: row.record,
        declared_by: row.declared_by,
        type_expr,
    }
}

/// The base of an entry, with its name as slices of the buffer `text`.
pub(crate) fn decode_base<'a>(text: &'a [u8], row: &BaseRow) -> Base<'a>
    ensures { base_value result ≡ base_in text.now row.now }
{
    Base {
        record: row.record,
        start: row.start,
        name: decode_name(text, row.name),
    }
}
