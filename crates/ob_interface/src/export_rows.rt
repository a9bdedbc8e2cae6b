//! Reads the interface of a module from its table.
ghost use Rattle.std.specs.Prelude.{◌≡◌, ℕ, IfOk, IsSome, OnOk};
ghost use Rattle.std.specs.List.{filter};
ghost use Rattle.std.specs.List.Sorted.{IsNonDecreasingBy};
ghost use Rattle.ob_scan.specs.Spelling.{AreInText};
ghost use Rattle.module_table.specs.Tables.{rows_in};
ghost use Rattle.ob_interface.specs.Interfaces.{interface_of, is_part_by, module_level_by};
ghost use Rattle.ob_interface.specs.RowValues.{interface_in};

use crate::buffer::append_text;
use crate::members::{collect_bases, collect_declarations, collect_imports};
use crate::rows::Rows;
use crate::type_exprs::{collect_components, sorted_parts};
use module_table::{Table, TypePart};
use ob_scan::{Token, TokenTexts};
use std::alloc::{AllocError, Global};
use std::marker::Model;

/// Fills empty lists from the table of a module. `own` has the components of the type expressions in the module's block, sorted by
/// declaration group. Returns `AllocError` if an allocation fails.
fn fill_rows(
    rows: &mut Rows,
    alloc: Global,
    table: &Table,
    source: &TokenTexts,
    own: &[TypePart],
) -> Result<(), AllocError>
    // The tokens are ranges of the bytes.
    requires in_text { AreInText source.now.bytes.now source.now.tokens.now }
    // The components of each declaration group are adjacent.
    requires together { IsNonDecreasingBy (λ p. p.declared_by) own.now }
    requires same { (k : ℕ) → IsSome (module_level_by (rows_in table.now).decl_groups k) → filter (is_part_by k) own.now ≡ filter (is_part_by k) (rows_in table.now).parts }
    ensures { OnOk result (interface_in rows.new ≡ interface_of source.now.bytes.now source.now.tokens.now (rows_in table.now)) }
{
    rows.name = append_text(&mut rows.text, source.token_text(1))?;
    table.invariants();
    let decl_groups = table.decl_groups();
    let declared = table.declared();
    rows.declarations = collect_declarations(
        alloc,
        &mut rows.text,
        source,
        decl_groups,
        own,
        declared,
    )?;
    rows.bases = collect_bases(alloc, &mut rows.text, source, decl_groups, table.records())?;
    rows.imports = collect_imports(alloc, &mut rows.text, source, table.imports())?;
    rows.parts = collect_components(alloc, &mut rows.text, source, own)?;
    Ok(())
}

/// The entries of the interface of the module with this table.
fn read_rows(
    alloc: Global,
    table: &Table,
    tokens: &[Token],
    bytes: &[u8],
) -> Result<Rows, AllocError>
    // The tokens are ranges of the bytes.
    requires { AreInText bytes.now tokens.now }
    ensures { IfOk result (λ rows. interface_in rows ≡ interface_of bytes.now tokens.now (rows_in table.now)) }
{
    table.invariants();
    let own = sorted_parts(alloc, table.decl_groups(), table.parts())?;
    let source = TokenTexts { bytes, tokens };
    let mut rows = Rows::new(alloc);
    fill_rows(&mut rows, alloc, table, &source, own.as_slice())?;
    Ok(rows)
}

/// The interface of a module, without indexes for look-ups. Its value in contracts is a `ModuleInterface`. It owns all its data.
#[derive(Drop)]
pub struct PlainInterface {
    pub(crate) rows: Rows,
}

impl Model for PlainInterface {
    ghost use Rattle.ob_interface.specs.Interfaces.{ModuleInterface};
    ghost use Rattle.ob_interface.specs.RowValues.{interface_in, HasBoundedLists};

    ghost Value = { ModuleInterface };

    ghost view = { λ seen. interface_in seen.rows };

    ghost invariant = { λ seen. HasBoundedLists seen.rows };
}

/// The interface of the module with this table, these tokens and bytes. Returns `AllocError` if an allocation fails.
pub fn read_interface(
    alloc: Global,
    table: &Table,
    tokens: &[Token],
    bytes: &[u8],
) -> Result<PlainInterface, AllocError>
    // Every token is a range of the bytes.
    requires { AreInText bytes.now tokens.now }
    // The interface is exactly that of the module.
    ensures exact { IfOk result (λ seen. seen ≡ interface_of bytes.now tokens.now (rows_in table.now)) }
{
    table.rows_are_bounded();
    let rows = read_rows(alloc, table, tokens, bytes)?;
    Ok(PlainInterface { rows })
}
