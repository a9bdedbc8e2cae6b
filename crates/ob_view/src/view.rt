//! A module with the interfaces of the modules that it reaches, as one value.
ghost use Rattle.std.specs.Prelude.{◌≡◌, ◌≤◌, ◌^◌, IfOk, length, map, slice_get};
ghost use Rattle.std.specs.Option.{option_map};
ghost use Rattle.std.specs.Arc.{arc_value};
ghost use Rattle.module_table.specs.Tables.{rows_in};
ghost use Rattle.ob_scan.specs.Spelling.{AreInText};
ghost use Rattle.ob_view.specs.ModuleNumbers.{AreByName, AreNumberedModules};
ghost use Rattle.ob_view.specs.World.{decl_group_from, declared_at, item_of, meaning, module_number, module_of_item, record_at, text, type_index_from, world};

use crate::hints::build_hints;
use crate::indexed_parts::IndexedParts;
use crate::parts::Parts;
use module_table::{DeclGroup, Declared, Record, Table};
use ob_interface::Interface;
use ob_scan::Token;
use scopes::Scopes;
use std::alloc::{AllocError, Global};
use std::marker::Model;
use std::sync::Arc;

/// A module with the interfaces of the modules of its tree that it reaches, which are those that it imports directly or indirectly.
/// Contracts describe a view by the `World` of the module. A view borrows the module's parts, and owns hints and an index of the imports.
///
/// A token is represented by its number; an import item, a component of a type expression and a reached module by its index; a
/// declaration of a reached module by its index in the interface; a record by the token number of its RECORD keyword. All count from 0.
/// If several entries match a look-up, it returns the first one in file order.
#[derive(Drop)]
pub struct View<'a> {
    indexed_parts: IndexedParts<'a>,
}

impl<'a> Model for View<'a> {
    ghost use Rattle.ob_view.specs.WorldOfParts.{world_of};
    ghost use Rattle.ob_view.specs.World.{World};

    ghost Value = { World };

    ghost view = { λ v. world_of v.indexed_parts.parts };
}

impl<'a> View<'a> {
    /// Builds the view of the module with these tokens, bytes, table and scopes. `reached` must be sorted by name. Returns `AllocError`
    /// if an allocation fails.
    pub fn new(
        alloc: Global,
        bytes: &'a [u8],
        tokens: &'a [Token],
        table: &'a Table,
        scopes: &'a Scopes,
        reached: &'a [Arc<Interface>],
    ) -> Result<View<'a>, AllocError>
        // Every token is a range of the bytes.
        requires in_text { AreInText bytes.now tokens.now }
        // Indexes of modules fit 32 bits.
        requires few { length reached.now ≤ 2 ^ 32 }
        // The reached modules are sorted by name.
        requires by_name { AreByName (map arc_value reached.now) }
        ensures { IfOk result (λ v. v ≡ world bytes.now tokens.now (rows_in table.now) scopes.now (map arc_value reached.now)) }
    {
        let parts = Parts {
            bytes,
            tokens,
            table,
            scopes,
            reached,
            hints: build_hints(alloc, table, tokens.len())?,
        };
        let indexed_parts = IndexedParts::new(alloc, parts)?;
        Ok(View { indexed_parts })
    }

    /// States the invariant of the type: about the tokens, and about the reached modules.
    pub fn invariants(&self)
        // The tokens are ranges of the bytes.
        ensures in_text { AreInText self.now.bytes self.now.tokens }
        // The reached modules are sorted by name, and their indexes fit 32 bits.
        ensures module_numbers { AreNumberedModules self.now.reached }
    {
        // The use of a field makes the invariant of the field's type known to the prover.
        let _ = &self.indexed_parts;
    }

    /// Returns the bytes of the token with this number; empty if the number is beyond the last token.
    pub fn text(&self, token: u32) -> &'a [u8]
        ensures { result.now ≡ text self.now token }
    {
        self.indexed_parts.text(token)
    }

    /// Returns the token of the declaration that the use at token `used` means; `None` if it means none.
    pub fn meaning(&self, used: u32) -> Option<u32>
        ensures { result ≡ meaning self.now used }
    {
        self.indexed_parts.parts.meaning(used)
    }

    /// Equals `meaning`, but takes constant time if it is called for the uses in their order. `cursor` is a hint, an index among the uses
    /// that mean a declaration: 0 for the first call. A call for such a use moves it to the next one.
    pub fn meaning_by_hint(&self, cursor: &mut usize, used: u32) -> Option<u32>
        ensures { result ≡ meaning self.now used }
    {
        self.indexed_parts.parts.meaning_by_hint(cursor, used)
    }

    /// Returns the entry of the identifier that this token declares; `None` if it declares none.
    pub fn declared_at(&self, token: u32) -> Option<Declared>
        ensures { result ≡ declared_at self.now token }
    {
        self.indexed_parts.parts.declared_at(token)
    }

    /// Returns the probable index of the identifier that this token declares, as a hint for `decl_group` and `type_index_from`; 0 if no
    /// index is stored.
    pub fn index_hint(&self, declared: u32) -> usize {
        self.indexed_parts.parts.hints.index(declared)
    }

    /// Returns the declaration group whose first token is `first`; `None` if there is none. `hint` is the probable index of an identifier
    /// of the group, and affects only speed.
    pub fn decl_group(&self, hint: usize, first: u32) -> Option<DeclGroup>
        ensures { result ≡ decl_group_from self.now first }
    {
        self.indexed_parts.parts.decl_group(hint, first)
    }

    /// Returns the index of the outermost component of the type of the declaration group whose first token is `first`; `None` if it has no
    /// type. `hint` is the probable index of an identifier of the group, and affects only speed.
    pub fn type_index_from(&self, hint: usize, first: u32) -> Option<usize>
        ensures { result ≡ type_index_from self.now first }
    {
        self.indexed_parts.parts.type_index_from(hint, first)
    }

    /// Returns the index of the import item whose alias this token declares; `None` if there is none.
    pub fn item(&self, declared: u32) -> Option<u32>
        ensures { result ≡ item_of self.now declared }
    {
        self.indexed_parts.item(declared)
    }

    /// Returns the entry of the record whose RECORD keyword is at token `keyword`; `None` if there is none.
    pub fn record(&self, keyword: u32) -> Option<Record>
        ensures { result ≡ record_at self.now keyword }
    {
        self.indexed_parts.parts.record(keyword)
    }

    /// Returns the index of the reached module that the import item with this index names; `None` if that module isn't in the tree.
    pub fn module_number(&self, item: u32) -> Option<u32>
        ensures { result ≡ module_of_item self.now item }
    {
        self.indexed_parts.module_of_item(item)
    }

    /// Returns the index of the reached module of this name; `None` if there is none.
    pub fn module_number_by_name(&self, name: &[u8]) -> Option<u32>
        ensures { result ≡ module_number self.now name.now }
    {
        self.indexed_parts.module_number(name)
    }

    /// Returns the interface of the reached module with this index; `None` if there is none.
    pub fn interface(&self, reached: u32) -> Option<&'a Interface>
        ensures { option_map (λ m. m.now) result ≡ slice_get self.now.reached reached }
    {
        self.indexed_parts.parts.module(reached)
    }

    /// The module's bytes.
    pub fn bytes(&self) -> &'a [u8]
        ensures { result.now ≡ self.now.bytes }
    {
        self.indexed_parts.parts.bytes
    }

    /// The module's tokens.
    pub fn tokens(&self) -> &'a [Token]
        ensures { result.now ≡ self.now.tokens }
    {
        self.indexed_parts.parts.tokens
    }

    /// The module's table.
    pub fn table(&self) -> &'a Table
        ensures { rows_in result.now ≡ self.now.rows }
    {
        self.indexed_parts.parts.table
    }

    /// The module's scopes.
    pub fn scopes(&self) -> &'a Scopes
        ensures { result.now ≡ self.now.scopes }
    {
        self.indexed_parts.parts.scopes
    }

    /// The interfaces of the reached modules, sorted by name.
    pub fn reached(&self) -> &'a [Arc<Interface>]
        ensures { map arc_value result.now ≡ self.now.reached }
    {
        self.indexed_parts.parts.reached
    }
}
