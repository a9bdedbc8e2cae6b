//! Look-ups in the table and the scopes of the module itself. In the clauses, `world_of self` is the `World` that the parts make up.
#![tactic(auto, unfolding(crate::specs::World::text, crate::specs::World::meaning, crate::specs::World::declared_at, crate::specs::World::decl_group_from, crate::specs::World::type_index_from, crate::specs::World::item_of, crate::specs::World::record_at))]

ghost use Rattle.std.specs.Prelude.{◌≡◌, slice_get};
ghost use Rattle.std.specs.Option.{option_map};
ghost use Rattle.ob_scan.specs.Spelling.{AreInText};
ghost use Rattle.ob_view.specs.WorldOfParts.{world_of, IsBounded};
ghost use Rattle.ob_view.specs.World.{declared_at, decl_group_from, type_index_from, item_of, meaning, record_at, text};

use crate::hints::Hints;
use crate::indexes::{decl_group_if_at, declared_if_at, find_import, find_type_part, type_if_at};
use module_table::{DeclGroup, Declared, Record, Table};
use ob_interface::Interface;
use ob_scan::{Token, TokenTexts};
use scopes::Scopes;
use std::sync::Arc;

/// A module's bytes, tokens, table and scopes, the interfaces of the modules that it reaches, and hints for its table.
#[derive(Drop)]
pub(crate) struct Parts<'a> {
    pub(crate) bytes: &'a [u8],
    pub(crate) tokens: &'a [Token],
    pub(crate) table: &'a Table,
    pub(crate) scopes: &'a Scopes,
    pub(crate) reached: &'a [Arc<Interface>],
    pub(crate) hints: Hints,
}

impl<'a> Parts<'a> {
    /// The bytes of a token; empty if the number is beyond the last token.
    pub(crate) fn text(&self, number: u32) -> &'a [u8]
        requires { AreInText self.now.bytes.now self.now.tokens.now }
        ensures { result.now ≡ text (world_of self.now) number }
    {
        let texts = TokenTexts {
            bytes: self.bytes,
            tokens: self.tokens,
        };
        texts.token_text(number)
    }

    /// The token of the declaration that the use at token `used` means; `None` if it means none.
    pub(crate) fn meaning(&self, used: u32) -> Option<u32>
        ensures { result ≡ meaning (world_of self.now) used }
    {
        self.scopes.invariants();
        self.scopes.resolve(used)
    }

    /// Equals `meaning`, but takes constant time if it is called for the uses in their order. `cursor` is a hint, an index among the uses
    /// that mean a declaration. A call for such a use moves it to the next one.
    pub(crate) fn meaning_by_hint(&self, cursor: &mut usize, used: u32) -> Option<u32>
        ensures { result ≡ meaning (world_of self.now) used }
    {
        self.scopes.invariants();
        self.scopes.resolve_by_hint(cursor, used)
    }

    /// The entry of the identifier that this token declares; `None` if it declares none. Tries the stored hint before a binary search.
    pub(crate) fn declared_at(&self, number: u32) -> Option<Declared>
        ensures { result ≡ declared_at (world_of self.now) number }
    {
        self.table.invariants();
        match declared_if_at(self.table.declared(), self.hints.index(number), number) {
            Some(row) => Some(row),
            None => self.table.declaration(number).copied(),
        }
    }

    /// The declaration group whose first token is `first`; `None` if there is none. Tries the hint of the identifier with the index `index`
    /// before a binary search.
    pub(crate) fn decl_group(&self, index: usize, first: u32) -> Option<DeclGroup>
        ensures { result ≡ decl_group_from (world_of self.now) first }
    {
        self.table.invariants();
        let at = self.hints.at(index).decl_group as usize;
        match decl_group_if_at(self.table.decl_groups(), at, first) {
            Some(row) => Some(row),
            None => self.table.decl_group(first).copied(),
        }
    }

    /// The index of the outermost component of the type of the declaration group whose first token is `first`; `None` if it has no type.
    /// Tries the hint of the identifier with the index `index` before a binary search.
    pub(crate) fn type_index_from(&self, index: usize, first: u32) -> Option<usize>
        ensures { result ≡ type_index_from (world_of self.now) first }
    {
        self.table.invariants();
        let at = self.hints.at(index).type_expr as usize;
        match type_if_at(self.table.parts(), at, first) {
            Some(type_expr) => Some(type_expr),
            None => find_type_part(self.table.parts(), first),
        }
    }

    /// The index of the import item whose alias this token declares; `None` if there is none.
    pub(crate) fn item(&self, declared: u32) -> Option<u32>
        // There are at most 2^32 import items.
        requires { IsBounded self.now }
        ensures { result ≡ item_of (world_of self.now) declared }
    {
        self.table.invariants();
        find_import(self.table.imports(), declared)
    }

    /// The entry of the record whose RECORD keyword is at token `number`; `None` if there is none.
    pub(crate) fn record(&self, number: u32) -> Option<Record>
        ensures { result ≡ record_at (world_of self.now) number }
    {
        self.table.invariants();
        self.table.record(number).copied()
    }
    /// The interface of the reached module with this index; `None` if there is none.
    pub(crate) fn module(&self, reached: u32) -> Option<&'a Interface>
        ensures { option_map (λ m. m.now) result ≡ slice_get (world_of self.now).reached reached }
    {
        let module = self.reached.get(reached as usize)?;
        Some(&**module)
    }
}
