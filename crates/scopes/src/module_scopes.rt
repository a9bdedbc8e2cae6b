//! The scopes of a module as a value, with its look-ups.
ghost use Rattle.std.specs.Prelude.{◌≡◌, ◌<◌, ◌≤◌, ℕ, true, Some, IfSome, IfNone, Contains, map, slice_get};
ghost use Rattle.module_table.specs.Order.{IsIncreasingBy, HasNoneBy, IsIndexBy};
ghost use Rattle.scopes.specs.Aliases.{IsAliasFor};
ghost use Rattle.std.specs.String.{string_bytes};
ghost use Rattle.scopes.specs.ScopesInvariant.{alias_of, meaning_of, AreValidScopes};
ghost use Rattle.scopes.specs.declared.meaning.Resolution.{Resolution};
ghost use Rattle.scopes.specs.declared.module_scopes.Alias.{Alias};
ghost use Rattle.scopes.specs.Scoped.{AliasUses};

use crate::meaning::Resolution;
use module_table::{Keyed, index_of};
use std::marker::Model;

/// An import item: its alias, and the module that the alias denotes.
#[derive(Drop)]
pub struct Alias {
    /// The token number of the alias.
    pub decl: u32,
    /// The name of the module that the alias denotes.
    pub module: String,
    /// The number of uses that the alias qualifies.
    pub uses: u64,
}

impl Keyed for Alias {
    ghost number_in = { λ alias. alias.decl };

    fn key(&self) -> u32 {
        self.decl
    }
}

/// The meanings of all uses of a module, and its aliases. Identifiers are represented by their token numbers, from 0.
#[derive(Drop)]
pub struct Scopes {
    name: String,
    meanings: Vec<Resolution>,
    aliases: Vec<Alias>,
}

impl Model for Scopes {
    ghost use Rattle.std.specs.Prelude.{map};
    ghost use Rattle.std.specs.String.{string_bytes};
    ghost use Rattle.scopes.specs.ScopesInvariant.{alias_of, meaning_of, AreValidScopes};
    ghost use Rattle.scopes.specs.Scoped.{ModuleScopes};

    ghost Value = { ModuleScopes };

    ghost view = { λ s. record { name = string_bytes s.name; meanings = map meaning_of s.meanings.items; aliases = map alias_of s.aliases.items } };

    ghost invariant = { λ s. AreValidScopes (record { name = string_bytes s.name; meanings = map meaning_of s.meanings.items; aliases = map alias_of s.aliases.items }) };
}

/// True only if all entries before index `at` belong to uses before the use `used`.
fn earlier_entries_precede(rows: &[Resolution], at: usize, used: u32) -> bool
    requires { IsIncreasingBy (λ (m : Resolution). m.used) rows.now }
    ensures { result ≡ true → (i : ℕ) (m : Resolution) → i < at → slice_get rows.now i ≡ Some m → m.used < used }
{
    match at.checked_sub(1) {
        Some(last) => match rows.get(last) {
            Some(row) => row.used < used,
            None => false,
        },
        None => true,
    }
}

/// True only if all entries from index `at` on belong to uses after the use `used`.
fn later_entries_follow(rows: &[Resolution], at: usize, used: u32) -> bool
    requires { IsIncreasingBy (λ (m : Resolution). m.used) rows.now }
    ensures { result ≡ true → (i : ℕ) (m : Resolution) → at ≤ i → slice_get rows.now i ≡ Some m → used < m.used }
{
    match rows.get(at) {
        Some(row) => used < row.used,
        None => true,
    }
}

/// Whether the entry with index `at` belongs to the use `used`.
fn is_entry_of(rows: &[Resolution], at: usize, used: u32) -> bool
    ensures { result ≡ true → IsIndexBy (λ (m : Resolution). m.used) rows.now used at }
{
    match rows.get(at) {
        Some(row) => row.used == used,
        None => false,
    }
}

/// The index of the entry of a use. If the entry at index `cursor` and the one before it don't decide, a binary search does. If an entry is
/// found, `cursor` becomes the index after it.
fn use_index_by_hint(rows: &[Resolution], cursor: &mut usize, used: u32) -> Option<usize>
    requires { IsIncreasingBy (λ (m : Resolution). m.used) rows.now }
    ensures found { IfSome result (IsIndexBy (λ (m : Resolution). m.used) rows.now used) }
    ensures none { IfNone result (HasNoneBy (λ (m : Resolution). m.used) rows.now used) }
{
    let at = *cursor;
    if is_entry_of(rows, at, used) {
        *cursor = at.saturating_add(1);
        return Some(at);
    }
    if earlier_entries_precede(rows, at, used) && later_entries_follow(rows, at, used) {
        return None;
    }
    let at = index_of(rows, used)?;
    *cursor = at.saturating_add(1);
    Some(at)
}

impl Scopes {
    /// The scopes of a module with this name, these meanings of its uses and these aliases.
    pub fn new(name: String, meanings: Vec<Resolution>, aliases: Vec<Alias>) -> Scopes
        // Uses and aliases are sorted by token number, and all aliases together qualify at most 16,777,216 uses.
        requires { AreValidScopes (record { name = string_bytes name; meanings = map meaning_of meanings.items; aliases = map alias_of aliases.items }) }
        // The result has exactly this name, these meanings and these aliases.
        ensures { result ≡ record { name = string_bytes name; meanings = map meaning_of meanings.items; aliases = map alias_of aliases.items } }
    {
        Scopes {
            name,
            meanings,
            aliases,
        }
    }

    /// States the invariant: uses and aliases are sorted by token number, and all aliases together qualify at most 16,777,216 uses.
    pub fn invariants(&self)
        ensures { AreValidScopes self.now }
    {
        // Using a field makes the type's invariant known to the prover here.
        let _ = &self.name;
    }

    /// The name of the module.
    pub fn name(&self) -> &str
        ensures { result.now ≡ self.now.name }
    {
        self.name.as_str()
    }

    /// The token number of the declaration that this use means; `None` if the token isn't a use or the use means no declaration of this
    /// module. Takes logarithmic time.
    pub fn resolve(&self, used: u32) -> Option<u32>
        // The use means the returned declaration.
        ensures found { IfSome result (λ declared. Contains self.now.meanings (record { used = used; declared = declared })) }
        // `None` is returned only if the token means no declaration.
        ensures none { IfNone result ((declared : ℕ) → Contains self.now.meanings (record { used = used; declared = declared }) → ⊥) }
    {
        let at = index_of(self.meanings.as_slice(), used)?;
        Some(self.meanings[at].declared)
    }

    /// Returns what `resolve` returns, in constant time if uses are looked up in token order. `cursor` is a hint: 0 before the first use; a
    /// call that finds an entry sets it to the index after the entry.
    pub fn resolve_by_hint(&self, cursor: &mut usize, used: u32) -> Option<u32>
        // The use means the returned declaration.
        ensures found { IfSome result (λ declared. Contains self.now.meanings (record { used = used; declared = declared })) }
        // `None` is returned only if the token means no declaration.
        ensures none { IfNone result ((declared : ℕ) → Contains self.now.meanings (record { used = used; declared = declared }) → ⊥) }
    {
        let at = use_index_by_hint(self.meanings.as_slice(), cursor, used)?;
        Some(self.meanings[at].declared)
    }

    /// The aliases, in token order.
    pub fn aliases(&self) -> &[Alias]
        ensures { map alias_of result.now ≡ self.now.aliases }
    {
        self.aliases.as_slice()
    }

    /// The number of uses that the alias declared by this token qualifies; 0 if the token declares no alias.
    pub fn qualified_uses(&self, alias: u32) -> u64
        // The result is the count of the alias.
        ensures found { (a : AliasUses) → Contains self.now.aliases a → a.alias ≡ alias → result ≡ a.uses }
        // The result is 0 if the token declares no alias.
        ensures none { ((a : AliasUses) → Contains self.now.aliases a → a.alias ≡ alias → ⊥) → result ≡ 0 }
    {
        match index_of(self.aliases.as_slice(), alias) {
            Some(at) => self.aliases[at].uses,
            None => 0,
        }
    }

    /// Whether this token declares an alias of the module named `imported`.
    pub fn is_alias_of(&self, alias: u32, imported: &str) -> bool
        // True only for an alias of the module.
        ensures yes { result ≡ true → IsAliasFor self.now alias imported.now }
        // True for every alias of the module.
        ensures no { IsAliasFor self.now alias imported.now → result ≡ true }
    {
        match index_of(self.aliases.as_slice(), alias) {
            Some(at) => self.aliases[at].module.as_str() == imported,
            None => false,
        }
    }
}
