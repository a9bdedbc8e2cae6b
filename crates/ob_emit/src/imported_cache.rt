//! The symbol strings of declarations of other modules. Each string is made once and then found through a cache.
//! In the clauses, `AreImportedTexts w package_name texts` says that each element of `texts` has its declaration's symbol string.
//! `prefix.now ≡ prefix_text package_name`: `prefix` is the prefix of the symbol strings of the package.
ghost use Rattle.std.specs.Prelude.{◌≡◌, ◌<◌, [], List, ℕ, IfOk, IfSome, OnOk};
ghost use Rattle.std.specs.Option.{option_map};
ghost use Rattle.std.specs.String.{string_bytes};
ghost use Rattle.scip_symbol.specs.SymbolTexts.{canonical_text};
ghost use Rattle.ob_view.specs.World.{World};
ghost use Rattle.ob_emit.specs.StoredTexts.{prefix_text, AreImportedTexts};
ghost use Rattle.ob_emit.specs.Named.{NamesAreIdentifiers};
ghost use Rattle.ob_emit.specs.Symbols.{imported_symbol};

use crate::imported_texts::imported_text;
use indexmap::IndexMap;
use ob_view::View;
use std::alloc::{AllocError, Global};
use std::collections::BTreeMap;

/// The symbol string of a declaration of a reached module, with the index of the module and that of the declaration in its interface.
/// `text` is `None` if the declaration has no symbol.
#[derive(Drop)]
pub(crate) struct ImportedText {
    pub(crate) reached: u32,
    pub(crate) declaration: u32,
    pub(crate) text: Option<String>,
}

/// A map from the key of a declaration to the index of its symbol string. The first keys are in a hash table, all others in a B-tree: there
/// no choice of keys makes lookups slow, while in a hash table keys can collide.
#[derive(Drop)]
struct SlotMap {
    few: IndexMap<u64, usize>,
    more: BTreeMap<u64, usize>,
}

/// Symbol strings of declarations of reached modules, with a map and a cache from which the index of a declaration's string is read.
#[derive(Drop)]
pub(crate) struct ImportedTexts {
    pub(crate) texts: Vec<ImportedText>,
    slots: SlotMap,
    /// A direct-mapped cache of indices into `texts`; `cache_entry_index` selects the entry of a declaration. A cached index is checked
    /// before use.
    recent: Vec<usize>,
}

/// The number of entries of the cache of recently found indices.
const RECENT: usize = 128;

/// The maximum number of keys in the hash table. If all of them collide, a lookup takes some hundred steps.
const MAX_HASHED: usize = 1024;

/// The key of a declaration of a reached module: the module's index times 2^32, plus the declaration's index.
fn declaration_key(reached: u32, declaration: u32) -> u64 {
    u64::from(reached) * 4_294_967_296 + u64::from(declaration)
}

/// The index of the cache entry for a declaration. Several declarations share an entry.
fn cache_entry_index(reached: u32, declaration: u32) -> usize {
    reached.wrapping_mul(31).wrapping_add(declaration) as usize % RECENT
}

impl SlotMap {
    /// Makes an empty map.
    fn new(alloc: Global) -> SlotMap {
        SlotMap {
            few: IndexMap::new(alloc),
            more: BTreeMap::new(alloc),
        }
    }

    /// The index that is stored under this key, or `None` if there is none.
    fn get(&self, key: u64) -> Option<usize> {
        match self.few.get(&key) {
            Some(slot) => Some(*slot),
            None => self.more.get(&key).copied(),
        }
    }

    /// Stores the index of a string under its key.
    fn insert(&mut self, key: u64, slot: usize) -> Result<(), AllocError> {
        if self.few.len() < MAX_HASHED {
            self.few.insert(key, slot)?;
        } else {
            self.more.insert(key, slot)?;
        }
        Ok(())
    }
}

impl ImportedTexts {
    /// Makes a table without strings. All entries of its cache are 0, and each is checked before use.
    pub(crate) fn new(alloc: Global) -> Result<ImportedTexts, AllocError>
        ensures { IfOk result (λ t. t.texts.items ≡ []) }
    {
        Ok(ImportedTexts {
            texts: Vec::new(alloc),
            slots: SlotMap::new(alloc),
            recent: vec![in alloc; 0; RECENT]?,
        })
    }

    /// The symbol string at index `slot`, if it is that of this declaration, and otherwise `None`. `Some(&None)` means that the declaration
    /// has no symbol.
    pub(crate) fn text_at(
        &self,
        slot: usize,
        reached: u32,
        declaration: u32,
    ) -> Option<&Option<String>>
        ensures { (w : World) (package_name : List ℕ) → AreImportedTexts w package_name self.now.texts.items →
            IfSome result (λ text. option_map string_bytes text.now ≡ option_map canonical_text (imported_symbol w package_name reached declaration)) }
    {
        let row = self.texts.get(slot)?;
        if row.reached != reached {
            return None;
        }
        if row.declaration != declaration {
            return None;
        }
        Some(&row.text)
    }

    /// The index of this declaration's symbol string, or `None` if the map has none for it.
    fn find_slot(&self, reached: u32, declaration: u32) -> Option<usize> {
        self.slots.get(declaration_key(reached, declaration))
    }

    /// The index in the cache entry for this declaration. It may be the index of another declaration's string.
    fn cached_slot(&self, reached: u32, declaration: u32) -> usize {
        match self.recent.get(cache_entry_index(reached, declaration)) {
            Some(slot) => *slot,
            None => 0,
        }
    }

    /// The symbol string of this declaration, or `None` if it isn't stored. `Some(&None)` means that the declaration has no symbol.
    pub(crate) fn stored_text(&self, reached: u32, declaration: u32) -> Option<&Option<String>>
        ensures { (w : World) (package_name : List ℕ) → AreImportedTexts w package_name self.now.texts.items →
            IfSome result (λ text. option_map string_bytes text.now ≡ option_map canonical_text (imported_symbol w package_name reached declaration)) }
    {
        let slot = self.find_slot(reached, declaration)?;
        self.text_at(slot, reached, declaration)
    }

    /// Stores the index `slot` of this declaration's symbol string in the cache.
    fn store_in_cache(&mut self, reached: u32, declaration: u32, slot: usize)
        ensures { self.new.texts ≡ self.old.texts }
    {
        if let Some(place) = self.recent.get_mut(cache_entry_index(reached, declaration)) {
            *place = slot;
        }
    }

    /// Makes and stores the symbol string of a declaration, and returns the index of the string.
    fn store_new_text(
        &mut self,
        alloc: Global,
        view: &View<'_>,
        prefix: &str,
        reached: u32,
        declaration: u32,
    ) -> Result<usize, AllocError>
        requires { NamesAreIdentifiers view.now }
        ensures { (package_name : List ℕ) → prefix.now ≡ prefix_text package_name → AreImportedTexts view.now package_name self.old.texts.items →
            OnOk result (AreImportedTexts view.now package_name self.new.texts.items) }
    {
        let text = imported_text(alloc, view, prefix, reached, declaration)?;
        let slot = self.texts.len();
        self.texts.push(ImportedText {
            reached,
            declaration,
            text,
        })?;
        self.slots
            .insert(declaration_key(reached, declaration), slot)?;
        Ok(slot)
    }

    /// The index of a declaration's symbol string, from the map. Makes and stores the string if the map has no index for it.
    fn find_or_store(
        &mut self,
        alloc: Global,
        view: &View<'_>,
        prefix: &str,
        reached: u32,
        declaration: u32,
    ) -> Result<usize, AllocError>
        requires { NamesAreIdentifiers view.now }
        ensures { (package_name : List ℕ) → prefix.now ≡ prefix_text package_name → AreImportedTexts view.now package_name self.old.texts.items →
            OnOk result (AreImportedTexts view.now package_name self.new.texts.items) }
    {
        match self.find_slot(reached, declaration) {
            Some(slot) => Ok(slot),
            None => self.store_new_text(alloc, view, prefix, reached, declaration),
        }
    }

    /// The index of a declaration's symbol string, from the cache or else from the map. Makes and stores the string if neither has its
    /// index.
    pub(crate) fn intern(
        &mut self,
        alloc: Global,
        view: &View<'_>,
        prefix: &str,
        reached: u32,
        declaration: u32,
    ) -> Result<usize, AllocError>
        requires { NamesAreIdentifiers view.now }
        ensures { (package_name : List ℕ) → prefix.now ≡ prefix_text package_name → AreImportedTexts view.now package_name self.old.texts.items →
            OnOk result (AreImportedTexts view.now package_name self.new.texts.items) }
    {
        let hint = self.cached_slot(reached, declaration);
        if self.text_at(hint, reached, declaration).is_some() {
            return Ok(hint);
        }
        let slot = self.find_or_store(alloc, view, prefix, reached, declaration)?;
        self.store_in_cache(reached, declaration, slot);
        Ok(slot)
    }
}
