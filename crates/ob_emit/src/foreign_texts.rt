//! The symbol strings of the targets that are declared outside of a module. Each string is made once.
//! In the clauses, `named`, `of_name` and `external` say that names are identifiers.
//! `ArePrefixes package_name prefixes`: `prefixes` has the prefix of symbol strings of this package, and the prefix without a package.
//! `AreForeignTexts`: the stored strings are those of the targets outside of the module, in this package.
ghost use Rattle.std.specs.Prelude.{◌≡◌, ℕ, List, IfOk, OnOk, []};
ghost use Rattle.ob_view.specs.declared.target.Target.TheVariants.{External};
ghost use Rattle.ob_view.specs.World.{text};
ghost use Rattle.ob_emit.specs.StoredTexts.{prefix_text, AreExternalTexts, ArePrefixes, AreModuleTexts, AreForeignTexts};
ghost use Rattle.ob_emit.specs.Named.{NamesAreIdentifiers, IsName};

use crate::imported_cache::ImportedTexts;
use crate::module_texts::{external_text, imported_module_text};
use crate::prefixes::Prefixes;
use indexmap::IndexMap;
use ob_view::{Reference, Target, View};
use std::alloc::{AllocError, Global};
use text_hash::Seed;

/// The symbol strings of targets that are declared outside of a module. A string is `None` if its target has no symbol.
#[derive(Drop)]
pub(crate) struct ForeignTexts<'a> {
    /// The strings of declarations of other modules of the tree.
    pub(crate) imported: ImportedTexts,
    /// The strings of imported modules. The string at an index is that of the module that the import item at this index names.
    pub(crate) modules: Vec<Option<String>>,
    /// The strings of names of modules that aren't in the tree. The key is the index of the import item that names the module, and the
    /// name.
    pub(crate) names: IndexMap<(u32, &'a [u8]), Option<String>, Seed>,
}

/// The seed of a hash table whose keys are external modules and their names. For a large table the seed depends on the module's bytes, so
/// that the author of the module can hardly choose names that collide.
pub(crate) fn external_table_seed(view: &View<'_>, refs: &[Reference]) -> Seed {
    let mut most = view.table().imports().len();
    for reference in refs {
        if let Target::External { .. } = reference.target {
            most = most.saturating_add(1);
        }
    }
    Seed::for_keys(view.bytes(), most)
}

/// The symbol strings of the modules that the import items name, in the order of the items.
fn module_texts(
    alloc: Global,
    view: &View<'_>,
    prefixes: &Prefixes,
) -> Result<Vec<Option<String>>, AllocError>
    requires { NamesAreIdentifiers view.now }
    ensures { (package_name : List ℕ) → ArePrefixes package_name prefixes.now → IfOk result (λ texts. AreModuleTexts view.now package_name texts.items) }
{
    let count = view.table().imports().len().min(u32::MAX as usize);
    let mut texts = Vec::with_capacity(alloc, count)?;
    for item in 0..count as u32 {
        texts.push(imported_module_text(alloc, view, prefixes, item)?)?;
    }
    Ok(texts)
}

/// Stores in `texts` the symbol string of a name of a module that isn't in the tree, unless `texts` has it already.
/// With `Ok` returns 0, since a lookup in this table needs no index.
fn intern_external_name<'a>(
    alloc: Global,
    view: &View<'a>,
    outside: &str,
    texts: &mut IndexMap<(u32, &'a [u8]), Option<String>, Seed>,
    key: (u32, &'a [u8]),
) -> Result<usize, AllocError>
    requires named { NamesAreIdentifiers view.now }
    requires of_name { IsName key.1.now }
    ensures { outside.now ≡ prefix_text [] → AreExternalTexts view.now texts.old → OnOk result (AreExternalTexts view.now texts.new) }
{
    if texts.contains_key(&key) {
        return Ok(0);
    }
    let text = external_text(alloc, view, outside, key.0, key.1)?;
    texts.insert(key, text)?;
    Ok(0)
}

impl<'a> ForeignTexts<'a> {
    /// Makes the symbol strings of the modules that import items name, and empty tables for the other strings. `seed` is the seed of the
    /// hash table of names. The result is in a box, so that a move copies only a pointer.
    pub(crate) fn new(
        alloc: Global,
        view: &View<'a>,
        prefixes: &Prefixes,
        seed: Seed,
    ) -> Result<Box<ForeignTexts<'a>>, AllocError>
        requires { NamesAreIdentifiers view.now }
        ensures { (package_name : List ℕ) → ArePrefixes package_name prefixes.now → IfOk result (λ texts. AreForeignTexts view.now package_name texts.value) }
    {
        let texts = ForeignTexts {
            imported: ImportedTexts::new(alloc)?,
            modules: module_texts(alloc, view, prefixes)?,
            names: IndexMap::with_hasher(alloc, seed),
        };
        Ok(Box::new(alloc, texts)?)
    }

    /// Stores the symbol string of a target that is declared outside of the module, unless the string is stored already.
    /// With `Ok` returns the index of the string if the target is a declaration of another module of the tree, and otherwise 0.
    pub(crate) fn intern(
        &mut self,
        alloc: Global,
        view: &View<'a>,
        prefixes: &Prefixes,
        target: Target,
    ) -> Result<usize, AllocError>
        requires named { NamesAreIdentifiers view.now }
        requires external { (item name : ℕ) → target ≡ External item name → IsName (text view.now name) }
        ensures { (package_name : List ℕ) → ArePrefixes package_name prefixes.now → AreForeignTexts view.now package_name self.old →
            OnOk result (AreForeignTexts view.now package_name self.new) }
    {
        match target {
            Target::Imported {
                reached,
                declaration,
            } => self
                .imported
                .intern(alloc, view, prefixes.tree.as_str(), reached, declaration),
            Target::External { item, name } => intern_external_name(
                alloc,
                view,
                prefixes.outside.as_str(),
                &mut self.names,
                (item, view.text(name)),
            ),
            Target::Module(_) => Ok(0),
            Target::Declared(_) => Ok(0),
            Target::Own => Ok(0),
            Target::Predeclared => Ok(0),
            Target::Unresolved => Ok(0),
        }
    }
}
