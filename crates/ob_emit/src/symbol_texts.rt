//! Returns the symbol strings of targets: a copy of the stored string, or else a new string.
//! In the clauses, `AreSymbolTexts view package_name texts` says that the stored strings are those of the targets' symbols in this package.
//! `named`, `of_name` and `external` say that names are identifiers.
ghost use Rattle.std.specs.Prelude.{◌≡◌, ℕ, List, IfOk};
ghost use Rattle.std.specs.Option.{option_map};
ghost use Rattle.std.specs.String.{string_bytes};
ghost use Rattle.scip_symbol.specs.SymbolTexts.{canonical_text};
ghost use Rattle.ob_view.specs.declared.target.Target.TheVariants.{External};
ghost use Rattle.ob_emit.specs.StoredTexts.{named_symbol, AreSymbolTexts};
ghost use Rattle.ob_emit.specs.Named.{NamesAreIdentifiers, IsName};
ghost use Rattle.ob_emit.specs.Symbols.{declared_symbol, imported_symbol, module_symbol, symbol_of};
ghost use Rattle.ob_view.specs.World.{text};

use crate::imported_texts::imported_text;
use crate::module_texts::{external_text, imported_module_text};
use crate::target_texts::Texts;
use ob_view::{Target, View};
use std::alloc::{AllocError, Global};

/// Copies the string in an option; `Ok(None)` if there is none.
fn copy_text(text: &Option<String>) -> Result<Option<String>, AllocError>
    ensures { IfOk result (λ more. option_map string_bytes more ≡ option_map string_bytes text.now) }
{
    match text {
        Some(text) => Ok(Some(text.clone()?)),
        None => Ok(None),
    }
}

impl Texts<'_> {
    /// A copy of the symbol string of the declaration at token `number`. `Ok(None)` if the token declares nothing, or if the declaration
    /// has no symbol.
    fn declared_text(
        &self,
        alloc: Global,
        view: &View<'_>,
        number: u32,
    ) -> Result<Option<String>, AllocError>
        ensures { (package_name : List ℕ) → AreSymbolTexts view.now package_name self.now →
            IfOk result (λ text. option_map string_bytes text ≡ option_map canonical_text (declared_symbol view.now package_name number)) }
    {
        let _ = view;
        let Some(at) = self.locations.index_of(number) else {
            return Ok(None);
        };
        match self.declared.get(at) {
            Some(text) => copy_text(text),
            None => Ok(None),
        }
    }

    /// The symbol string of the declaration at index `declaration` in the interface of the reached module `reached`. `Ok(None)` if there is
    /// no such declaration, or if it has no symbol.
    fn imported_text(
        &self,
        alloc: Global,
        view: &View<'_>,
        reached: u32,
        declaration: u32,
    ) -> Result<Option<String>, AllocError>
        requires { NamesAreIdentifiers view.now }
        ensures { (package_name : List ℕ) → AreSymbolTexts view.now package_name self.now →
            IfOk result (λ text. option_map string_bytes text ≡ option_map canonical_text (imported_symbol view.now package_name reached declaration)) }
    {
        match self.foreign.imported.stored_text(reached, declaration) {
            Some(text) => copy_text(text),
            None => imported_text(
                alloc,
                view,
                self.prefixes.tree.as_str(),
                reached,
                declaration,
            ),
        }
    }

    /// The symbol string of the module that the import item at index `item` names. `Ok(None)` if there is no such item.
    fn module_text(
        &self,
        alloc: Global,
        view: &View<'_>,
        item: u32,
    ) -> Result<Option<String>, AllocError>
        requires { NamesAreIdentifiers view.now }
        ensures { (package_name : List ℕ) → AreSymbolTexts view.now package_name self.now →
            IfOk result (λ text. option_map string_bytes text ≡ option_map canonical_text (module_symbol view.now package_name item)) }
    {
        match self.foreign.modules.get(item as usize) {
            Some(text) => copy_text(text),
            None => imported_module_text(alloc, view, &self.prefixes, item),
        }
    }

    /// The symbol string of a name of the module that the import item at index `item` names, a module that isn't in the tree. `Ok(None)` if
    /// there is no such item.
    fn external_text(
        &self,
        alloc: Global,
        view: &View<'_>,
        item: u32,
        name: &[u8],
    ) -> Result<Option<String>, AllocError>
        requires named { NamesAreIdentifiers view.now }
        requires of_name { IsName name.now }
        ensures { (package_name : List ℕ) → AreSymbolTexts view.now package_name self.now →
            IfOk result (λ text. option_map string_bytes text ≡ option_map canonical_text (named_symbol view.now item name.now)) }
    {
        match self.foreign.names.get(&(item, name)) {
            Some(text) => copy_text(text),
            None => external_text(alloc, view, self.prefixes.outside.as_str(), item, name),
        }
    }

    /// The symbol string of a target; `Ok(None)` if the target has no symbol.
    pub(crate) fn symbol(
        &self,
        alloc: Global,
        view: &View<'_>,
        target: Target,
    ) -> Result<Option<String>, AllocError>
        requires named { NamesAreIdentifiers view.now }
        requires external { (item name : ℕ) → target ≡ External item name → IsName (text view.now name) }
        ensures { (package_name : List ℕ) → AreSymbolTexts view.now package_name self.now →
            IfOk result (λ text. option_map string_bytes text ≡ option_map canonical_text (symbol_of view.now package_name target)) }
    {
        match target {
            Target::Declared(number) => self.declared_text(alloc, view, number),
            Target::Imported {
                reached,
                declaration,
            } => self.imported_text(alloc, view, reached, declaration),
            Target::External { item, name } => self.external_text(
                alloc,
                view,
                item,
                view.text(name),
            ),
            Target::Own => Ok(Some(self.own.clone()?)),
            Target::Module(item) => self.module_text(alloc, view, item),
            Target::Predeclared | Target::Unresolved => Ok(None),
        }
    }
}
