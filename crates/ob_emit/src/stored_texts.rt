//! Looks up symbol strings that `Texts` stores already, without copying them.
//! In the clauses, `AreSymbolTexts view package_name texts` says that the stored strings are those of the targets' symbols in this package.
ghost use Rattle.std.specs.Prelude.{◌≡◌, ℕ, List, IfSome};
ghost use Rattle.std.specs.Option.{option_map};
ghost use Rattle.std.specs.String.{string_bytes};
ghost use Rattle.scip_symbol.specs.SymbolTexts.{canonical_text};
ghost use Rattle.ob_emit.specs.StoredTexts.{named_symbol, AreSymbolTexts};
ghost use Rattle.ob_emit.specs.Symbols.{declared_symbol, imported_symbol, module_symbol, symbol_of};

use crate::target_texts::Texts;
use ob_view::{Target, View};

/// Borrows the string in an option; `None` if there is none.
fn borrow_text(text: &Option<String>) -> Option<&str>
    ensures { option_map (λ t. t.now) result ≡ option_map string_bytes text.now }
{
    match text {
        Some(text) => Some(text.as_str()),
        None => None,
    }
}

impl Texts<'_> {
    /// The symbol string of the declaration at token `number`. `None` if the token declares nothing, or if the declaration has no symbol.
    /// `slot` is the index of the declaration that is tried first.
    fn stored_declaration_text(&self, view: &View<'_>, slot: usize, number: u32) -> Option<&str>
        ensures { (package_name : List ℕ) → AreSymbolTexts view.now package_name self.now →
            option_map (λ t. t.now) result ≡ option_map canonical_text (declared_symbol view.now package_name number) }
    {
        let _ = view;
        match self.locations.index_by_hint(slot, number) {
            Some(at) => match self.declared.get(at) {
                Some(text) => borrow_text(text),
                None => None,
            },
            None => None,
        }
    }

    /// The symbol string of a declaration of a reached module. `None` if the string at index `slot` isn't that of this declaration.
    /// `Some(None)` if the declaration has no symbol.
    fn stored_imported_text(
        &self,
        view: &View<'_>,
        slot: usize,
        reached: u32,
        declaration: u32,
    ) -> Option<Option<&str>>
        ensures { (package_name : List ℕ) → AreSymbolTexts view.now package_name self.now →
            IfSome result (λ text. option_map (λ t. t.now) text ≡ option_map canonical_text (imported_symbol view.now package_name reached declaration)) }
    {
        let _ = view;
        match self.foreign.imported.text_at(slot, reached, declaration) {
            Some(text) => Some(borrow_text(text)),
            None => None,
        }
    }

    /// The symbol string of the module that the import item at index `item` names. `None` if no string is stored for this index, and
    /// `Some(None)` if the module has no symbol.
    fn stored_module_text(&self, view: &View<'_>, item: u32) -> Option<Option<&str>>
        ensures { (package_name : List ℕ) → AreSymbolTexts view.now package_name self.now →
            IfSome result (λ text. option_map (λ t. t.now) text ≡ option_map canonical_text (module_symbol view.now package_name item)) }
    {
        match self.foreign.modules.get(item as usize) {
            Some(text) => Some(borrow_text(text)),
            None => None,
        }
    }

    /// The symbol string of a name of the module that the import item at index `item` names, a module that isn't in the tree. `None` if no
    /// string is stored for this name, and `Some(None)` if the name has no symbol.
    fn stored_external_text<'s>(
        &'s self,
        view: &View<'_>,
        item: u32,
        name: &'s [u8],
    ) -> Option<Option<&'s str>>
        ensures { (package_name : List ℕ) → AreSymbolTexts view.now package_name self.now →
            IfSome result (λ text. option_map (λ t. t.now) text ≡ option_map canonical_text (named_symbol view.now item name.now)) }
    {
        match self.foreign.names.get(&(item, name)) {
            Some(text) => Some(borrow_text(text)),
            None => None,
        }
    }

    /// The symbol string of a target. `None` if the string isn't found among the stored ones, and `Some(None)` if the target has no symbol.
    /// `slot` is the index that `intern` returned for the target. The string of a declaration of another module is searched only at this
    /// index. For a declaration of the module itself, this index is tried first.
    pub(crate) fn stored_symbol<'s>(
        &'s self,
        view: &'s View<'_>,
        target: Target,
        slot: usize,
    ) -> Option<Option<&'s str>>
        ensures { (package_name : List ℕ) → AreSymbolTexts view.now package_name self.now →
            IfSome result (λ text. option_map (λ t. t.now) text ≡ option_map canonical_text (symbol_of view.now package_name target)) }
    {
        match target {
            Target::Declared(number) => Some(self.stored_declaration_text(view, slot, number)),
            Target::Imported {
                reached,
                declaration,
            } => self.stored_imported_text(view, slot, reached, declaration),
            Target::External { item, name } => self.stored_external_text(
                view,
                item,
                view.text(name),
            ),
            Target::Own => Some(Some(self.own.as_str())),
            Target::Module(item) => self.stored_module_text(view, item),
            Target::Predeclared | Target::Unresolved => Some(None),
        }
    }
}
