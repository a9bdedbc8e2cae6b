//! Laws of symbols and documents, proved as contracts of functions with an empty body.
ghost use Rattle.std.specs.Prelude.{◌≡◌, ◌<◌, ◌^◌, ℕ, Contains, List, Some, length, slice_get, false};
ghost use Rattle.ob_scan.specs.declared.token.Token.{Token};
ghost use Rattle.ob_tree.specs.declared.declaration.Module.{Module};
ghost use Rattle.module_table.specs.Tables.{module_name_token};
ghost use Rattle.table_rules.specs.Declaring.{rows_of};
ghost use Rattle.module_table.specs.Order.{AreRowsSorted};
ghost use Rattle.module_table.specs.Parts.{Rows};
ghost use Rattle.ob_interface.specs.Interfaces.{interface_of, Declaration, ModuleInterface};
ghost use Rattle.scopes.specs.Scoped.{AreScopes, ModuleScopes};
ghost use Rattle.ob_view.specs.declared.target.Target.{Target};
ghost use Rattle.ob_view.specs.declared.target.Target.TheVariants.{External};
ghost use Rattle.ob_view.specs.World.{imported_declaration, text, World};
ghost use Rattle.scip_symbol.specs.Outcomes.{is_wrong_part};
ghost use Rattle.scip_symbol.specs.SymbolTexts.{canonical_text, SymbolModel, SymbolText};
ghost use Rattle.ob_emit.specs.DistinctSymbols.{exported_tokens, DeclaresOnce, IsLocal};
ghost use Rattle.ob_emit.specs.Named.{NamesAreIdentifiers, HasNames, IsName};
ghost use Rattle.ob_emit.specs.Symbols.{declared_symbol, imported_symbol, symbol_of};

/// If `AreScopes` holds of a module's bytes, tokens and table entries, the names in its table and in its interface are identifiers.
pub fn scoped_names_are_identifiers()
    // If a module has scopes, and the names in the interfaces that it reaches are identifiers, so are the names in its table.
    ensures here { (w : World) (s : ModuleScopes) → AreScopes w.bytes w.tokens w.rows s → ((m : ModuleInterface) → Contains w.reached m → HasNames m) → NamesAreIdentifiers w }
    // If a module has scopes, the names in its interface are identifiers.
    ensures there { (bytes : List ℕ) (ts : List Token) (rows : Rows) (s : ModuleScopes) → AreScopes bytes ts rows s → HasNames (interface_of bytes ts rows) }
{}

/// Let a module have scopes, and the table of a syntax tree. Then no name is declared twice in one block or record, and no two records are
/// in the type of one declaration.
pub fn trees_declare_once()
    // `DeclaresOnce` holds for a module with a tree's table, with scopes, and with fewer than 2^64 declared identifiers.
    ensures { (w : World) (m : Module) (s : ModuleScopes) → w.rows ≡ rows_of m → AreScopes w.bytes w.tokens w.rows s → length w.rows.declared < 2 ^ 64 → DeclaresOnce w }
{}

/// The symbol of a target has a string, if names are identifiers, the package is valid, and fewer than 2^64 identifiers are declared.
/// Documents contain the canonical one. So no two of these symbols have one string (`canonical_texts_differ` of `scip_symbol`).
/// A valid package isn't `.` and doesn't begin with a space.
pub fn symbols_have_texts()
    // If names are identifiers, the package is valid and fewer than 2^64 identifiers are declared, the canonical string of a target's
    // symbol is a string of that symbol.
    ensures { (w : World) (package_name : List ℕ) (t : Target) (s : SymbolModel) → NamesAreIdentifiers w → is_wrong_part package_name ≡ false → length w.rows.declared < 2 ^ 64
        → ((item name : ℕ) → t ≡ External item name → IsName (text w name)) → symbol_of w package_name t ≡ Some s → SymbolText s (canonical_text s) }
{}

/// A symbol determines its declaration. In a module that declares nothing twice, two declarations, also fields, have different symbols.
/// Declarations of two modules with different names have one symbol only if the symbol is local. The modules of a tree have different
/// names.
/// So each global symbol denotes one declaration of the tree, and each local symbol one declaration of its document.
/// The same holds of the symbols' canonical strings, if the modules declare nothing twice, names are identifiers and the package is valid.
pub fn symbol_determines_declaration()
    // In a module that declares nothing twice, two tokens whose declarations have one symbol are equal.
    ensures here { (w : World) (package_name : List ℕ) (k j : ℕ) (s : SymbolModel) → DeclaresOnce w → declared_symbol w package_name k ≡ Some s → declared_symbol w package_name j ≡ Some s → k ≡ j }
    // Declarations of two modules with different names have one symbol only if the symbol is local.
    ensures elsewhere { (w v : World) (package_name : List ℕ) (k j : ℕ) (s : SymbolModel) → (text w module_name_token ≡ text v module_name_token → ⊥) → declared_symbol w package_name k ≡ Some s → declared_symbol v package_name j ≡ Some s → IsLocal s }
    // In a module that declares nothing twice, with identifiers as names and a valid package, two tokens whose declarations have one symbol
    // string are equal.
    ensures text_here { (w : World) (package_name : List ℕ) (k j : ℕ) (s t : SymbolModel) → DeclaresOnce w → NamesAreIdentifiers w → is_wrong_part package_name ≡ false
        → declared_symbol w package_name k ≡ Some s → declared_symbol w package_name j ≡ Some t → canonical_text s ≡ canonical_text t → k ≡ j }
    // Let two modules with different names declare nothing twice, with identifiers as names and a valid package. Then a declaration of one
    // and a declaration of the other have one symbol string only if both symbols are local.
    ensures text_elsewhere { (w v : World) (package_name : List ℕ) (k j : ℕ) (s t : SymbolModel) → (text w module_name_token ≡ text v module_name_token → ⊥) → DeclaresOnce w → NamesAreIdentifiers w → DeclaresOnce v → NamesAreIdentifiers v
        → is_wrong_part package_name ≡ false → declared_symbol w package_name k ≡ Some s → declared_symbol v package_name j ≡ Some t → canonical_text s ≡ canonical_text t → IsLocal s × IsLocal t }
{}

/// A declaration in a module's interface, also a field, has one symbol in its own module and in the modules that use it. So a search for
/// the symbol finds the definition and the uses in all files. The module has the table of a syntax tree, with sorted entries.
pub fn imported_symbol_equals_declared()
    // Let the interface of module `v` be the one at index `i` of those that module `w` reaches. Then the declaration at index `d` of this
    // interface has in `w` the symbol that its token `k` has in `v`.
    ensures { (w v : World) (m : Module) (package_name : List ℕ) (i d k : ℕ) (it : Declaration) → v.rows ≡ rows_of m → AreRowsSorted v.rows → slice_get w.reached i ≡ Some (interface_of v.bytes v.tokens v.rows)
        → slice_get (exported_tokens v) d ≡ Some k → imported_declaration w i d ≡ Some it → imported_symbol w package_name i d ≡ declared_symbol v package_name k }
{}
