//! Laws of the names, symbols and ranges of a module's references, proved as contracts of functions with an empty body.
ghost use Rattle.std.specs.Prelude.{◌≡◌, ◌≢◌, ℕ, Contains, List, [], Some, slice_get, false, true};
ghost use Rattle.std.specs.Option.{is_some};
ghost use Rattle.ob_scan.specs.Spelling.{Spells};
ghost use Rattle.ob_tree.specs.declared.declaration.Module.{Module};
ghost use Rattle.table_rules.specs.Declaring.{rows_of};
ghost use Rattle.module_table.specs.Order.{AreRowsSorted};
ghost use Rattle.ob_interface.specs.Interfaces.{interface_of, Declaration};
ghost use Rattle.scopes.specs.Scoped.{AreScopes};
ghost use Rattle.ob_view.specs.declared.target.Reference.{Reference};
ghost use Rattle.ob_view.specs.declared.target.Target.TheVariants.{Imported};
ghost use Rattle.ob_view.specs.World.{imported_declaration, World};
ghost use Rattle.ob_targets.specs.Refers.{AreReferences};
ghost use Rattle.scip_symbol.specs.SymbolTexts.{SymbolModel};
ghost use Rattle.ob_emit.specs.Documents.{enclosing_range};
ghost use Rattle.ob_emit.specs.Named.{ReferencesAreIdentifiers};
ghost use Rattle.ob_emit.specs.Symbols.{is_of_another_module, denotes_something, symbol_of};

/// If the bytes of a module spell the module's tokens, the token of each of its references is an identifier.
pub fn reference_names_are_identifiers()
    // If the bytes spell the tokens, the bytes of each reference's token, and of each external name, are an identifier.
    ensures { (w : World) (refs : List Reference) → Spells w.bytes w.tokens → AreReferences w refs → ReferencesAreIdentifiers w refs }
{}

/// If the target of a declaration has a symbol, the document has the range of the construct that declares it.
pub fn definitions_have_ranges()
    // If a reference is a declaration (role 1) and its target has a symbol, its enclosing range isn't empty.
    ensures { (w : World) (package_name : List ℕ) (refs : List Reference) (r : Reference) (s : SymbolModel) → AreReferences w refs → Contains refs r → r.role ≡ 1
        → symbol_of w package_name r.target ≡ Some s → enclosing_range w r ≢ [] }
{}

/// Each identifier of a tree has a symbol, unless it is predeclared or unresolved. A module's document leaves out identifiers without a
/// symbol, so it leaves out exactly the predeclared and the unresolved ones.
/// If an identifier denotes a declaration of another module of the tree, also a field, this declaration is in that module's interface and
/// has a symbol. The tables of both modules are those of their syntax trees, with sorted entries.
pub fn resolved_identifiers_have_symbols()
    // A reference to anything but a declaration of another module has a symbol if and only if it is neither predeclared nor unresolved.
    ensures here { (w : World) (m : Module) (refs : List Reference) (package_name : List ℕ) (r : Reference) → w.rows ≡ rows_of m → AreRowsSorted w.rows → AreScopes w.bytes w.tokens w.rows w.scopes
        → AreReferences w refs → Contains refs r → is_of_another_module r.target ≡ false → is_some (symbol_of w package_name r.target) ≡ denotes_something r.target }
    // If a reference denotes a declaration of another module, that module's interface has a declaration at the reference's index, and
    // the reference has a symbol.
    ensures there { (w v : World) (m n : Module) (refs : List Reference) (package_name : List ℕ) (r : Reference) (i d : ℕ) → w.rows ≡ rows_of m → AreRowsSorted w.rows → AreScopes w.bytes w.tokens w.rows w.scopes
        → v.rows ≡ rows_of n → AreRowsSorted v.rows → AreReferences w refs → Contains refs r → r.target ≡ Imported i d → slice_get w.reached i ≡ Some (interface_of v.bytes v.tokens v.rows)
        → (it : Declaration) × (imported_declaration w i d ≡ Some it) × (is_some (symbol_of w package_name r.target) ≡ true) }
{}
