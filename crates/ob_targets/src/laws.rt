//! Laws of targets, roles and references, proved as contracts of functions with an empty body.
ghost use Rattle.std.specs.Prelude.{◌≡◌, ◌≢◌, ◌↔◌, ℕ, List, Some, Contains, map, slice_get};
ghost use Rattle.ob_scan.specs.declared.token.Token.{Token};
ghost use Rattle.ob_scan.specs.Texts.{text_at};
ghost use Rattle.ob_tree.specs.declared.declaration.Module.{Module};
ghost use Rattle.ob_tree.specs.Derives.{Derives};
ghost use Rattle.module_table.specs.declared.rows.Used.{Used};
ghost use Rattle.table_rules.specs.Declaring.{rows_of};
ghost use Rattle.ob_interface.specs.Interfaces.{interface_of, start_at, Simple};
ghost use Rattle.scopes.specs.Scoped.{ModuleScopes};
ghost use Rattle.type_graph.specs.declared.shape.Shape.TheVariants as shapes;
ghost use Rattle.ob_types.specs.Shapes.{resolve_imported_name};
ghost use Rattle.ob_view.specs.World.{aliased_module_name, World};
ghost use Rattle.ob_types.specs.declared.nodes.Named.TheVariants as named;
ghost use Rattle.ob_types.specs.declared.nodes.Node.TheVariants as nodes;
ghost use Rattle.ob_targets.specs.SyntaxPositionKinds.{HasSyntaxPosition, SyntaxPositionKind};
ghost use Rattle.ob_targets.specs.Refers.{identifiers, unresolved, AreReferences, Refers, DenotesNothing};
ghost use Rattle.ob_targets.specs.ScopeRule.{IsBlockUse, MeansAlias, MeansType};
ghost use Rattle.ob_targets.specs.SyntaxPosition.{syntax_position};
ghost use Rattle.ob_targets.specs.declared.syntax_position.SyntaxPosition.TheVariants as syntax_positions;
ghost use Rattle.ob_view.specs.declared.target.Reference.{Reference};
ghost use Rattle.ob_view.specs.declared.target.Target.{Target};

/// An identifier has at most one target and at most one role. A target is a declaration, a name of an external module, a module, a
/// predeclared name, or `Unresolved`.
pub fn target_is_unique()
    // Two targets of one identifier are equal.
    ensures target { (w : World) (k : ℕ) (t u : Target) (r s : ℕ) → Refers w k t r → Refers w k u s → t ≡ u }
    // Two roles of one identifier are equal.
    ensures role { (w : World) (k : ℕ) (t u : Target) (r s : ℕ) → Refers w k t r → Refers w k u s → r ≡ s }
{}

/// If a module has a list of references, each identifier of the module has a target, which can be `Unresolved`, and a role. By
/// `target_is_unique` it has exactly one of each.
pub fn each_identifier_has_target()
    // If a module has a list of references, each of its identifiers has a target and a role.
    ensures { (w : World) (rs : List Reference) (k : ℕ) → AreReferences w rs → Contains (identifiers w.tokens) k → (t : Target) × (r : ℕ) × Refers w k t r }
{}

/// The unresolved references of a module are exactly those of the identifiers that denote nothing.
pub fn unresolved_identifiers()
    // A token number is in `unresolved` of the references if and only if the token is an identifier that denotes nothing.
    ensures { (w : World) (rs : List Reference) (k : ℕ) → AreReferences w rs → Contains (unresolved rs) k ↔ DenotesNothing w k }
{}

/// A module has at most one list of references.
pub fn references_are_unique()
    // Two lists of references of one module are equal.
    ensures { (w : World) (rs ss : List Reference) → AreReferences w rs → AreReferences w ss → rs ≡ ss }
{}

/// If the tokens of a module have a syntax tree, each identifier among them has a syntactic position other than `Nowhere`. The rule of this
/// position determines what the identifier denotes, or that it denotes nothing.
pub fn each_identifier_has_position()
    // If `m` is a syntax tree of the tokens, no identifier among them has the syntactic position `Nowhere` in the module table of `m`.
    ensures { (tokens : List Token) (m : Module) (k : ℕ) → Derives (map (λ (t : Token). t.kind) tokens) m → Contains (identifiers tokens) k → syntax_position (rows_of m) k ≢ syntax_positions.Nowhere }
{}

/// In the module table of a syntax tree, a token has at most one context. It is the module's own name, the name after `:=` in an import
/// item, or a declared identifier or alias. Or it is the name after END, a name that is looked up, or a name after a dot.
pub fn syntax_position_is_unique()
    // In the module table of a syntax tree, two contexts of one token are equal.
    ensures { (m : Module) (k : ℕ) (c d : SyntaxPositionKind) → HasSyntaxPosition (rows_of m) k c → HasSyntaxPosition (rows_of m) k d → c ≡ d }
{}

/// Other modules know an accepted module only by its interface. They resolve the type names in its block to the same types and modules as
/// the scopes of the module itself do.
pub fn interface_names_match_scopes()
    // By the interface, an unqualified name denotes the type declaration at index `d` if and only if it means this declaration by the
    // module's own scopes.
    ensures alone { (bytes : List ℕ) (ts : List Token) (m : Module) (s : ModuleScopes) (u : Used) (w : World) (i d : ℕ) →
        IsBlockUse bytes ts m s u → slice_get w.reached i ≡ Some (interface_of bytes ts (rows_of m)) →
        (resolve_imported_name w i (start_at ts u.number) u.is_target (Simple (text_at bytes ts u.number)) ≡ shapes.Named (named.Other i d) (nodes.Other i d 0)) ↔ MeansType bytes ts (rows_of m) s u.number d }
    // By the interface, a name before a dot denotes the module called `name` if and only if it means an alias of this module by the
    // module's own scopes.
    ensures qualified { (bytes : List ℕ) (ts : List Token) (m : Module) (s : ModuleScopes) (u : Used) (w : World) (i : ℕ) (name : List ℕ) →
        IsBlockUse bytes ts m s u → slice_get w.reached i ≡ Some (interface_of bytes ts (rows_of m)) →
        (aliased_module_name w i (text_at bytes ts u.number) ≡ Some name) ↔ MeansAlias bytes ts (rows_of m) s u.number name }
{}
