//! Laws of tables. Each function is a law: its body is empty, and its contract is proved.
ghost use Rattle.std.specs.Prelude.{◌≡◌, ℕ, Contains, List, Some, length, map, slice_get};
ghost use Rattle.ob_scan.specs.declared.kind.Kind.{Kind};
ghost use Rattle.ob_scan.specs.declared.kind.Kind.TheVariants as kinds;
ghost use Rattle.ob_tree.specs.declared.declaration.Module.{Module};
ghost use Rattle.ob_tree.specs.Declaring.{module_events};
ghost use Rattle.ob_tree.specs.Derives.{Derives, declared_in, end_names_in, used_in};
ghost use Rattle.module_table.specs.declared.rows.Declared.{Declared};
ghost use Rattle.module_table.specs.declared.rows.Used.{Used};
ghost use Rattle.module_table.specs.Tables.{module_name_token};
ghost use Rattle.module_table.specs.Trees.{AreTreeRows};
ghost use Rattle.table_rules.specs.Declaring.{rows_of};
ghost use Rattle.table_rules.specs.Naming.{IsNamed, ending_of};

/// If a tree derives tokens, its table and its event sequence have equal lists of declared tokens, and equal lists of used tokens.
pub fn table_follows_events()
    ensures declared { (ks : List Kind) (m : Module) → Derives ks m → map (λ (d : Declared). d.number) (rows_of m).declared ≡ declared_in (module_events m) }
    ensures used { (ks : List Kind) (m : Module) → Derives ks m → map (λ (u : Used). u.number) (rows_of m).uses ≡ used_in (module_events m) }
{}

/// If a tree derives tokens, each declaration and use of its table is an identifier. So is the name of the module, the token after MODULE.
pub fn entries_are_identifiers()
    ensures declared { (ks : List Kind) (m : Module) → Derives ks m → (d : Declared) → Contains (rows_of m).declared d → slice_get ks d.number ≡ Some kinds.Ident }
    ensures used { (ks : List Kind) (m : Module) → Derives ks m → (u : Used) → Contains (rows_of m).uses u → slice_get ks u.number ≡ Some kinds.Ident }
    ensures own { (ks : List Kind) (m : Module) → Derives ks m → slice_get ks module_name_token ≡ Some kinds.Ident }
    ensures name { (ks : List Kind) (m : Module) → Derives ks m → m.name ≡ module_name_token }
{}

/// If a tree derives tokens, its table and its event sequence have equal lists of names after END, each with the identifier that the name
/// has to repeat.
pub fn end_names_follow_events()
    ensures { (ks : List Kind) (m : Module) → Derives ks m → map ending_of (rows_of m).ends ≡ end_names_in (module_events m) }
{}

/// If a tree derives tokens, its table satisfies the invariants of tables of trees.
pub fn tree_table_is_valid()
    ensures { (ks : List Kind) (m : Module) → Derives ks m → AreTreeRows (λ k. slice_get ks k ≡ Some kinds.Ident) (length ks) (rows_of m) }
{}

/// If a tree derives tokens, each of them that is an identifier is the name of the module or is in an entry of the table.
pub fn identifiers_have_entries()
    ensures { (ks : List Kind) (m : Module) (k : ℕ) → Derives ks m → slice_get ks k ≡ Some kinds.Ident → IsNamed (rows_of m) k }
{}

/// Trees with equal event sequences have equal tables.
pub fn events_determine_table()
    ensures { (m n : Module) → module_events m ≡ module_events n → rows_of m ≡ rows_of n }
{}
