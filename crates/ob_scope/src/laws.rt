//! Laws of scopes. Each function states a law: its body is empty, and its contract is proved.
ghost use Rattle.std.specs.Prelude.{◌≡◌, ◌≤◌, ◌⊎◌, ℕ, List, Contains, length};
ghost use Rattle.ob_scan.specs.declared.token.Token.{Token};
ghost use Rattle.ob_scan.specs.Texts.{text_at};
ghost use Rattle.module_table.specs.declared.rows.Block.{Block};
ghost use Rattle.module_table.specs.declared.rows.Declared.{Declared};
ghost use Rattle.module_table.specs.declared.rows.Used.{Used};
ghost use Rattle.module_table.specs.Parts.{Rows};
ghost use Rattle.ob_scope.specs.declared.crossing_uses.Crossing.{Crossing};
ghost use Rattle.scopes.specs.declared.members.Member.{Member};
ghost use Rattle.scopes.specs.QualifiedUses.{HasWeight};
ghost use Rattle.ob_scope.specs.Crossings.{AreCrossings};
ghost use Rattle.module_table.specs.Order.{IsIncreasingBy};
ghost use Rattle.scopes.specs.Members.{members_of};
ghost use Rattle.scopes.specs.Scope.{IsFirstDuplicate, ResolvesTo, HasNoDuplicates};
ghost use Rattle.scopes.specs.Scoped.{AliasUses, AreScopes, ModuleScopes};
ghost use Rattle.scopes.specs.Weights.{uses_of_import, uses_of_all};

/// If no scope declares a name twice, a use means at most one declaration.
pub fn meaning_is_unique()
    ensures { (name : ℕ → List ℕ) (blocks : List Block) (ds : List Member) (u : Used) (d e : Member) →
        HasNoDuplicates name ds → ResolvesTo name blocks ds u d → ResolvesTo name blocks ds u e → d ≡ e }
{}

/// The first duplicates among the members are unique, and exist only if a scope declares a name twice.
pub fn first_duplicates_are_unique()
    // If no scope declares a name twice, there are no first duplicates.
    ensures no_pair { (name : ℕ → List ℕ) (ds : List Member) (d e : Member) → HasNoDuplicates name ds → IsFirstDuplicate name ds d e → ⊥ }
    // Any two pairs of first duplicates are equal.
    ensures one_pair { (name : ℕ → List ℕ) (ds : List Member) (d e f g : Member) →
        IsFirstDuplicate name ds d e → IsFirstDuplicate name ds f g → (d ≡ f) × (e ≡ g) }
{}

/// Either no scope declares a name twice, or there are first duplicates.
pub fn first_duplicates_exist()
    ensures { (name : ℕ → List ℕ) (ds : List Member) → HasNoDuplicates name ds ⊎ ((d e : Member) × IsFirstDuplicate name ds d e) }
{}

/// If the declared identifiers are sorted by token index, the members are too, and a token declares at most one member.
pub fn members_are_sorted()
    // The members are sorted by token index.
    ensures sorted { (rows : Rows) → IsIncreasingBy (λ (d : Declared). d.number) rows.declared → IsIncreasingBy (λ (m : Member). m.number) (members_of rows) }
    // A token declares at most one member.
    ensures one { (rows : Rows) (d e : Member) → IsIncreasingBy (λ (d : Declared). d.number) rows.declared →
        Contains (members_of rows) d → Contains (members_of rows) e → d.number ≡ e.number → d ≡ e }
{}

/// The number of uses that cross to an imported module is the sum of the numbers of uses that this module's aliases qualify.
pub fn weight_of_aliases()
    ensures { (bytes : List ℕ) (ts : List Token) (rows : Rows) (s : ModuleScopes) (imported : List ℕ) →
        AreScopes bytes ts rows s → HasWeight (text_at bytes ts) rows imported (uses_of_import s.aliases imported) }
{}

/// The import of a module has exactly one weight.
pub fn weight_is_unique()
    ensures { (name : ℕ → List ℕ) (rows : Rows) (imported : List ℕ) (n m : ℕ) →
        HasWeight name rows imported n → HasWeight name rows imported m → n ≡ m }
{}

/// All aliases of a module together qualify no more uses than the module has. The aliases of one imported module qualify no more uses than
/// all aliases.
pub fn weights_are_bounded()
    // All aliases of a module together qualify at most as many uses as the module has.
    ensures all { (bytes : List ℕ) (ts : List Token) (rows : Rows) (s : ModuleScopes) → AreScopes bytes ts rows s → uses_of_all s.aliases ≤ length rows.uses }
    // The aliases of one imported module qualify at most as many uses as all aliases.
    ensures one { (aliases : List AliasUses) (imported : List ℕ) → uses_of_import aliases imported ≤ uses_of_all aliases }
{}

/// The number of uses that cross to a module is the weight of its import.
pub fn weight_of_crossings()
    ensures { (name : ℕ → List ℕ) (rows : Rows) (imported : List ℕ) (cs : List Crossing) → AreCrossings name rows imported rows.uses cs → HasWeight name rows imported (length cs) }
{}

/// For a module and the name of an imported module, the list of the uses that cross to the imported module is unique.
pub fn crossings_are_unique()
    ensures { (name : ℕ → List ℕ) (rows : Rows) (imported : List ℕ) (cs ds : List Crossing) →
        AreCrossings name rows imported rows.uses cs → AreCrossings name rows imported rows.uses ds → cs ≡ ds }
{}

/// The bytes, tokens and entries of a module determine its scopes.
pub fn scopes_are_unique()
    ensures { (bytes : List ℕ) (ts : List Token) (rows : Rows) (s t : ModuleScopes) → AreScopes bytes ts rows s → AreScopes bytes ts rows t → s ≡ t }
{}
