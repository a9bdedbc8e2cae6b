//! Laws of syntax trees. Each function states a law: its body is empty, and its contract is proved.
ghost use Rattle.std.specs.Prelude.{◌≡◌, ◌⊎◌, ℕ, List, Some, length};
ghost use Rattle.std.specs.List.{range_with_len};
ghost use Rattle.ob_scan.specs.Kinds.{text_of};
ghost use Rattle.ob_scan.specs.declared.kind.Kind.{Kind};
ghost use Rattle.ob_scan.specs.declared.kind.Kind.TheVariants as kinds;
ghost use Rattle.ob_tree.specs.Leaves.{leaf_of, literal_kind};
ghost use Rattle.ob_tree.specs.declared.expression.Literal.{Literal};
ghost use Rattle.ob_tree.specs.declared.token.Leaf.TheVariants as leafs;
ghost use Rattle.ob_tree.specs.declared.declaration.Module.{Module};
ghost use Rattle.ob_tree.specs.Derives.{Derives, yields};

/// Each kind of token becomes one kind of leaf: an identifier a `Name`, a literal a `Value`, any token with a fixed spelling a `Word`.
pub fn kinds_determine_leaves()
    // An identifier becomes a `Name`.
    ensures names { (n : ℕ) → leaf_of n kinds.Ident ≡ leafs.Name n }
    // A literal becomes a `Value` of its kind.
    ensures values { (n : ℕ) (l : Literal) → leaf_of n (literal_kind l) ≡ leafs.Value l n }
    // A token with a fixed spelling becomes a `Word` of its kind.
    ensures words { (n : ℕ) (k : Kind) (text : List ℕ) → text_of k ≡ Some text → leaf_of n k ≡ leafs.Word k }
    // Every token is one of the three.
    ensures every { (k : Kind) → (k ≡ kinds.Ident) ⊎ (((l : Literal) × (k ≡ literal_kind l)) ⊎ ((text : List ℕ) × (text_of k ≡ Some text))) }
{}

/// If a tree derives tokens, their numbers occur in it exactly once, in order.
pub fn each_token_occurs_once()
    ensures { (kinds : List Kind) (m : Module) → Derives kinds m → yields m ≡ range_with_len 0 (length kinds) }
{}
