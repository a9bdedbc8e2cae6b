//! Laws of cycles, proved as contracts of functions with an empty body.
ghost use Rattle.std.specs.Prelude.{ℕ, ◌≡◌, List};
ghost use Rattle.digraph.specs.declared.edge.Edge.{Edge as GraphEdge};
ghost use Rattle.digraph.specs.Chains.{IsAcyclic};
ghost use Rattle.digraph.specs.Cycle.{IsCanonicalCycle};
ghost use Rattle.digraph.specs.Edges.{Leads};

/// The canonical cycle is unique.
pub fn cycle_is_unique()
    // Two canonical cycles are equal.
    ensures { (edges : List GraphEdge) (a b : List ℕ) → IsCanonicalCycle (Leads edges) a → IsCanonicalCycle (Leads edges) b → a ≡ b }
{}

/// A graph with a canonical cycle isn't acyclic.
pub fn cycle_not_acyclic()
    // A canonical cycle contradicts acyclicity.
    ensures { (edges : List GraphEdge) (cycle : List ℕ) → IsCanonicalCycle (Leads edges) cycle → IsAcyclic (Leads edges) → ⊥ }
{}
