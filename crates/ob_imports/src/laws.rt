//! Laws of cycles and import graphs, proved as contracts of functions with an empty body.
ghost use Rattle.std.specs.Prelude.{◌≡◌, ◌⊎◌, ℕ, List, Result};
ghost use Rattle.digraph.specs.Chains.{IsAcyclic};
ghost use Rattle.digraph.specs.Cycle.{IsCanonicalCycle};
ghost use Rattle.digraph.specs.Edges.{AreBetween, Leads};
ghost use Rattle.digraph.specs.declared.edge.Edge.{Edge as GraphEdge};
ghost use Rattle.ob_imports.specs.Files.{File};
ghost use Rattle.ob_imports.specs.Graphs.{ImportGraph};
ghost use Rattle.ob_imports.specs.Outcomes.{GraphError, IsGraphOutcome};

pub use digraph::laws::{cycle_is_unique, cycle_not_acyclic};

/// A finite graph is acyclic or has a canonical cycle.
pub fn acyclic_or_has_cycle()
    // The graph is acyclic, or has a canonical cycle.
    ensures { (edges : List GraphEdge) (count : ℕ) → AreBetween edges count → IsAcyclic (Leads edges) ⊎ ((cycle : List ℕ) × IsCanonicalCycle (Leads edges) cycle) }
{}

/// Files have at most one outcome: a graph or a first error.
pub fn outcome_is_unique()
    // Two outcomes are equal.
    ensures { (files : List File) (o p : Result ImportGraph GraphError) → IsGraphOutcome files o → IsGraphOutcome files p → o ≡ p }
{}

/// Files have an outcome. With `outcome_is_unique` they have exactly one.
pub fn outcome_exists()
    // There is an outcome.
    ensures { (files : List File) → (o : Result ImportGraph GraphError) × IsGraphOutcome files o }
{}
