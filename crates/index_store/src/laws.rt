//! Laws of queries, proved as contracts of functions with an empty body.
ghost use Rattle.std.specs.Prelude.{◌≡◌, List, Option, ℕ};
ghost use Rattle.index_store.specs.declared.location.Position.{Position};
ghost use Rattle.index_store.specs.Queries.{PlacedOccurrence, IsSymbolAt};

/// The symbol at a position is unique: it is that of the nearest occurrence that covers the position, or none if none covers it.
pub fn symbol_at_position_is_unique()
    // If each of two results is the symbol at one position, or none if no occurrence covers it, the two results are equal.
    ensures { (found : List PlacedOccurrence) (path : List ℕ) (at : Position) (a b : Option (List ℕ)) → IsSymbolAt found path at a → IsSymbolAt found path at b → a ≡ b }
{}
