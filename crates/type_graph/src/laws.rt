//! Laws of searches. Each function states a law: its body is empty, and its contract is proved.
ghost use Rattle.std.specs.Prelude.{◌≡◌, []};
ghost use Rattle.type_graph.specs.Searches.{DenotesField, HasElement, HasTarget, OpensTo};

use crate::graph::TypeGraph;

/// A type opens to at most one type, which means: following names ends at one type that is no name, or at none.
pub fn opening_is_unique<G: TypeGraph>(graph: &G, from: G::Node)
    ensures { (n m : G.Node) → OpensTo G.Declaration.eq (G.shape graph.now) from n → OpensTo G.Declaration.eq (G.shape graph.now) from m → n ≡ m }
{}

/// A type opens to arrays of at most one element type.
pub fn element_is_unique<G: TypeGraph>(graph: &G, from: G::Node)
    ensures { (n m : G.Node) → HasElement G.Declaration.eq (G.shape graph.now) from n → HasElement G.Declaration.eq (G.shape graph.now) from m → n ≡ m }
{}

/// A type opens to pointers with at most one target.
pub fn target_is_unique<G: TypeGraph>(graph: &G, from: G::Node)
    ensures { (n m : G.Node) → HasTarget G.Declaration.eq (G.shape graph.now) from n → HasTarget G.Declaration.eq (G.shape graph.now) from m → n ≡ m }
{}

/// A name denotes at most one field at a type.
pub fn field_is_unique<G: TypeGraph>(graph: &G, from: G::Node, name: &[u8])
    ensures { (f k : G.Field) → DenotesField G.Declaration.eq (G.shape graph.now) (λ r. G.field_of graph.now r name.now) (G.base_of graph.now) [] from f
        → DenotesField G.Declaration.eq (G.shape graph.now) (λ r. G.field_of graph.now r name.now) (G.base_of graph.now) [] from k → f ≡ k }
{}
