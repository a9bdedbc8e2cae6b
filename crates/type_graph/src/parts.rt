//! The elements of arrays and the targets of pointers.
ghost use Rattle.std.specs.Prelude.{◌≡◌, false, IfOk, IfSome, IfNone};
ghost use Rattle.type_graph.specs.Link.{AreTypeEnds};
ghost use Rattle.type_graph.specs.Searches.{element_of, target_of, HasElement, HasTarget};

use crate::ends::find_end;
use crate::graph::TypeGraph;
use crate::memo::MemoTable;
use crate::shape::Shape;
use std::alloc::AllocError;

/// The type of the elements, if the type is an array.
fn element_of<N: Copy + Drop, D: Copy + Drop, R: Copy + Drop>(shape: Shape<N, D, R>) -> Option<N>
    ensures { result ≡ element_of shape }
{
    match shape {
        Shape::Array(next) => Some(next),
        Shape::Pointer(_)
        | Shape::Record(_)
        | Shape::Procedure
        | Shape::Named(_, _)
        | Shape::Unknown => None,
    }
}

/// The target, if the type is a pointer.
fn target_of<N: Copy + Drop, D: Copy + Drop, R: Copy + Drop>(shape: Shape<N, D, R>) -> Option<N>
    ensures { result ≡ target_of shape }
{
    match shape {
        Shape::Pointer(next) => Some(next),
        Shape::Array(_)
        | Shape::Record(_)
        | Shape::Procedure
        | Shape::Named(_, _)
        | Shape::Unknown => None,
    }
}

/// The element type of the array that a type denotes through names; `None` if it denotes no array.
pub(crate) fn find_element<G: TypeGraph>(
    graph: &G,
    memo: &mut MemoTable<G::Declaration, Option<G::Node>>,
    from: G::Node,
) -> Result<Option<G::Node>, AllocError>
    requires { AreTypeEnds (G.shape graph.now) false G.Declaration.eq memo.old }
    ensures memo { AreTypeEnds (G.shape graph.now) false G.Declaration.eq memo.new }
    ensures found { IfOk result (λ o. IfSome o (HasElement G.Declaration.eq (G.shape graph.now) from)) }
    ensures none { IfOk result (λ o. IfNone o ((n : G.Node) → HasElement G.Declaration.eq (G.shape graph.now) from n → ⊥)) }
{
    match find_end(graph, false, memo, 1, from)? {
        None => Ok(None),
        Some(node) => Ok(element_of(graph.shape(node))),
    }
}

/// The target of the pointer that a type denotes through names; `None` if it denotes no pointer.
pub(crate) fn find_target<G: TypeGraph>(
    graph: &G,
    memo: &mut MemoTable<G::Declaration, Option<G::Node>>,
    from: G::Node,
) -> Result<Option<G::Node>, AllocError>
    requires { AreTypeEnds (G.shape graph.now) false G.Declaration.eq memo.old }
    ensures memo { AreTypeEnds (G.shape graph.now) false G.Declaration.eq memo.new }
    ensures found { IfOk result (λ o. IfSome o (HasTarget G.Declaration.eq (G.shape graph.now) from)) }
    ensures none { IfOk result (λ o. IfNone o ((n : G.Node) → HasTarget G.Declaration.eq (G.shape graph.now) from n → ⊥)) }
{
    match find_end(graph, false, memo, 1, from)? {
        None => Ok(None),
        Some(node) => Ok(target_of(graph.shape(node))),
    }
}
