//! The ends of types: the type at which following names, and possibly pointers, stops. Ends are memoized for later searches.
ghost use Rattle.std.specs.Prelude.{◌≡◌, [], IfOk, IfSome, true};
ghost use Rattle.std.specs.List.{All};
ghost use Rattle.type_graph.specs.Link.{AreEnded, AreTypeEnds, IsTypeEnd, IsTypeEndOf};

use crate::detector::{CycleDetector, LONG_SEARCH, closes_cycle, new_detector, visit};
use crate::graph::TypeGraph;
use crate::memo::MemoTable;
use crate::shape::Shape;
use std::alloc::AllocError;

/// The precomputed end of a type. A search of fewer than `LONG_SEARCH` steps doesn't ask for it.
fn end_if_precomputed<G: TypeGraph>(
    graph: &G,
    pointers: bool,
    steps: u64,
    node: G::Node,
) -> Option<Option<G::Node>>
    ensures { IfSome result (IsTypeEnd (G.shape graph.now) pointers node) }
{
    if steps >= LONG_SEARCH {
        graph.precomputed_end(pointers, node)
    } else {
        None
    }
}

/// The end of a type, by following names, and pointers if `pointers` is true; `None` if the steps form a cycle. Stops early at a memoized
/// or precomputed end. `detector` must be new; it gets checkpoints among the visited declarations.
fn walk_to_end<G: TypeGraph>(
    graph: &G,
    pointers: bool,
    memo: &MemoTable<G::Declaration, Option<G::Node>>,
    detector: &mut CycleDetector<G::Declaration>,
    from: G::Node,
) -> Result<Option<G::Node>, AllocError>
    requires memo { AreTypeEnds (G.shape graph.now) pointers G.Declaration.eq memo.now }
    requires none_passed { detector.old.checkpoints.items ≡ [] }
    ensures { IfOk result (AreEnded (G.shape graph.now) pointers G.Declaration.eq from detector.new.checkpoints.items) }
{
    let mut node = from;
    let mut steps = 0_u64;
    'types: loop {
        steps = steps.saturating_add(1);
        match graph.shape(node) {
            Shape::Named(declaration, next) => {
                if let Some(end) = memo.get(declaration) {
                    return Ok(end);
                }
                if closes_cycle(detector, declaration) {
                    return Ok(None);
                }
                visit(detector, declaration)?;
                if let Some(known) = end_if_precomputed(graph, pointers, steps, next) {
                    return Ok(known);
                }
                node = next;
            }
            Shape::Pointer(next) => {
                if !pointers {
                    return Ok(Some(node));
                }
                node = next;
            }
            Shape::Array(_) | Shape::Record(_) | Shape::Procedure | Shape::Unknown => {
                return Ok(Some(node));
            }
        }
    }
}

/// Stores `end` for each of these declarations.
fn memoize_ends<G: TypeGraph>(
    graph: &G,
    pointers: bool,
    memo: &mut MemoTable<G::Declaration, Option<G::Node>>,
    checkpoints: &[G::Declaration],
    end: Option<G::Node>,
) -> Result<(), AllocError>
    requires memo { AreTypeEnds (G.shape graph.now) pointers G.Declaration.eq memo.old }
    requires checkpoints { All (IsTypeEndOf (G.shape graph.now) pointers G.Declaration.eq end) checkpoints.now }
    ensures { AreTypeEnds (G.shape graph.now) pointers G.Declaration.eq memo.new }
{
    for declaration in checkpoints {
        memo.insert(*declaration, end)?;
    }
    Ok(())
}

/// The end of a type, through names, and through pointers if `pointers` is set; `None` if the steps form a cycle. The end is memoized only
/// if the search has at least `least` checkpoints, since a single step costs no more than a look-up.
pub(crate) fn find_end<G: TypeGraph>(
    graph: &G,
    pointers: bool,
    memo: &mut MemoTable<G::Declaration, Option<G::Node>>,
    least: usize,
    from: G::Node,
) -> Result<Option<G::Node>, AllocError>
    requires { AreTypeEnds (G.shape graph.now) pointers G.Declaration.eq memo.old }
    ensures memo { AreTypeEnds (G.shape graph.now) pointers G.Declaration.eq memo.new }
    ensures end { IfOk result (IsTypeEnd (G.shape graph.now) pointers from) }
{
    let mut detector = new_detector(memo.allocator());
    let end = walk_to_end(graph, pointers, memo, &mut detector, from)?;
    if detector.checkpoints.len() >= least {
        memoize_ends(graph, pointers, memo, detector.checkpoints.as_slice(), end)?;
    }
    Ok(end)
}
