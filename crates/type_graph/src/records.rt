//! The records that types denote, and look-up of their fields.
ghost use Rattle.std.specs.Prelude.{◌≡◌, ◌<◌, ◌^◌, [], true, IfOk, IfSome, IfNone, None};
ghost use Rattle.std.specs.List.{All};
ghost use Rattle.type_graph.specs.Caches.{IsValidFieldCache, IsValidParentCache};
ghost use Rattle.type_graph.specs.Extending.{shape_record, AreFieldsOf, AreFieldsMemoized, IsParent, IsFieldIn, IsNextParent, IsRecordOf};
ghost use Rattle.type_graph.specs.BuiltPaths.{AreHeavyPaths};
ghost use Rattle.type_graph.specs.Link.{AreTypeEnds};
ghost use Rattle.type_graph.specs.PathOrder.{IsJump};
ghost use Rattle.type_graph.specs.Progress.{progress};
ghost use Rattle.type_graph.specs.Searches.{DenotesField};

use crate::cache::{FieldCache, ParentCache};
use crate::decompose::decompose_if_due;
use crate::detector::{CycleDetector, closes_cycle, is_long_search, new_detector, visit};
use crate::ends::find_end;
use crate::graph::TypeGraph;
use crate::jump::Jump;
use crate::memo::MemoTable;
use crate::paths::{HeavyPaths, jump_along};
use crate::shape::Shape;
use indexmap::IndexMap;
use std::alloc::AllocError;
use text_hash::{Name, Seed};

/// The record, if the type is a record type.
fn shape_record<N: Copy + Drop, D: Copy + Drop, R: Copy + Drop>(shape: Shape<N, D, R>) -> Option<R>
    ensures { result ≡ shape_record shape }
{
    match shape {
        Shape::Record(record) => Some(record),
        Shape::Array(_)
        | Shape::Pointer(_)
        | Shape::Procedure
        | Shape::Named(_, _)
        | Shape::Unknown => None,
    }
}

/// The record that a type denotes through names and pointers; `None` if it denotes none. The end of the type is memoized if the search has
/// at least `least` checkpoints.
fn denoted_record<G: TypeGraph>(
    graph: &G,
    memo: &mut MemoTable<G::Declaration, Option<G::Node>>,
    least: usize,
    from: G::Node,
) -> Result<Option<G::Record>, AllocError>
    requires { AreTypeEnds (G.shape graph.now) true G.Declaration.eq memo.old }
    ensures memo { AreTypeEnds (G.shape graph.now) true G.Declaration.eq memo.new }
    ensures is { IfOk result (IsRecordOf (G.shape graph.now) from) }
{
    match find_end(graph, true, memo, least, from)? {
        None => Ok(None),
        Some(node) => Ok(shape_record(graph.shape(node))),
    }
}

/// The parent of a record: the record that its base denotes. Callers memoize the parent by the record, so the end of the base's type
/// isn't memoized again if the base is a single name.
fn find_parent<G: TypeGraph>(
    graph: &G,
    memo: &mut MemoTable<G::Declaration, Option<G::Node>>,
    record: G::Record,
) -> Result<Option<G::Record>, AllocError>
    requires { AreTypeEnds (G.shape graph.now) true G.Declaration.eq memo.old }
    ensures memo { AreTypeEnds (G.shape graph.now) true G.Declaration.eq memo.new }
    ensures is { IfOk result (IsParent (G.shape graph.now) (G.base_of graph.now) «record») }
{
    match graph.base(record) {
        None => Ok(None),
        Some(base) => denoted_record(graph, memo, 2, base),
    }
}

/// The field that a name denotes in a record, if the record declares it or the result is memoized; `Some(None)` if it is memoized that
/// there is no field. Looks into the memo table only if `is_memoized` is true.
fn own_or_memoized_field<'a, G: TypeGraph>(
    graph: &G,
    found: &IndexMap<(G::Record, Name<'a>), Option<G::Field>, Seed>,
    is_memoized: bool,
    record: G::Record,
    name: &'a [u8],
) -> Option<Option<G::Field>>
    requires { AreFieldsMemoized (G.shape graph.now) (G.base_of graph.now) (G.field_of graph.now) G.Record.eq found.now }
    ensures some { IfSome result (IsFieldIn (G.shape graph.now) (G.base_of graph.now) (λ r. G.field_of graph.now r name.now) «record») }
    ensures none { IfNone result (G.field_of graph.now «record» name.now ≡ None) }
{
    match graph.field(record, name) {
        Some(field) => Some(Some(field)),
        None => {
            if is_memoized {
                found.get(&(record, Name { bytes: name })).copied()
            } else {
                None
            }
        }
    }
}

/// The parent of a record, from the memo table or found and then memoized.
pub(crate) fn cached_parent<G: TypeGraph>(
    graph: &G,
    cache: &mut ParentCache<G::Node, G::Declaration, G::Record>,
    record: G::Record,
) -> Result<Option<G::Record>, AllocError>
    requires { IsValidParentCache (G.shape graph.now) (G.base_of graph.now) G.Declaration.eq G.Record.eq cache.old }
    ensures cache { IsValidParentCache (G.shape graph.now) (G.base_of graph.now) G.Declaration.eq G.Record.eq cache.new }
    ensures is { IfOk result (IsParent (G.shape graph.now) (G.base_of graph.now) «record») }
{
    if let Some(parent) = cache.parents.get(record) {
        return Ok(parent);
    }
    let parent = find_parent(graph, &mut cache.ends, record)?;
    cache.parents.insert(record, parent)?;
    Ok(parent)
}

/// The jump that the graph has precomputed from a record that lacks the field of this name; otherwise that to its parent. A search of
/// fewer than `LONG_SEARCH` visits doesn't ask the graph.
fn jump_if_precomputed<G: TypeGraph>(
    graph: &G,
    detector: &CycleDetector<G::Record>,
    record: G::Record,
    name: &[u8],
) -> Jump<G::Record>
    requires { G.field_of graph.now «record» name.now ≡ None }
    ensures { IsJump (G.shape graph.now) (G.base_of graph.now) (λ r. G.field_of graph.now r name.now) «record» result }
{
    if !is_long_search(detector) {
        return Jump::From(record);
    }
    match graph.precomputed_jump(record, name) {
        Some(jump) => jump,
        None => Jump::From(record),
    }
}

/// The jump from a record that lacks the field of this name, along its heavy path if the paths have been built.
fn next_jump<G: TypeGraph>(
    graph: &G,
    paths: &Option<Box<HeavyPaths<G::Record>>>,
    detector: &CycleDetector<G::Record>,
    record: G::Record,
    name: &[u8],
) -> Jump<G::Record>
    requires paths { IfSome paths.now (λ l. AreHeavyPaths (G.shape graph.now) (G.base_of graph.now) (G.field_of graph.now) l.value) }
    requires lacks { G.field_of graph.now «record» name.now ≡ None }
    ensures { IsJump (G.shape graph.now) (G.base_of graph.now) (λ r. G.field_of graph.now r name.now) «record» result }
{
    match paths {
        None => jump_if_precomputed(graph, detector, record, name),
        Some(paths) => {
            jump_along::<G::Node, G::Declaration, G::Record, G::Field>(paths, record, name)
        }
    }
}

/// Visits a record that lacks the field of this name. Returns an ancestor such that no record below it has the field; `None` if there is no
/// ancestor left or the search has closed a cycle.
fn climb_to_ancestor<'a, G: TypeGraph>(
    graph: &G,
    cache: &mut FieldCache<'a, G::Node, G::Declaration, G::Record, G::Field>,
    detector: &mut CycleDetector<G::Record>,
    record: G::Record,
    name: &[u8],
) -> Result<Option<G::Record>, AllocError>
    requires cache { IsValidFieldCache (G.shape graph.now) (G.base_of graph.now) G.Declaration.eq G.Record.eq (G.field_of graph.now) cache.old }
    requires lacks { G.field_of graph.now «record» name.now ≡ None }
    ensures cache { IsValidFieldCache (G.shape graph.now) (G.base_of graph.now) G.Declaration.eq G.Record.eq (G.field_of graph.now) cache.new }
    ensures next { IfOk result (IsNextParent (G.shape graph.now) (G.base_of graph.now) (λ r. G.field_of graph.now r name.now) G.Record.eq «record» detector.old.checkpoints.items detector.new.checkpoints.items) }
    ensures visited { IfOk result (λ o. IfSome o (λ _. (progress detector.old < progress detector.new) × (progress detector.new < 2 ^ 65))) }
{
    if closes_cycle(detector, record) {
        return Ok(None);
    }
    visit(detector, record)?;
    cache.name_filter.count_visit(name);
    decompose_if_due(graph, cache);
    match next_jump(graph, &cache.paths, detector, record, name) {
        Jump::Onto(parent) => Ok(Some(parent)),
        Jump::From(last) => cached_parent(graph, &mut cache.parents, last),
    }
}

/// The field that a name denotes in a record: its own, or else that of the nearest base that declares one. Stops early at a base for which
/// the result is memoized. `detector` must be new; it gets checkpoints among the visited records.
fn field_of<'a, G: TypeGraph>(
    graph: &G,
    cache: &mut FieldCache<'a, G::Node, G::Declaration, G::Record, G::Field>,
    detector: &mut CycleDetector<G::Record>,
    from: G::Record,
    name: &'a [u8],
) -> Result<Option<G::Field>, AllocError>
    requires cache { IsValidFieldCache (G.shape graph.now) (G.base_of graph.now) G.Declaration.eq G.Record.eq (G.field_of graph.now) cache.old }
    requires none_passed { detector.old.checkpoints.items ≡ [] }
    ensures cache { IsValidFieldCache (G.shape graph.now) (G.base_of graph.now) G.Declaration.eq G.Record.eq (G.field_of graph.now) cache.new }
    ensures fields { IfOk result (AreFieldsOf (G.shape graph.now) (G.base_of graph.now) (λ r. G.field_of graph.now r name.now) from detector.new.checkpoints.items) }
{
    let alloc = cache.parents.allocator();
    let is_memoized = cache.name_filter.insert_name(alloc, name);
    let mut record = from;
    'records: loop {
        if let Some(field) = own_or_memoized_field(
            graph,
            &cache.fields,
            is_memoized,
            record,
            name,
        ) {
            return Ok(field);
        }
        match climb_to_ancestor(graph, cache, detector, record, name)? {
            None => return Ok(None),
            Some(parent) => record = parent,
        }
    }
}

/// Memoizes the field that a name denotes in these records.
fn memoize_field<'a, G: TypeGraph>(
    graph: &G,
    found: &mut IndexMap<(G::Record, Name<'a>), Option<G::Field>, Seed>,
    checkpoints: &[G::Record],
    name: &'a [u8],
    field: Option<G::Field>,
) -> Result<(), AllocError>
    requires found { AreFieldsMemoized (G.shape graph.now) (G.base_of graph.now) (G.field_of graph.now) G.Record.eq found.old }
    requires checkpoints { All (λ r. IsFieldIn (G.shape graph.now) (G.base_of graph.now) (λ s. G.field_of graph.now s name.now) r field) checkpoints.now }
    ensures { AreFieldsMemoized (G.shape graph.now) (G.base_of graph.now) (G.field_of graph.now) G.Record.eq found.new }
{
    for record in checkpoints {
        found.insert((*record, Name { bytes: name }), field)?;
    }
    Ok(())
}

/// The field that a name denotes in a record; memoizes it for the checkpoints of the search, of which the record is the first if it was
/// visited.
fn find_and_memoize_field<'a, G: TypeGraph>(
    graph: &G,
    cache: &mut FieldCache<'a, G::Node, G::Declaration, G::Record, G::Field>,
    detector: &mut CycleDetector<G::Record>,
    from: G::Record,
    name: &'a [u8],
) -> Result<Option<G::Field>, AllocError>
    requires cache { IsValidFieldCache (G.shape graph.now) (G.base_of graph.now) G.Declaration.eq G.Record.eq (G.field_of graph.now) cache.old }
    requires none_passed { detector.old.checkpoints.items ≡ [] }
    ensures cache { IsValidFieldCache (G.shape graph.now) (G.base_of graph.now) G.Declaration.eq G.Record.eq (G.field_of graph.now) cache.new }
    ensures is { IfOk result (IsFieldIn (G.shape graph.now) (G.base_of graph.now) (λ r. G.field_of graph.now r name.now) from) }
{
    let field = field_of(graph, cache, detector, from, name)?;
    memoize_field(
        graph,
        &mut cache.fields,
        detector.checkpoints.as_slice(),
        name,
        field,
    )?;
    Ok(field)
}

/// The field that a name denotes in a record: its own without memoizing it, or else an inherited one.
fn find_field_in_record<'a, G: TypeGraph>(
    graph: &G,
    cache: &mut FieldCache<'a, G::Node, G::Declaration, G::Record, G::Field>,
    from: G::Record,
    name: &'a [u8],
) -> Result<Option<G::Field>, AllocError>
    requires { IsValidFieldCache (G.shape graph.now) (G.base_of graph.now) G.Declaration.eq G.Record.eq (G.field_of graph.now) cache.old }
    ensures cache { IsValidFieldCache (G.shape graph.now) (G.base_of graph.now) G.Declaration.eq G.Record.eq (G.field_of graph.now) cache.new }
    ensures is { IfOk result (IsFieldIn (G.shape graph.now) (G.base_of graph.now) (λ r. G.field_of graph.now r name.now) from) }
{
    if let Some(field) = graph.field(from, name) {
        return Ok(Some(field));
    }
    let mut detector = new_detector(cache.parents.allocator());
    find_and_memoize_field(graph, cache, &mut detector, from, name)
}

/// The field that a name denotes at a type: of the record that the type denotes, or else of that record's base.
pub(crate) fn find_field_at<'a, G: TypeGraph>(
    graph: &G,
    cache: &mut FieldCache<'a, G::Node, G::Declaration, G::Record, G::Field>,
    from: G::Node,
    name: &'a [u8],
) -> Result<Option<G::Field>, AllocError>
    requires { IsValidFieldCache (G.shape graph.now) (G.base_of graph.now) G.Declaration.eq G.Record.eq (G.field_of graph.now) cache.old }
    ensures cache { IsValidFieldCache (G.shape graph.now) (G.base_of graph.now) G.Declaration.eq G.Record.eq (G.field_of graph.now) cache.new }
    ensures found { IfOk result (λ o. IfSome o (λ f. DenotesField G.Declaration.eq (G.shape graph.now) (λ r. G.field_of graph.now r name.now) (G.base_of graph.now) [] from f)) }
    ensures none { IfOk result (λ o. IfNone o ((f : G.Field) → DenotesField G.Declaration.eq (G.shape graph.now) (λ r. G.field_of graph.now r name.now) (G.base_of graph.now) [] from f → ⊥)) }
{
    match denoted_record(graph, &mut cache.parents.ends, 1, from)? {
        None => Ok(None),
        Some(record) => find_field_in_record(graph, cache, record, name),
    }
}
