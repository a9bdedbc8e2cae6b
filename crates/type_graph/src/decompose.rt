//! Builds the heavy paths of a graph's records.
ghost use Rattle.std.specs.Prelude.{◌≡◌, ◌<◌, suc, length, IfOk, IfSome, OnOk};
ghost use Rattle.std.specs.Bool.{OnTrue};
ghost use Rattle.type_graph.specs.Extending.{AreParents};
ghost use Rattle.type_graph.specs.Caches.{IsValidFieldCache, IsValidParentCache};
ghost use Rattle.type_graph.specs.BuiltPaths.{AreHeavyPaths};
ghost use Rattle.type_graph.specs.PathOrder.{AddsField, IsSortedByName, AreEnds, HasAllFields, ContinuesPath, IsPathTo};

use crate::cache::{FieldCache, ParentCache};
use crate::field_entries::{FieldEntry, sort_by_name};
use crate::forest::concat_paths;
use crate::graph::TypeGraph;
use crate::listed::RecordField;
use crate::memo::MemoTable;
use crate::paths::HeavyPaths;
use crate::records::cached_parent;
use indexmap::IndexSet;
use std::alloc::{AllocError, Global};
use std::hash::{DefaultHasher, Hash, Hasher};
use text_hash::Seed;

/// A hash seed for a table of these records, from their digest (SipHash-1-3; Aumasson and Bernstein 2012). Who chooses records that collide
/// under one seed thereby changes the seed.
fn records_seed<R: Hash>(records: &[R]) -> Seed {
    let mut digest = DefaultHasher::new();
    for record in records {
        record.hash(&mut digest);
    }
    Seed::for_keys(&digest.finish().to_le_bytes(), records.len())
}

/// The distinct records of a list.
fn distinct_records<R: Copy + Eq + Hash + Drop>(
    alloc: Global,
    listed: &[R],
) -> Result<IndexSet<R, Seed>, AllocError> {
    let mut records = IndexSet::with_capacity_and_hasher(
        alloc,
        listed.len(),
        records_seed(listed),
    )?;
    for record in listed {
        records.insert(*record)?;
    }
    Ok(records)
}

/// For each record the index of its parent among the records; `None` if it has no parent or the parent isn't among them.
fn parent_slots<G: TypeGraph>(
    graph: &G,
    cache: &mut ParentCache<G::Node, G::Declaration, G::Record>,
    records: &IndexSet<G::Record, Seed>,
) -> Result<Vec<Option<usize>>, AllocError>
    requires { IsValidParentCache (G.shape graph.now) (G.base_of graph.now) G.Declaration.eq G.Record.eq cache.old }
    ensures { IsValidParentCache (G.shape graph.now) (G.base_of graph.now) G.Declaration.eq G.Record.eq cache.new }
{
    let mut places = Vec::with_capacity(cache.allocator(), records.len())?;
    for record in records.as_slice() {
        let parent = cached_parent(graph, cache, *record)?;
        let slot = match parent {
            None => None,
            Some(parent) => records.get_index_of(&parent),
        };
        places.push(slot)?;
    }
    Ok(places)
}

/// Whether the record at index `slot + 1` is the parent of the record at index `slot`.
fn continues_path<G: TypeGraph>(
    graph: &G,
    parents: &MemoTable<G::Record, Option<G::Record>>,
    paths: &[G::Record],
    slot: usize,
) -> bool
    requires parents { AreParents (G.shape graph.now) (G.base_of graph.now) G.Record.eq parents.now }
    requires within { suc slot < length paths.now }
    ensures { OnTrue result (ContinuesPath (G.shape graph.now) (G.base_of graph.now) paths.now slot) }
{
    match parents.get(paths[slot]) {
        Some(Some(parent)) => parent == paths[slot + 1],
        _ => false,
    }
}

/// The last index of the path that contains index `slot`. `ends` has this index already for each index after `slot`.
fn path_end<G: TypeGraph>(
    graph: &G,
    parents: &MemoTable<G::Record, Option<G::Record>>,
    paths: &[G::Record],
    ends: &[usize],
    slot: usize,
) -> usize
    requires parents { AreParents (G.shape graph.now) (G.base_of graph.now) G.Record.eq parents.now }
    requires within { slot < length paths.now }
    requires each { length ends.now ≡ length paths.now }
    requires behind { AreEnds (G.shape graph.now) (G.base_of graph.now) (suc slot) paths.now ends.now }
    ensures { IsPathTo (G.shape graph.now) (G.base_of graph.now) paths.now slot result }
{
    let next = slot + 1;
    if next >= paths.len() {
        return slot;
    }
    if continues_path(graph, parents, paths, slot) {
        ends[next]
    } else {
        slot
    }
}

/// For each index the last index of the path that contains it, computed from the last index to the first.
fn path_ends<G: TypeGraph>(
    graph: &G,
    alloc: Global,
    parents: &MemoTable<G::Record, Option<G::Record>>,
    paths: &[G::Record],
) -> Result<Vec<usize>, AllocError>
    requires { AreParents (G.shape graph.now) (G.base_of graph.now) G.Record.eq parents.now }
    ensures { IfOk result (λ ends. AreEnds (G.shape graph.now) (G.base_of graph.now) 0 paths.now ends.items) }
{
    let mut ends = vec![in alloc; 0_usize; paths.len()]?;
    let mut slot = paths.len();
    'places: while slot > 0 {
        slot -= 1;
        let end = path_end(graph, parents, paths, ends.as_slice(), slot);
        ends[slot] = end;
    }
    Ok(ends)
}

/// Appends a field to `field_entries`, if its record is one of `paths`.
fn append_field_entry<R: Copy + Eq + Hash + Drop>(
    alloc: Global,
    paths: &IndexSet<R, Seed>,
    field_entries: &mut Vec<FieldEntry>,
    field: &RecordField<'_, R>,
) -> Result<(), AllocError>
    ensures { OnOk result (AddsField R.eq paths.now.keys field.now field_entries.old.items field_entries.new.items) }
{
    match paths.get_index_of(&field.of_record) {
        None => Ok(()),
        Some(slot) => {
            let name = field.name.to_vec(alloc)?;
            field_entries.push(FieldEntry { name, slot })?;
            Ok(())
        }
    }
}

/// The fields that the records of `paths` declare themselves.
fn collect_fields<G: TypeGraph>(
    graph: &G,
    alloc: Global,
    paths: &IndexSet<G::Record, Seed>,
) -> Result<Vec<FieldEntry>, AllocError>
    ensures { IfOk result (λ field_entries. HasAllFields (G.shape graph.now) (G.base_of graph.now) (G.field_of graph.now) paths.now.keys field_entries.items) }
{
    let listed = graph.fields(alloc)?;
    let mut field_entries = Vec::with_capacity(alloc, paths.len())?;
    for field in &listed {
        append_field_entry(alloc, paths, &mut field_entries, field)?;
    }
    Ok(field_entries)
}

/// The fields that the records of `paths` declare themselves, sorted by name, then by the index of the record.
fn sorted_fields<G: TypeGraph>(
    graph: &G,
    alloc: Global,
    paths: &IndexSet<G::Record, Seed>,
) -> Result<Vec<FieldEntry>, AllocError>
    ensures field_entries { IfOk result (λ field_entries. HasAllFields (G.shape graph.now) (G.base_of graph.now) (G.field_of graph.now) paths.now.keys field_entries.items) }
    ensures by_name { IfOk result (λ field_entries. IsSortedByName field_entries.items) }
{
    let mut field_entries = collect_fields(graph, alloc, paths)?;
    sort_by_name(&mut field_entries);
    Ok(field_entries)
}

/// The distinct records of the list, path after path, each followed by its parent within a path.
fn records_by_path<G: TypeGraph>(
    graph: &G,
    cache: &mut ParentCache<G::Node, G::Declaration, G::Record>,
    listed: &[G::Record],
) -> Result<IndexSet<G::Record, Seed>, AllocError>
    requires { IsValidParentCache (G.shape graph.now) (G.base_of graph.now) G.Declaration.eq G.Record.eq cache.old }
    ensures { IsValidParentCache (G.shape graph.now) (G.base_of graph.now) G.Declaration.eq G.Record.eq cache.new }
{
    let alloc = cache.allocator();
    let records = distinct_records(alloc, listed)?;
    let places = parent_slots(graph, cache, &records)?;
    concat_paths(
        alloc,
        *records.hasher(),
        records.as_slice(),
        places.as_slice(),
    )
}

/// The heavy paths of these records; `None` if the list is empty.
pub(crate) fn decompose<G: TypeGraph>(
    graph: &G,
    cache: &mut ParentCache<G::Node, G::Declaration, G::Record>,
    listed: &[G::Record],
) -> Result<Option<Box<HeavyPaths<G::Record>>>, AllocError>
    requires { IsValidParentCache (G.shape graph.now) (G.base_of graph.now) G.Declaration.eq G.Record.eq cache.old }
    ensures cache { IsValidParentCache (G.shape graph.now) (G.base_of graph.now) G.Declaration.eq G.Record.eq cache.new }
    ensures paths { IfOk result (λ o. IfSome o (λ l. AreHeavyPaths (G.shape graph.now) (G.base_of graph.now) (G.field_of graph.now) l.value)) }
{
    if listed.is_empty() {
        return Ok(None);
    }
    let alloc = cache.allocator();
    let records = records_by_path(graph, cache, listed)?;
    let ends = path_ends(graph, alloc, &cache.parents, records.as_slice())?;
    let field_entries = sorted_fields(graph, alloc, &records)?;
    let built = HeavyPaths {
        records,
        ends,
        field_entries,
    };
    Ok(Some(Box::new(alloc, built)?))
}

/// The heavy paths of all records of a graph.
fn decompose_all<G: TypeGraph>(
    graph: &G,
    cache: &mut ParentCache<G::Node, G::Declaration, G::Record>,
) -> Result<Option<Box<HeavyPaths<G::Record>>>, AllocError>
    requires { IsValidParentCache (G.shape graph.now) (G.base_of graph.now) G.Declaration.eq G.Record.eq cache.old }
    ensures cache { IsValidParentCache (G.shape graph.now) (G.base_of graph.now) G.Declaration.eq G.Record.eq cache.new }
    ensures paths { IfOk result (λ o. IfSome o (λ l. AreHeavyPaths (G.shape graph.now) (G.base_of graph.now) (G.field_of graph.now) l.value)) }
{
    let listed = graph.records(cache.allocator())?;
    decompose(graph, cache, listed.as_slice())
}

/// Builds the heavy paths, if they aren't built and searches have visited enough records. If an allocation fails there are no paths, and
/// searches climb from base to base.
pub(crate) fn decompose_if_due<'a, G: TypeGraph>(
    graph: &G,
    cache: &mut FieldCache<'a, G::Node, G::Declaration, G::Record, G::Field>,
)
    requires { IsValidFieldCache (G.shape graph.now) (G.base_of graph.now) G.Declaration.eq G.Record.eq (G.field_of graph.now) cache.old }
    ensures { IsValidFieldCache (G.shape graph.now) (G.base_of graph.now) G.Declaration.eq G.Record.eq (G.field_of graph.now) cache.new }
{
    if cache.paths.is_some() || !cache.name_filter.is_build_due(graph) {
        return;
    }
    if let Ok(built) = decompose_all(graph, &mut cache.parents) {
        cache.paths = built;
    }
}
