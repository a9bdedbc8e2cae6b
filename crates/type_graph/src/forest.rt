//! Heavy-path decomposition of the forest of records (Sleator and Tarjan 1983). It affects only the running time, so no contract depends
//! on it.

use indexmap::IndexSet;
use std::alloc::{AllocError, Global};
use std::hash::Hash;
use text_hash::Seed;

/// A record in the forest, as the root of its subtree. Other records are given by their indexes; `parent` is the record's parent.
#[derive(Clone, Copy, Drop)]
struct Subtree {
    parent: Option<usize>,
    /// How many of its children haven't been visited.
    pending: usize,
    /// The number of records in its subtree, counting only visited children.
    size: usize,
    /// The visited child with the largest subtree. `heaviest` is the size of that child's subtree.
    heavy: Option<usize>,
    heaviest: usize,
}

/// The forest before any visit.
fn initial_subtrees(alloc: Global, parents: &[Option<usize>]) -> Result<Vec<Subtree>, AllocError> {
    let mut subtrees = Vec::with_capacity(alloc, parents.len())?;
    for parent in parents {
        subtrees.push(Subtree {
            parent: *parent,
            pending: 0,
            size: 1,
            heavy: None,
            heaviest: 0,
        })?;
    }
    Ok(subtrees)
}

/// Counts one more child of `parent`, if it is an index of the forest.
fn count_child(subtrees: &mut [Subtree], parent: Option<usize>) {
    if let Some(at) = parent
        && at < subtrees.len()
    {
        let mut over = subtrees[at];
        over.pending = over.pending.saturating_add(1);
        subtrees[at] = over;
    }
}

/// Counts the children of each record.
fn count_children(subtrees: &mut [Subtree], parents: &[Option<usize>]) {
    for parent in parents {
        count_child(subtrees, *parent);
    }
}

/// Adds a record's subtree to its parent. Returns the parent if it has no further children to visit.
fn visit(subtrees: &mut [Subtree], at: usize) -> Option<usize> {
    let it = *subtrees.get(at)?;
    let parent = it.parent?;
    let mut over = *subtrees.get(parent)?;
    over.pending = over.pending.saturating_sub(1);
    over.size = over.size.saturating_add(it.size);
    if it.size > over.heaviest {
        over.heavy = Some(at);
        over.heaviest = it.size;
    }
    subtrees[parent] = over;
    if over.pending == 0 {
        Some(parent)
    } else {
        None
    }
}

/// The records without children.
fn leaves(alloc: Global, subtrees: &[Subtree]) -> Result<Vec<usize>, AllocError> {
    let mut ready = Vec::new(alloc);
    for at in 0..subtrees.len() {
        if subtrees[at].pending == 0 {
            ready.push(at)?;
        }
    }
    Ok(ready)
}

/// Visits all records outside of cycles bottom-up, each after its children.
fn visit_trees(alloc: Global, subtrees: &mut [Subtree]) -> Result<(), AllocError> {
    let mut ready = leaves(alloc, subtrees)?;
    for next in 0..subtrees.len() {
        let Some(at) = ready.as_slice().get(next).copied() else {
            return Ok(());
        };
        if let Some(parent) = visit(subtrees, at) {
            ready.push(parent)?;
        }
    }
    Ok(())
}

/// Visits a record on a cycle. If its parent is the first record visited there, cuts the cycle instead.
fn visit_on_cycle(subtrees: &mut [Subtree], at: usize, first: usize) -> Option<usize> {
    let mut it = *subtrees.get(at)?;
    if it.parent == Some(first) {
        it.parent = None;
        subtrees[at] = it;
        return None;
    }
    visit(subtrees, at)
}

/// Visits the records of a cycle of bases once each, from the record `first` on.
fn visit_cycle(subtrees: &mut [Subtree], first: usize) {
    let mut at = first;
    for _ in 0..subtrees.len() {
        match visit_on_cycle(subtrees, at, first) {
            None => return,
            Some(parent) => at = parent,
        }
    }
}

/// Visits a record that the bottom-up pass didn't reach, which lies on a cycle of bases, and the other records of that cycle.
fn visit_unreached(subtrees: &mut [Subtree], at: usize) {
    if at < subtrees.len() && subtrees[at].pending > 0 {
        let mut it = subtrees[at];
        it.pending = 0;
        subtrees[at] = it;
        visit_cycle(subtrees, at);
    }
}

/// Visits the records of all cycles.
fn visit_cycles(subtrees: &mut [Subtree]) {
    for at in 0..subtrees.len() {
        visit_unreached(subtrees, at);
    }
}

/// The forest of records with these parents, in which each record has its child with the largest subtree.
fn forest(alloc: Global, parents: &[Option<usize>]) -> Result<Vec<Subtree>, AllocError> {
    let mut subtrees = initial_subtrees(alloc, parents)?;
    count_children(&mut subtrees, parents);
    visit_trees(alloc, &mut subtrees)?;
    visit_cycles(&mut subtrees);
    Ok(subtrees)
}

/// The parent of record `at`, if `at` is the parent's child with the largest subtree.
fn heavy_parent(subtrees: &[Subtree], at: usize) -> Option<usize> {
    let parent = subtrees.get(at)?.parent?;
    if subtrees.get(parent)?.heavy == Some(at) {
        Some(parent)
    } else {
        None
    }
}

/// Appends a heavy path to `paths`: the record `lowest`, and parents as long as each is reached from its child with the largest subtree.
fn append_heavy_path<R: Copy + Eq + Hash + Drop>(
    paths: &mut IndexSet<R, Seed>,
    records: &[R],
    subtrees: &[Subtree],
    lowest: usize,
) -> Result<(), AllocError> {
    let mut at = lowest;
    for _ in 0..subtrees.len() {
        let Some(record) = records.get(at) else {
            return Ok(());
        };
        paths.insert(*record)?;
        match heavy_parent(subtrees, at) {
            None => return Ok(()),
            Some(parent) => at = parent,
        }
    }
    Ok(())
}

/// The records, heavy path after heavy path, in a table with this hash seed; `parents` has the indexes of their parents. A path continues
/// at the parent only from the child with the largest subtree. So a climb from parent to parent changes paths at most logarithmically
/// often: the subtree at least doubles each time.
pub(crate) fn concat_paths<R: Copy + Eq + Hash + Drop>(
    alloc: Global,
    seed: Seed,
    records: &[R],
    parents: &[Option<usize>],
) -> Result<IndexSet<R, Seed>, AllocError> {
    let subtrees = forest(alloc, parents)?;
    let mut paths = IndexSet::with_capacity_and_hasher(alloc, records.len(), seed)?;
    for at in 0..subtrees.len() {
        if subtrees[at].heavy.is_none() {
            append_heavy_path(&mut paths, records, subtrees.as_slice(), at)?;
        }
    }
    Ok(paths)
}
