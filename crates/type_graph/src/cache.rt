//! The results that searches in a graph memoize for later searches.

use crate::memo::MemoTable;
use crate::name_filter::NameFilter;
use crate::paths::HeavyPaths;
use indexmap::IndexMap;
use std::alloc::Global;
use std::hash::Hash;
use text_hash::{Name, Seed};

/// Memoized parents of records (the records that their bases denote), and memoized ends of types, from which parents are found.
#[derive(Drop)]
pub(crate) struct ParentCache<
    N: Copy + Drop,
    D: Copy + Eq + Hash + Drop,
    R: Copy + Eq + Hash + Drop,
> {
    /// For a declaration the end of the type that it gives, through names and pointers.
    pub(crate) ends: MemoTable<D, Option<N>>,
    pub(crate) parents: MemoTable<R, Option<R>>,
}

/// The parents of records, their heavy paths, and the fields that names denote in them.
#[derive(Drop)]
pub(crate) struct FieldCache<
    'a,
    N: Copy + Drop,
    D: Copy + Eq + Hash + Drop,
    R: Copy + Eq + Hash + Drop,
    F: Copy + Drop,
> {
    pub(crate) parents: ParentCache<N, D, R>,
    /// The heavy paths, once searches have climbed far.
    pub(crate) paths: Option<Box<HeavyPaths<R>>>,
    /// The fields that names denote in records.
    pub(crate) fields: IndexMap<(R, Name<'a>), Option<F>, Seed>,
    /// A filter of the names that may be memoized in `fields`, with a count of the records visited.
    pub(crate) name_filter: NameFilter,
}

impl<N: Copy + Drop, D: Copy + Eq + Hash + Drop, R: Copy + Eq + Hash + Drop> ParentCache<N, D, R> {
    /// The allocator of the cache.
    pub(crate) fn allocator(&self) -> Global {
        self.ends.allocator()
    }
}
