//! Memo tables that chosen keys can't slow down.
ghost use Rattle.type_graph.specs.Memoized.{Adds, IsMemoized};
ghost use Rattle.std.specs.Prelude.{IfSome};

use indexmap::IndexMap;
use std::alloc::{AllocError, Global};
use std::collections::BTreeMap;
use std::hash::{FoldHasher, Hash, Hasher};
use text_hash::Seed;

/// The largest number of keys in a hash table with a fixed seed: even if all collide, a look-up takes some hundred steps. For more
/// searches the seed is derived from the source.
const FIXED_SEED_KEYS: usize = 1024;

/// The largest number of keys in a hash table with a seed derived from the source. An author may still choose the numbers of other modules
/// so that keys collide under this seed.
const DERIVED_SEED_KEYS: usize = 16_384;

/// A map whose keys an author may choose. The first `most` keys are in a hash table, the others in a search tree ordered by hash, which
/// collisions don't slow down.
#[derive(Drop)]
pub(crate) struct MemoTable<K: Copy + Eq + Hash + Drop, V: Copy + Drop> {
    few: IndexMap<K, V, Seed>,
    /// The largest number of keys in the hash table.
    most: usize,
    more: BTreeMap<u64, (K, V)>,
}

/// The hash of a key. If two keys have one hash, the search tree stores the last of them.
fn hash_of<K: Hash>(key: &K) -> u64 {
    let mut hasher = FoldHasher::default();
    key.hash(&mut hasher);
    hasher.finish()
}

impl<K: Copy + Eq + Hash + Drop, V: Copy + Drop> MemoTable<K, V> {
    /// An empty table for about `searches` keys, with this hash seed.
    pub(crate) fn empty(alloc: Global, seed: Seed, searches: usize) -> MemoTable<K, V>
        ensures { (key : K) (value : V) → IsMemoized K.eq result key value → ⊥ }
    {
        MemoTable {
            few: IndexMap::with_hasher(alloc, seed),
            most: if searches > FIXED_SEED_KEYS {
                DERIVED_SEED_KEYS
            } else {
                FIXED_SEED_KEYS
            },
            more: BTreeMap::new(alloc),
        }
    }

    /// The allocator of the table.
    pub(crate) fn allocator(&self) -> Global {
        *self.few.allocator()
    }

    /// The value that the search tree stores for a key, if any.
    fn get_from_tree(&self, key: K) -> Option<V>
        ensures { IfSome result (IsMemoized K.eq self.now key) }
    {
        if self.more.is_empty() {
            return None;
        }
        let (of, value) = *self.more.get(&hash_of(&key))?;
        if of == key { Some(value) } else { None }
    }

    /// The value that is stored for a key, if any.
    pub(crate) fn get(&self, key: K) -> Option<V>
        ensures { IfSome result (IsMemoized K.eq self.now key) }
    {
        match self.few.get(&key) {
            Some(value) => Some(*value),
            None => self.get_from_tree(key),
        }
    }

    /// Stores a value for a key. In the search tree it replaces the value of a key with an equal hash.
    pub(crate) fn insert(&mut self, key: K, value: V) -> Result<(), AllocError>
        ensures { Adds K.eq key value self.old self.new }
    {
        if self.few.len() < self.most {
            self.few.insert(key, value)?;
        } else {
            self.more.insert(hash_of(&key), (key, value))?;
        }
        Ok(())
    }
}
