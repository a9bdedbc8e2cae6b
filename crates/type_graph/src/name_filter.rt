//! A filter of the names looked up so far, and a count of the records visited. It affects only the running time, so no contract depends on
//! it.

use crate::graph::TypeGraph;
use std::alloc::Global;

/// The number of 64-bit words of the filter, which has 65,536 bits.
const FILTER_WORDS: usize = 1024;

/// The number of visits after which `is_build_due` first asks for the size of the graph.
const FIRST_SIZE_CHECK: u64 = 4096;

/// The heavy paths are built once the number of visits is this multiple of the graph's size, which is about the cost of building them.
const VISITS_PER_SIZE: u64 = 4;

/// A Bloom filter with one hash function (Bloom 1970): it reports whether a name may have been looked up before. Its bits are allocated
/// for the first name. Names that are chosen to collide slow down a hash table, but not this filter. It also counts visits.
#[derive(Drop)]
pub(crate) struct NameFilter {
    words: Vec<u64>,
    /// The number of records visited, plus at each visit one for every 64 bytes of the name.
    visited: u64,
    /// The number of visits at which to ask again whether the paths are due.
    due: u64,
}

/// The index of the word and the bit of a name, by the hash of Fowler, Noll and Vo (FNV-1a).
fn bloom_bit(name: &[u8]) -> (usize, u64) {
    let mut hash = 0xcbf2_9ce4_8422_2325_u64;
    for byte in name {
        hash = (hash ^ u64::from(*byte)).wrapping_mul(0x100_0000_01b3);
    }
    let slot = (hash ^ (hash >> 32)) % 65_536;
    ((slot / 64) as usize, 1_u64 << (slot % 64))
}

impl NameFilter {
    /// An empty filter.
    pub(crate) fn empty(alloc: Global) -> NameFilter {
        NameFilter {
            words: Vec::new(alloc),
            visited: 0,
            due: FIRST_SIZE_CHECK,
        }
    }

    /// Counts a visit by a search for a name: one, and one more for every 64 bytes of the name, as a look-up of a long name takes longer.
    pub(crate) fn count_visit(&mut self, name: &[u8]) {
        let pieces = (name.len() / 64) as u64;
        self.visited = self.visited.saturating_add(1).saturating_add(pieces);
    }

    /// Whether searches have visited enough records to build the heavy paths, or to try again after a failed allocation.
    pub(crate) fn is_build_due<G: TypeGraph>(&mut self, graph: &G) -> bool {
        if self.visited < self.due {
            return false;
        }
        let least = graph.size().saturating_mul(VISITS_PER_SIZE);
        let is_due = self.visited >= least;
        self.due = if is_due {
            self.visited.saturating_mul(2)
        } else {
            least
        };
        is_due
    }

    /// Allocates the bits if the filter has none. Returns false if the allocation fails.
    fn ensure_bits(&mut self, alloc: Global) -> bool {
        if self.words.is_empty()
            && let Ok(words) = vec![in alloc; 0_u64; FILTER_WORDS]
        {
            self.words = words;
        }
        !self.words.is_empty()
    }

    /// Inserts a name. Returns false only if it hasn't been inserted before; true if it may have been, and also without bits.
    pub(crate) fn insert_name(&mut self, alloc: Global, name: &[u8]) -> bool {
        if !self.ensure_bits(alloc) {
            return true;
        }
        let (at, mark) = bloom_bit(name);
        if at >= self.words.len() {
            return true;
        }
        let word = self.words[at];
        self.words[at] = word | mark;
        word & mark != 0
    }
}
