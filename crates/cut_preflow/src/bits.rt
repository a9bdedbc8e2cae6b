//! A bit set with fast search for the next member.

use std::alloc::{AllocError, Global};

/// A bit for each index, 64 to a word; and in `above` a bit for each word, set if the word isn't 0. So the next set bit is found by
/// inspecting a few words. No clause states this, so callers check that what they find is a member.
#[derive(Drop)]
pub(crate) struct BitSet {
    words: Vec<u64>,
    above: Vec<u64>,
}

/// The bit of an index in its word.
fn bit_of(position: usize) -> u64 {
    1u64 << (position % 64)
}

/// The index of the first set bit from index `position` on, if its word has one.
fn first_bit_from(words: &[u64], position: usize) -> Option<usize> {
    let word = words.get(position / 64).copied()?;
    let rest = word & (u64::MAX << (position % 64));
    if rest == 0 {
        return None;
    }
    let first = position - position % 64;
    Some(first.saturating_add(rest.trailing_zeros() as usize))
}

impl BitSet {
    /// The empty set, for indices below `positions`. Fails if an allocation fails.
    pub(crate) fn new(alloc: Global, positions: usize) -> Result<BitSet, AllocError> {
        let words = positions / 64 + 1;
        Ok(BitSet {
            words: vec![in alloc; 0u64; words]?,
            above: vec![in alloc; 0u64; words / 64 + 1]?,
        })
    }

    /// Adds an index.
    pub(crate) fn insert_bit(&mut self, position: usize) {
        let word = position / 64;
        let Some(bits) = self.words.get_mut(word) else {
            return;
        };
        let first = *bits == 0;
        *bits |= bit_of(position);
        if !first {
            return;
        }
        if let Some(bits) = self.above.get_mut(word / 64) {
            *bits |= bit_of(word);
        }
    }

    /// Removes an index.
    pub(crate) fn remove_bit(&mut self, position: usize) {
        let word = position / 64;
        let Some(bits) = self.words.get_mut(word) else {
            return;
        };
        *bits &= !bit_of(position);
        if *bits > 0 {
            return;
        }
        if let Some(bits) = self.above.get_mut(word / 64) {
            *bits &= !bit_of(word);
        }
    }

    /// Whether the set has the index.
    pub(crate) fn has(&self, position: usize) -> bool {
        match self.words.get(position / 64) {
            Some(word) => *word & bit_of(position) > 0,
            None => false,
        }
    }

    /// The index of the first word from index `word` on that isn't 0.
    fn first_word_from(&self, word: usize) -> Option<usize> {
        let mut from = word;
        for above in word / 64..self.above.len() {
            if let Some(found) = first_bit_from(&self.above, from) {
                return Some(found);
            }
            from = above.saturating_add(1).saturating_mul(64);
        }
        None
    }

    /// The first member from this index on.
    pub(crate) fn next_member(&self, position: usize) -> Option<usize> {
        if let Some(found) = first_bit_from(&self.words, position) {
            return Some(found);
        }
        let word = self.first_word_from(position / 64 + 1)?;
        first_bit_from(&self.words, word.saturating_mul(64))
    }
}
