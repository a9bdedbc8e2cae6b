//! The seed of a hash table.
ghost use Rattle.std.specs.Prelude.{◌≡◌, ◌≤◌, ◌<◌, fold};
ghost use Rattle.std.specs.Hash as fed;
ghost use Rattle.std.specs.Hash.FoldHasher as folding;
ghost use Rattle.text_hash.specs.Digest.{digest};

use crate::digest::digest;
use std::hash::{BuildHasher, FoldHasher, Hasher};

/// The largest number of keys for which the fixed seed is used: even if all of them collide, a lookup takes a few hundred steps.
const MAX_FIXED_SEED_KEYS: usize = 1024;

/// The seed of the hashers of a table. It affects speed alone: the contents of a table are the same with each seed. Names that collide
/// with one seed are expected to spread with another.
#[derive(Clone, Copy)]
pub struct Seed {
    hasher: FoldHasher,
}

impl Seed {
    /// The seed made from the digest of a text. It is not secret: an author who writes names that collide with one seed changes the seed
    /// by writing them, and has to solve for many words at once to return to it. Nothing proves that this is hard.
    fn from_text(text: &[u8]) -> Seed
        ensures { result.hasher ≡ fold folding.write folding.initial (fed.u64 (digest text.now)) }
    {
        let mut hasher = FoldHasher::default();
        hasher.write_u64(digest(text));
        Seed { hasher }
    }

    /// The seed of a table of about `count` keys that occur in `text`: fixed for up to 1,024 keys, and made from the digest of the text
    /// for more, so that the cost of the digest is paid for large tables only.
    pub fn for_keys(text: &[u8], count: usize) -> Seed
        // For up to 1,024 keys it is the initial state of the hasher, whatever the text is.
        ensures small { count ≤ 1024 → result.hasher ≡ folding.initial }
        // For more keys it is the hasher after the digest of the text.
        ensures large { 1024 < count → result.hasher ≡ fold folding.write folding.initial (fed.u64 (digest text.now)) }
    {
        if count > MAX_FIXED_SEED_KEYS {
            return Seed::from_text(text);
        }
        let hasher = FoldHasher::default();
        Seed { hasher }
    }
}

impl BuildHasher for Seed {
    type Hasher = FoldHasher;

    ghost build_hasher = { λ s. s.hasher };

    fn build_hasher(&self) -> FoldHasher {
        self.hasher
    }
}
