//! Names as keys.
ghost use Rattle.std.specs.Prelude.{◌∷◌, []};
ghost use Rattle.std.specs.Cmp.Rules.{hashing};
ghost use Rattle.std.proofs.Common.{rules};

use std::hash::{Hash, Hasher};

/// A name as a key. Its bytes are hashed with one call; std hashes a slice with its length and element by element.
#[derive(Clone, Copy, PartialEq, Eq)]
pub struct Name<'a> {
    pub bytes: &'a [u8],
}

impl Hash for Name<'_> {
    ghost hash_input = { λ n. n.bytes.now ∷ [] };

    ghost respects_eq = { Prim.search (hashing, rules) };

    fn hash<H: Hasher>(&self, state: &mut H) {
        state.write(self.bytes);
    }
}
