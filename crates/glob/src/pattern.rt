//! Patterns of single names.
ghost use Rattle.std.specs.Prelude.{◌≡◌, ◌↔◌, IfOk, IsTrue, ℕ, List};
ghost use Rattle.std.specs.List.{slice_split};
ghost use Rattle.glob.specs.Globs.{is_star, pieces_of, Fits, FitsRest, EndsWithPieces, Matches};

use memchr::memmem;
use std::alloc::{AllocError, Global};
use texts::fields::split_at_byte;

/// The pieces of a pattern after its first `*`.
#[derive(Drop)]
pub(crate) struct PiecesAfterStar<'a> {
    /// The pieces before the last `*`, in order. None of them is empty.
    pub(crate) inner: Vec<&'a [u8]>,
    /// The suffix of each matching name.
    pub(crate) last: &'a [u8],
}

/// A pattern of names, split at each `*`.
#[derive(Drop)]
pub struct Glob<'a> {
    /// The prefix of each matching name.
    pub(crate) first: &'a [u8],
    /// The other pieces, if the pattern has a `*`.
    pub(crate) after_star: Option<PiecesAfterStar<'a>>,
}

impl<'a> PiecesAfterStar<'a> {
    /// Splits the bytes of a pattern after its first `*` at each further `*`.
    fn new(alloc: Global, rest: &'a [u8]) -> Result<PiecesAfterStar<'a>, AllocError>
        ensures { IfOk result (λ after_star. (text : List ℕ) → EndsWithPieces (slice_split is_star rest.now) text ↔ EndsWithPieces (pieces_of after_star) text) }
    {
        let mut inner = Vec::new(alloc);
        let mut last: &[u8] = &[];
        for piece in rest.split(|byte| *byte == b'*') {
            if !last.is_empty() {
                inner.push(last)?;
            }
            last = piece;
        }
        Ok(PiecesAfterStar { inner, last })
    }

    /// Whether the pieces occur in the text in order, without overlap, and the last one is at the end of the text.
    fn matches(&self, text: &[u8]) -> bool
        ensures { IsTrue result ↔ EndsWithPieces (pieces_of self.now) text.now }
    {
        let mut rest = text;
        for piece in &self.inner {
            // This test saves the time that `find` takes to prepare a search for a piece longer than the rest of the name.
            if piece.len() > rest.len() {
                return false;
            }
            let Some(at) = memmem::find(rest, piece) else {
                return false;
            };
            let (_, found) = rest.split_at(at);
            let (_, after) = found.split_at(piece.len());
            rest = after;
        }
        rest.ends_with(self.last)
    }
}

impl<'a> Glob<'a> {
    /// Splits a pattern at each `*`. Fails if an allocation does.
    pub fn new(alloc: Global, pattern: &'a [u8]) -> Result<Glob<'a>, AllocError>
        // The parsed pattern fits exactly the names that match the pattern: `*` matches any bytes, also none, every other byte itself.
        ensures { IfOk result (λ glob. (name : List ℕ) → Matches pattern.now name ↔ Fits glob name) }
    {
        let Some((first, rest)) = split_at_byte(pattern, b'*') else {
            return Ok(Glob {
                first: pattern,
                after_star: None,
            });
        };
        let after_star = PiecesAfterStar::new(alloc, rest)?;
        Ok(Glob {
            first,
            after_star: Some(after_star),
        })
    }

    /// Whether the name matches the pattern. Takes time linear in the length of the name, however long the pattern is.
    pub fn matches(&self, name: &[u8]) -> bool
        // The result is true exactly if the name fits the parsed pattern.
        ensures { IsTrue result ↔ Fits self.now name.now }
    {
        let Some(rest) = name.strip_prefix(self.first) else {
            return false;
        };
        match &self.after_star {
            None => rest.is_empty(),
            Some(after_star) => after_star.matches(rest),
        }
    }
}
