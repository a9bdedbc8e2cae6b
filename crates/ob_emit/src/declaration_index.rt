//! Finds the index of a declaration by the number of its token, with the help of a stored index for each sixteenth token.
//! In the clauses, a key `number` is the token number of a declaration.
ghost use Rattle.std.specs.Prelude.{◌≡◌, ◌==◌, ◌<◌, IfNone, IfOk, IfSome, position};
ghost use Rattle.std.specs.Bool.{OnTrue};
ghost use Rattle.module_table.specs.declared.rows.Declared.{Declared};
ghost use Rattle.module_table.specs.Order.{IsIncreasingBy, HasNoneBy, IsIndexBy};
ghost use Rattle.ob_emit.specs.Boundaries.{AreBefore, AreAfter, AreBoundaries, IsBoundary};

use module_table::{Declared, index_of};
use std::alloc::{AllocError, Global};

/// The number of tokens for which one index into the declarations is stored.
const STRIDE: usize = 16;

/// The number of entries of the cache of recently found indices.
const RECENT: usize = 128;

/// The declarations of a module, sorted by token number, with stored indices. A lookup compares at most sixteen declarations: those
/// between two consecutive stored indices.
#[derive(Drop)]
pub(crate) struct DeclarationIndex<'a> {
    pub(crate) declared: &'a [Declared],
    /// For each sixteenth token, the index of the first declaration at that token or after it.
    firsts: Vec<usize>,
    /// A direct-mapped cache of the indices found last: a token number modulo the cache's size selects the entry. A cached index is checked
    /// before use.
    recent: Vec<usize>,
    ghost ascend: { IsIncreasingBy (λ (d : Declared). d.number) declared.now },
    ghost boundaries: { AreBoundaries declared.now firsts.items },
}

/// The index of the first declaration at token `number` or after it, found by a linear search from index `from`. If there is none, the
/// result is the number of declarations. All declarations before index `from` have to be before the token.
fn first_index_from(declared: &[Declared], from: usize, number: usize) -> usize
    requires ascend { IsIncreasingBy (λ (d : Declared). d.number) declared.now }
    requires before { AreBefore declared.now number from }
    ensures { IsBoundary declared.now number result }
{
    let mut place = from;
    'rows: while place < declared.len() && (declared[place].number as usize) < number {
        place += 1;
    }
    place
}

/// For each of the tokens 0, 16, 32 and so on, `count` in all, the index of the first declaration at that token or after it.
fn first_index_by_stride(
    alloc: Global,
    declared: &[Declared],
    count: usize,
) -> Result<Vec<usize>, AllocError>
    requires ascend { IsIncreasingBy (λ (d : Declared). d.number) declared.now }
    requires few { count < 4294967296 }
    ensures { IfOk result (λ firsts. AreBoundaries declared.now firsts.items) }
{
    let mut firsts = Vec::with_capacity(alloc, count)?;
    let mut place = 0;
    for mark in 0..count {
        place = first_index_from(declared, place, mark * STRIDE);
        firsts.push(place)?;
    }
    Ok(firsts)
}

/// The index of the declaration with this token number, or `None` if there is none. A linear search from index `low` to before `high`.
fn find_between(declared: &[Declared], low: usize, high: usize, number: u32) -> Option<usize>
    // The declarations before index `low` are before the token, and those from index `high` on are after it.
    requires before { AreBefore declared.now number low }
    requires after { AreAfter declared.now number high }
    ensures found { IfSome result (IsIndexBy (λ (d : Declared). d.number) declared.now number) }
    ensures none { IfNone result (HasNoneBy (λ (d : Declared). d.number) declared.now number) }
{
    for at in low..high {
        if let Some(row) = declared.get(at) {
            if row.number == number {
                return Some(at);
            }
        }
    }
    None
}

impl<'a> DeclarationIndex<'a> {
    /// Makes the index of these declarations, which have to be sorted by token number. `tokens` is the number of the module's tokens.
    pub(crate) fn new(
        alloc: Global,
        declared: &'a [Declared],
        tokens: usize,
    ) -> Result<DeclarationIndex<'a>, AllocError>
        requires { IsIncreasingBy (λ (d : Declared). d.number) declared.now }
        ensures { IfOk result (λ p. p.declared.now ≡ declared.now) }
    {
        let count = tokens.min(u32::MAX as usize) / STRIDE + 2;
        let firsts = first_index_by_stride(alloc, declared, count)?;
        let recent = vec![in alloc; 0; RECENT]?;
        Ok(DeclarationIndex {
            declared,
            firsts,
            recent,
        })
    }

    /// Two stored indices: the declaration with this token number, if it exists, is at the first one or after it, and before the second.
    /// `None` if no index is stored for a token after this one.
    fn bounds(&self, number: u32) -> Option<(usize, usize)>
        ensures before { IfSome result (λ b. AreBefore self.now.declared.now number b.0) }
        ensures after { IfSome result (λ b. AreAfter self.now.declared.now number b.1) }
    {
        let mark = number as usize / STRIDE;
        let low = *self.firsts.get(mark)?;
        let high = *self.firsts.get(mark + 1)?;
        Some((low, high))
    }

    /// The index of the declaration with this token number, or `None` if there is none. Searches between two stored indices, or by a binary
    /// search if these indices aren't stored.
    fn lookup(&self, number: u32) -> Option<usize>
        ensures found { IfSome result (IsIndexBy (λ (d : Declared). d.number) self.now.declared.now number) }
        ensures none { IfNone result (HasNoneBy (λ (d : Declared). d.number) self.now.declared.now number) }
    {
        match self.bounds(number) {
            Some((low, high)) => find_between(self.declared, low, high, number),
            None => index_of(self.declared, number),
        }
    }

    /// The index of the declaration with this token number, or `None` if there is none.
    pub(crate) fn index_of(&self, number: u32) -> Option<usize>
        ensures { result ≡ position (λ (d : Declared). d.number == number) self.now.declared.now }
    {
        self.lookup(number)
    }

    /// Whether the declaration at index `place` has this token number; false if there is no declaration at this index.
    fn is_declaration_at(&self, place: usize, number: u32) -> bool
        ensures { OnTrue result (IsIndexBy (λ (d : Declared). d.number) self.now.declared.now number place) }
    {
        match self.declared.get(place) {
            Some(row) => row.number == number,
            None => false,
        }
    }

    /// The index of the declaration with this token number, or `None` if there is none. Tries index `hint` before it searches.
    pub(crate) fn index_by_hint(&self, hint: usize, number: u32) -> Option<usize>
        ensures { result ≡ position (λ (d : Declared). d.number == number) self.now.declared.now }
    {
        if self.is_declaration_at(hint, number) {
            Some(hint)
        } else {
            self.index_of(number)
        }
    }

    /// Looks up the index of the declaration with this token number, and stores it in the cache. If there is no such declaration, stores
    /// and returns 0.
    fn store_in_cache(&mut self, number: u32) -> usize
        ensures { self.new.declared ≡ self.old.declared }
    {
        let place = self.index_of(number).unwrap_or(0);
        if let Some(cached) = self.recent.get_mut(number as usize % RECENT) {
            *cached = place;
        }
        place
    }

    /// The index of the declaration with this token number, from the cache or else by a lookup. Nothing is promised of the result, which is
    /// a hint: if the token declares nothing, it is 0.
    pub(crate) fn index_by_cache(&mut self, number: u32) -> usize
        ensures { self.new.declared ≡ self.old.declared }
    {
        let hint = match self.recent.get(number as usize % RECENT) {
            Some(place) => *place,
            None => 0,
        };
        if self.is_declaration_at(hint, number) {
            return hint;
        }
        self.store_in_cache(number)
    }
}
