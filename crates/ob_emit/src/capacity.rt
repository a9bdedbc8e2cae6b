//! Reserves capacity for the bytes of a document. A reservation is a hint, so a failed one is no error and never changes the bytes.
ghost use Rattle.std.specs.Prelude.{◌≡◌};

use crate::target_texts::Texts;
use ob_view::{Reference, Target, View};
use scip_index::LARGE_DOCUMENT;

/// The estimated number of bytes of the record of an occurrence or of a symbol, without its strings.
const RECORD_OVERHEAD: usize = 48;

/// Estimates the number of bytes of a record that contains the symbol string of this target, from the length of the string.
/// Returns 0 if the target has no symbol, and `mean` if `stored_symbol` doesn't find the string with the hint 0.
fn record_size(view: &View<'_>, texts: &Texts<'_>, target: Target, mean: usize) -> usize {
    match texts.stored_symbol(view, target, 0) {
        Some(Some(symbol)) => symbol.len().saturating_add(RECORD_OVERHEAD),
        Some(None) => 0,
        None => mean,
    }
}

/// Estimates the number of bytes of the records of the occurrences of these references. `mean` is the estimate for a reference whose symbol
/// string isn't found.
fn occurrences_size(view: &View<'_>, texts: &Texts<'_>, refs: &[Reference], mean: usize) -> usize {
    let mut size: usize = 0;
    for reference in refs {
        size = size.saturating_add(record_size(view, texts, reference.target, mean));
    }
    size
}

/// Estimates the number of bytes of the symbol records of a document: one for each reference that is a declaration.
fn symbols_size(view: &View<'_>, texts: &Texts<'_>, refs: &[Reference]) -> usize {
    let mut size: usize = 0;
    for reference in refs {
        if reference.role == 1 {
            size = size
                .saturating_add(record_size(view, texts, reference.target, RECORD_OVERHEAD))
                .saturating_add(view.text(reference.number).len());
        }
    }
    size
}

/// What decides when to reserve capacity for a document. `done` is the number of references processed so far.
/// `longest` is the size in bytes of the longest record since the document became large. `refused` is whether the last reservation failed.
#[derive(Clone, Copy)]
pub(crate) struct CapacityPlan {
    done: usize,
    longest: usize,
    refused: bool,
}

impl CapacityPlan {
    pub(crate) fn new() -> CapacityPlan {
        CapacityPlan {
            done: 0,
            longest: 0,
            refused: false,
        }
    }

    /// Reserves capacity for all records that are still to be written, by an estimate, and some more in case that records are longer than
    /// estimated. Doesn't change the bytes.
    #[inline(never)]
    fn reserve_rest(
        &mut self,
        out: &mut Vec<u8>,
        view: &View<'_>,
        texts: &Texts<'_>,
        refs: &[Reference],
    )
        ensures { out.new.items ≡ out.old.items }
    {
        let left = refs.get(self.done..).unwrap_or(&[]);
        let mean = out.len() / self.done.max(1);
        let size = occurrences_size(view, texts, left, mean).saturating_add(symbols_size(
            view, texts, refs,
        ));
        let spare = self
            .longest
            .saturating_add(RECORD_OVERHEAD)
            .saturating_mul(2);
        let more = size.max(out.len() / 8).saturating_add(spare);
        self.refused = out.reserve_exact(more).is_err();
    }

    /// Counts a reference whose record in `out` begins at index `start`. Doesn't change the bytes.
    /// Reserves more capacity if a large document might lack it for the next record, unless the last reservation failed.
    #[inline(always)]
    pub(crate) fn count_record(
        &mut self,
        out: &mut Vec<u8>,
        start: usize,
        view: &View<'_>,
        texts: &Texts<'_>,
        refs: &[Reference],
    )
        ensures { out.new.items ≡ out.old.items }
    {
        self.done = self.done.saturating_add(1);
        if out.len() < LARGE_DOCUMENT || self.refused {
            return;
        }
        self.longest = self.longest.max(out.len().saturating_sub(start));
        let free = out.capacity().saturating_sub(out.len());
        if free < self.longest.saturating_add(RECORD_OVERHEAD) {
            self.reserve_rest(out, view, texts, refs);
        }
    }
}

/// Reserves capacity in a large document for its symbol records, once all occurrences are written. Doesn't change the bytes.
pub(crate) fn reserve_symbols(
    out: &mut Vec<u8>,
    view: &View<'_>,
    texts: &Texts<'_>,
    refs: &[Reference],
)
    ensures { out.new.items ≡ out.old.items }
{
    if out.len() < LARGE_DOCUMENT {
        return;
    }
    let more = symbols_size(view, texts, refs).saturating_add(RECORD_OVERHEAD);
    let _hint = out.reserve_exact(more);
}
