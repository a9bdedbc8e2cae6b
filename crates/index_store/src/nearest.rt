//! Finds the nearest occurrence that covers a position in the entries of a store.
ghost use Rattle.std.specs.Prelude.{◌≡◌};
ghost use Rattle.index_store.specs.TableLookup.{covering_span, nearer_if_covering, nearest_entry};

use crate::Position;
use crate::row::PathEntry;
use crate::span::{is_in_span, is_nearer};

/// `row` if it covers the position, and `best` is `None` or less near than `row`; otherwise `best`.
fn nearer_if_covering(at: Position, best: Option<PathEntry>, row: PathEntry) -> Option<PathEntry>
    ensures { result ≡ nearer_if_covering covering_span at best row }
{
    if !is_in_span(at, row.span) {
        return best;
    }
    match best {
        Some(other) if !is_nearer(row.span, other.span) => Some(other),
        _ => Some(row),
    }
}

/// Of the entries whose span contains the position, the one that starts last, then ends first, then comes first. `None` if no span contains
/// it.
pub(crate) fn nearest_entry(rows: &[PathEntry], at: Position) -> Option<PathEntry>
    ensures { result ≡ nearest_entry rows.now at }
{
    let mut best = None;
    for row in rows {
        best = nearer_if_covering(at, best, *row);
    }
    best
}
