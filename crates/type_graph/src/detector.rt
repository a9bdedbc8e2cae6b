//! Cycle detection in searches that visit records or declarations (Brent 1980).
ghost use Rattle.std.specs.Prelude.{◌≡◌, ◌<◌, ◌^◌, [], true, OnOk};
ghost use Rattle.std.specs.List.{list_any};
ghost use Rattle.type_graph.specs.Progress.{progress, IsVisited};

use std::alloc::{AllocError, Global};

/// The checkpoints of a search: the records or declarations that it visits first, second, fourth, eighth and so on. A search on a cycle
/// arrives at the last checkpoint again, so no table of all visits is needed (Brent 1980).
#[derive(Drop)]
pub(crate) struct CycleDetector<R: Copy + Drop> {
    pub(crate) checkpoints: Vec<R>,
    /// The number of visits, saturating at 2^64 - 1.
    pub(crate) visited: u64,
    /// The number of visits before the next checkpoint.
    pub(crate) due: u64,
}

/// A search asks for precomputed results once it has this many visits.
pub(crate) const LONG_SEARCH: u64 = 16;

/// A search without visits.
pub(crate) fn new_detector<R: Copy + Drop>(alloc: Global) -> CycleDetector<R>
    ensures { result.checkpoints.items ≡ [] }
{
    CycleDetector {
        checkpoints: Vec::new(alloc),
        visited: 0,
        due: 0,
    }
}

/// Whether the record is the last checkpoint, so that the search has closed a cycle.
pub(crate) fn closes_cycle<R: Copy + Eq + Drop>(detector: &CycleDetector<R>, record: R) -> bool
    ensures { result ≡ true → list_any (R.eq «record») detector.now.checkpoints.items ≡ true }
{
    match detector.checkpoints.last() {
        Some(mark) => record == *mark,
        None => false,
    }
}

/// Counts the visit of a record, which becomes a checkpoint if one is due. After 2^64 - 1 visits every visit becomes a checkpoint.
pub(crate) fn visit<R: Copy + Drop>(
    detector: &mut CycleDetector<R>,
    record: R,
) -> Result<(), AllocError>
    ensures checkpoints { OnOk result (IsVisited «record» detector.old.checkpoints.items detector.new.checkpoints.items) }
    ensures progresses { OnOk result (progress detector.old < progress detector.new) }
    ensures few { OnOk result (progress detector.new < 2 ^ 65) }
{
    if detector.visited >= detector.due {
        detector.checkpoints.push(record)?;
        detector.due = detector.due.saturating_mul(2).saturating_add(1);
    }
    detector.visited = detector.visited.saturating_add(1);
    Ok(())
}

/// Whether the search has at least `LONG_SEARCH` visits, so that it may ask for precomputed results. It affects only the running time.
pub(crate) fn is_long_search<R: Copy + Drop>(detector: &CycleDetector<R>) -> bool {
    detector.visited >= LONG_SEARCH
}
