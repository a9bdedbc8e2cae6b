//! Jumps along heavy paths.
ghost use Rattle.std.specs.Prelude.{◌≡◌, ◌<◌, ◌≤◌, ℕ, List, None, Option, Some, IfNone, IfSome, true};
ghost use Rattle.type_graph.specs.BuiltPaths.{AreHeavyPaths};
ghost use Rattle.type_graph.specs.PathOrder.{IsJump, IsSortedByName};
ghost use Rattle.type_graph.specs.declared.shape.Shape.{Shape};

use crate::field_entries::{FieldEntry, next_slot_with_name};
use crate::jump::Jump;
use indexmap::IndexSet;
use std::hash::Hash;
use text_hash::Seed;

/// Records, path after path; within a path each record is followed by its parent. One look-up takes a search for a field to the end of a
/// path, or to the first record on the path that has the field. No record between has it, so climbing from base to base would arrive there
/// too.
#[derive(Drop)]
pub struct HeavyPaths<R: Copy + Eq + Hash + Drop> {
    pub(crate) records: IndexSet<R, Seed>,
    /// For each index the last index of its path.
    pub(crate) ends: Vec<usize>,
    /// The fields that the records declare themselves, sorted by name and index.
    pub(crate) field_entries: Vec<FieldEntry>,
}

/// The index `slot`, if there is one and it is at most `end`.
fn slot_up_to(slot: Option<usize>, end: usize) -> Option<usize>
    ensures some { IfSome result (λ q. (slot ≡ Some q) × (q ≤ end)) }
    ensures none { IfNone result ((q : ℕ) → slot ≡ Some q → end < q) }
{
    match slot {
        Some(slot) if slot <= end => Some(slot),
        _ => None,
    }
}

/// The jump of a search for a field of this name, from a record that lacks it. It is right for any graph whose heavy paths these are.
pub fn jump_along<N: Copy + Drop, D: Copy + Drop, R: Copy + Eq + Hash + Drop, F: Copy + Drop>(
    paths: &HeavyPaths<R>,
    record: R,
    name: &[u8],
) -> Jump<R>
    // The fields are sorted by name and index.
    requires by_name { IsSortedByName paths.now.field_entries.items }
    // Equal records are identical.
    requires eq_is_identity { (r s : R) → R.eq r s ≡ true → r ≡ s }
    ensures { (shape : N → Shape N D R) (base : R → Option N) (field : R → List ℕ → Option F) → AreHeavyPaths shape base field paths.now → field «record» name.now ≡ None → IsJump shape base (λ r. field r name.now) «record» result }
{
    let Some(slot) = paths.records.get_index_of(&record) else {
        return Jump::From(record);
    };
    if slot >= paths.ends.len() {
        return Jump::From(record);
    }
    let end = paths.ends[slot];
    let next = next_slot_with_name(paths.field_entries.as_slice(), name, slot);
    match slot_up_to(next, end) {
        Some(next) => match paths.records.get_index(next) {
            Some(parent) => Jump::Onto(*parent),
            None => Jump::From(record),
        },
        None => match paths.records.get_index(end) {
            Some(last) => Jump::From(*last),
            None => Jump::From(record),
        },
    }
}
