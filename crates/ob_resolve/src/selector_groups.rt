//! Finds the selectors of a designator by its head, which is the token number of its first identifier. Lookups in the order of the heads
//! are fast. In the clauses, `s.of` is the head of the designator to which selector `s` belongs.
//! `IsMonotoneBy (λ s. s.of) selectors`: the selectors are sorted by head.
ghost use Rattle.std.specs.Prelude.{◌≡◌, ◌<◌, ◌≤◌, ℕ, true, Some, nat_eq, slice_get, IfSome};
ghost use Rattle.std.specs.List.{filter};
ghost use Rattle.module_table.specs.Tables.{rows_in};
ghost use Rattle.module_table.specs.Order.{IsMonotoneBy};
ghost use Rattle.module_table.specs.declared.rows.Selector.{Selector as Row};
ghost use Rattle.ob_targets.specs.Targets.{selectors_of};

use module_table::{Selector, Table};

/// The first index from `from` on whose selector belongs to the designator with this head or to a later one, or the number of selectors.
/// The function promises nothing, so `group_if_exact` checks the index.
fn group_start(selectors: &[Selector], from: usize, head: u32) -> usize {
    let mut at = from;
    'selectors: while at < selectors.len() && selectors[at].of < head {
        at += 1;
    }
    at
}

/// The first index from `from` on whose selector belongs to a designator after the one with this head, or the number of selectors.
/// The function promises nothing, so `group_if_exact` checks the index.
fn group_end(selectors: &[Selector], from: usize, head: u32) -> usize {
    let mut at = from;
    'selectors: while at < selectors.len() && selectors[at].of <= head {
        at += 1;
    }
    at
}

/// Whether each selector before index `at` belongs to a designator before the one with this head. Selectors are sorted by head, so
/// comparing the last of them suffices. False also if `at` is beyond the end of the list.
fn has_only_earlier_heads_before(selectors: &[Selector], at: usize, head: u32) -> bool
    requires { IsMonotoneBy (λ (s : Row). s.of) selectors.now }
    ensures { result ≡ true → (i : ℕ) (s : Row) → i < at → slice_get selectors.now i ≡ Some s → s.of < head }
{
    match at.checked_sub(1) {
        Some(last) => match selectors.get(last) {
            Some(row) => row.of < head,
            None => false,
        },
        None => true,
    }
}

/// Whether no selector from index `at` on belongs to a designator before the one with this head. Selectors are sorted by head, so comparing
/// the first of them suffices.
fn has_no_earlier_head_from(selectors: &[Selector], at: usize, head: u32) -> bool
    requires { IsMonotoneBy (λ (s : Row). s.of) selectors.now }
    ensures { result ≡ true → (i : ℕ) (s : Row) → at ≤ i → slice_get selectors.now i ≡ Some s → head ≤ s.of }
{
    match selectors.get(at) {
        Some(row) => head <= row.of,
        None => true,
    }
}

/// Whether no selector before index `end` belongs to a designator after the one with this head. Selectors are sorted by head, so comparing
/// the last of them suffices. False also if `end` is beyond the end of the list.
fn has_no_later_head_before(selectors: &[Selector], end: usize, head: u32) -> bool
    requires { IsMonotoneBy (λ (s : Row). s.of) selectors.now }
    ensures { result ≡ true → (i : ℕ) (s : Row) → i < end → slice_get selectors.now i ≡ Some s → s.of ≤ head }
{
    match end.checked_sub(1) {
        Some(last) => match selectors.get(last) {
            Some(row) => row.of <= head,
            None => false,
        },
        None => true,
    }
}

/// Whether each selector from index `end` on belongs to a designator after the one with this head. Selectors are sorted by head, so
/// comparing the first of them suffices.
fn has_only_later_heads_from(selectors: &[Selector], end: usize, head: u32) -> bool
    requires { IsMonotoneBy (λ (s : Row). s.of) selectors.now }
    ensures { result ≡ true → (i : ℕ) (s : Row) → end ≤ i → slice_get selectors.now i ≡ Some s → head < s.of }
{
    match selectors.get(end) {
        Some(row) => head < row.of,
        None => true,
    }
}

/// The selectors from index `at` to before index `end`, if these are exactly the selectors of the designator with this head, and otherwise
/// `None`.
fn group_if_exact(selectors: &[Selector], at: usize, end: usize, head: u32) -> Option<&[Selector]>
    requires { IsMonotoneBy (λ (s : Row). s.of) selectors.now }
    ensures { IfSome result (λ g. g.now ≡ filter (λ (s : Row). nat_eq s.of head) selectors.now) }
{
    if at > end || end > selectors.len() {
        return None;
    }
    if has_only_earlier_heads_before(selectors, at, head)
        && has_no_earlier_head_from(selectors, at, head)
        && has_no_later_head_before(selectors, end, head)
        && has_only_later_heads_from(selectors, end, head)
    {
        Some(&selectors[at..end])
    } else {
        None
    }
}

/// The selectors of the designator with this head. A linear search begins at the index in `hint`, and stores there the index where it ends.
/// If it fails, a binary search follows.
pub(crate) fn selectors_by_hint<'a>(table: &'a Table, hint: &mut usize, head: u32) -> &'a [Selector]
    ensures { result.now ≡ selectors_of (rows_in table.now) head }
{
    table.invariants();
    let selectors = table.selectors();
    let at = group_start(selectors, *hint, head);
    let end = group_end(selectors, at, head);
    *hint = end;
    match group_if_exact(selectors, at, end, head) {
        Some(group) => group,
        None => table.selectors_of(head),
    }
}
