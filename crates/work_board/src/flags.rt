//! Flags of modules: which modules each claimed module reaches.
ghost use Rattle.std.specs.Prelude.{◌≡◌, ◌<◌, ◌⊎◌, ◌↔◌, ◌||◌, ℕ, true, false, length, replicate, All, IfOk, slice_set, vec_len};
ghost use Rattle.work_board.specs.Graphs.{lists, list_at};
ghost use Rattle.work_board.specs.Marks.{marked, IsReachedBy};

use std::alloc::{AllocError, Global};
use std::mem;

/// Sets each flag of `flags` that is set in `more`.
fn add_flags(flags: &mut [bool], more: &[bool])
    requires { length more.now ≡ length flags.old }
    ensures { (v : ℕ) → marked flags.new v ≡ (marked flags.old v || marked more.now v) }
{
    for place in 0..more.len() {
        flags[place] |= more[place];
    }
}

/// Clears all flags.
fn clear_flags(flags: &mut [bool])
    ensures { (v : ℕ) → marked flags.new v ≡ false }
{
    for place in 0..flags.len() {
        flags[place] = false;
    }
}

/// Sets the flags of the modules in the list `row` and of all modules that they reach, and clears all other flags. `reached` has for each
/// module of the list the flags of the modules that it reaches.
pub(crate) fn set_reached_flags(flags: &mut [bool], reached: &[Vec<bool>], row: &[u32])
    requires width { (n : ℕ) → n < length reached.now → length (list_at (lists reached.now) n) ≡ length flags.old }
    requires size { length reached.now ≡ length flags.old }
    requires within { All (λ w. w < length flags.old) row.now }
    ensures { (v : ℕ) → v < length flags.old → (marked flags.new v ≡ true) ↔ IsReachedBy (lists reached.now) row.now v }
{
    clear_flags(flags);
    for w in row {
        add_flags(flags, reached[*w as usize].as_slice());
        flags[*w as usize] = true;
    }
}

/// Flags in `reached[place]` exactly the modules in the list `row` and all modules that they reach. The flags are built in `spare`, which
/// is then swapped with `reached[place]`, so nothing is allocated.
pub(crate) fn replace_reached_flags(
    reached: &mut Vec<Vec<bool>>,
    spare: &mut Vec<bool>,
    place: usize,
    row: &[u32],
)
    requires place { place < vec_len reached.old }
    requires width { (n : ℕ) → n < vec_len reached.old → length (list_at (lists reached.old.items) n) ≡ vec_len spare.old }
    requires size { vec_len reached.old ≡ vec_len spare.old }
    requires within { All (λ w. w < vec_len spare.old) row.now }
    ensures others { (n : ℕ) → (n ≡ place → ⊥) → list_at (lists reached.new.items) n ≡ list_at (lists reached.old.items) n }
    ensures filled { (v : ℕ) → v < vec_len spare.old → (marked (list_at (lists reached.new.items) place) v ≡ true) ↔ IsReachedBy (lists reached.old.items) row.now v }
    ensures long { length (list_at (lists reached.new.items) place) ≡ vec_len spare.old }
    ensures size { vec_len reached.new ≡ vec_len reached.old }
    ensures spare { vec_len spare.new ≡ vec_len spare.old }
{
    set_reached_flags(spare.as_mut_slice(), reached.as_slice(), row);
    mem::swap(spare, &mut reached[place]);
}

/// `count` cleared flags.
pub(crate) fn cleared_flags(alloc: Global, count: usize) -> Result<Vec<bool>, AllocError>
    ensures { IfOk result (λ flags. flags.items ≡ replicate count false) }
{
    let flags = vec![in alloc; false; count]?;
    Ok(flags)
}

/// `count` lists, each of `count` cleared flags.
pub(crate) fn cleared_flag_lists(alloc: Global, count: usize) -> Result<Vec<Vec<bool>>, AllocError>
    ensures { IfOk result (λ rows. lists rows.items ≡ replicate count (replicate count false)) }
{
    let mut rows = Vec::with_capacity(alloc, count)?;
    for _ in 0..count {
        rows.push(cleared_flags(alloc, count)?)?;
    }
    Ok(rows)
}
