//! Fast scans of states for a free module, and of flags for a set one. In a large tree most blocks of modules have no free module, and
//! often no flag of a list is set.
ghost use Rattle.std.specs.Prelude.{◌≡◌, ◌<◌, ◌≤◌, ◌↔◌, ℕ, false, length, IsTrue};
ghost use Rattle.work_board.specs.Marks.{marked};
ghost use Rattle.work_board.specs.Keeping.{state_at};

use crate::state::State;

/// The number of modules of a block. A loop over a block always runs to its end, so that the compiler can vectorize it.
pub(crate) const BLOCK: usize = 64;

/// Whether a flag with an index in `from..to` is set. The loop has no early exit, so that the compiler can vectorize it.
pub(crate) fn any_marked(flags: &[bool], from: usize, to: usize) -> bool
    requires { to ≤ length flags.now }
    ensures { result ≡ false → (v : ℕ) → from ≤ v → v < to → marked flags.now v ≡ false }
{
    let mut found = false;
    for place in from..to {
        found |= flags[place];
    }
    found
}

/// Whether the state is `Free`.
fn is_free(state: State) -> bool
    ensures { IsTrue result ↔ (state ≡ State.Free) }
{
    match state {
        State::Free => true,
        State::Waiting | State::Claimed | State::Delivered => false,
    }
}

/// Whether a module with a number in `from..to` is free.
fn any_free(states: &[State], from: usize, to: usize) -> bool
    requires { to ≤ length states.now }
    ensures { result ≡ false → (k : ℕ) → from ≤ k → k < to → state_at states.now k ≡ State.Free → ⊥ }
{
    let mut found = false;
    for place in from..to {
        found |= is_free(states[place]);
    }
    found
}

/// The number of modules before the first block that has a free module. Fewer than `BLOCK` modules at the end don't count as a block.
fn skip_blocks_without_free(states: &[State]) -> usize
    ensures within { result ≤ length states.now }
    ensures passed { (k : ℕ) → k < result → state_at states.now k ≡ State.Free → ⊥ }
{
    let mut place = 0;
    'rounds: while states.len() - place >= BLOCK && !any_free(states, place, place + BLOCK) {
        place += BLOCK;
    }
    place
}

/// The number of the first free module, or the number of modules if none is free.
pub(crate) fn first_free(states: &[State]) -> usize
    ensures within { result ≤ length states.now }
    ensures passed { (k : ℕ) → k < result → state_at states.now k ≡ State.Free → ⊥ }
    ensures free { result < length states.now → state_at states.now result ≡ State.Free }
{
    let mut place = skip_blocks_without_free(states);
    'places: while place < states.len() && !is_free(states[place]) {
        place += 1;
    }
    place
}
