//! The modules whose imports are done.
ghost use Rattle.std.specs.Prelude.{◌≡◌, ◌<◌, ◌≤◌, ◌↔◌, ℕ, Contains, false, IfOk, IsTrue, length, true};
ghost use Rattle.ob_imports.specs.Graphs.{CanStart, IsListOf};
ghost use Rattle.digraph.specs.Marks.{lists, marked};

use digraph::is_marked;
use std::alloc::{AllocError, Global};

/// Whether all modules of the list that are modules of the tree are done.
fn all_done(row: &[u32], done: &[bool]) -> bool
    ensures { IsTrue result ↔ ((w : ℕ) → Contains row.now w → w < length done.now → marked done.now w ≡ true) }
{
    for node in row {
        if (*node as usize) < done.len() && !is_marked(done, *node) {
            return false;
        }
    }
    true
}

/// Whether the module isn't done and all its imports in the tree are done.
fn can_start(imports: &[Vec<u32>], done: &[bool], node: usize) -> bool
    requires tree { length done.now ≤ length imports.now }
    requires within { node < length done.now }
    ensures can { IsTrue result → CanStart (lists imports.now) done.now node }
    ensures not { result ≡ false → CanStart (lists imports.now) done.now node → ⊥ }
{
    if done[node] {
        return false;
    }
    all_done(imports[node].as_slice(), done)
}

/// The modules of the tree that aren't done and whose imports in the tree are all done. `imports` has the imports of each module.
pub(crate) fn ready_modules(
    alloc: Global,
    imports: &[Vec<u32>],
    done: &[bool],
) -> Result<Vec<u32>, AllocError>
    requires tree { length done.now ≤ length imports.now }
    requires few { length done.now ≤ 4096 }
    ensures { IfOk result (λ nodes. IsListOf (CanStart (lists imports.now) done.now) nodes.items) }
{
    let mut ready = Vec::new(alloc);
    for node in 0..done.len() {
        if can_start(imports, done, node) {
            ready.push(node as u32)?;
        }
    }
    Ok(ready)
}
