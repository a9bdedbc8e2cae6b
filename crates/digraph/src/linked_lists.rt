//! Grouping of items by a key without a vector for each group.
ghost use Rattle.std.specs.Prelude.{◌≡◌, ◌<◌, ◌^◌, ℕ, Contains, IfOk, length};
ghost use Rattle.std.specs.Fn.{FnReturnsAt};
ghost use Rattle.digraph.specs.LinkedLists.{AreKeys, AreLinkedLists, IsInList};

use std::alloc::{AllocError, Global};

/// Singly linked lists in two arrays, one list for each key, from its last item back to its first. An item is stored as its index plus
/// one; 0 ends a list. Costs one number for each key and one for each item, and needs no sorting.
#[derive(Drop)]
pub struct LinkedLists {
    /// For each key the index plus one of its last item; 0 if no item has the key.
    pub last: Vec<u32>,
    /// For each item the index plus one of the previous item with an equal key; 0 if there is none.
    pub before: Vec<u32>,
}

/// Links each item to the previous one with an equal key. `key_of` gives an item's key, which is below `list_count`. Fails if an allocation
/// fails.
pub fn link_by_key<T, F: Fn(&T) -> u32>(
    alloc: Global,
    things: &[T],
    list_count: usize,
    key_of: F,
) -> Result<LinkedLists, AllocError>
    // `key_of` accepts each item.
    requires callable { F.IsAlwaysCallable key_of }
    // An index plus one fits 32 bits.
    requires few { length things.now < 2 ^ 32 }
    // Each key is below `list_count`.
    requires known { (x : T) (list : ℕ) → Contains things.now x → FnReturnsAt F.Fn key_of x list → list < list_count }
    // Each list has exactly the items with its key.
    ensures { IfOk result (λ t. (of : ℕ → ℕ) → AreKeys (FnReturnsAt F.Fn key_of) things.now of →
        AreLinkedLists (IsInList of) list_count t.last.items t.before.items (length things.now)) }
{
    let mut last = vec![in alloc; 0u32; list_count]?;
    let mut before = Vec::with_capacity(alloc, things.len())?;
    for number in 0..things.len() {
        let list = key_of(&things[number]) as usize;
        before.push(last[list])?;
        last[list] = number as u32 + 1;
    }
    Ok(LinkedLists { last, before })
}
