//! The buffer that receives the tokens of a walk.

use crate::item::Item;
use std::marker::Model;

/// Slots that a walk fills in order. An item after the last slot is only counted, so a walk never allocates: with no slots it counts the
/// items, with as many slots as items it stores them all.
#[derive(Drop)]
pub(crate) struct Items {
    slots: Vec<Item>,
    count: usize,
}

impl Model for Items {
    ghost use Rattle.std.specs.Prelude.{ℕ, List};
    ghost use Rattle.ob_walk.specs.declared.item.Item.{Item};

    ghost Value = { List Item × ℕ };

    ghost view = { λ s. (s.slots.items, s.count) };
}

impl Items {
    ghost use Rattle.std.specs.Prelude.{◌≡◌, [], ◌∷◌};
    ghost use Rattle.ob_walk.specs.Items.{with_items};

    /// A buffer that fills these slots; it has counted no item yet.
    pub(crate) fn with_slots(slots: Vec<Item>) -> Items
        ensures { result ≡ (slots.items, 0) }
    {
        Items { slots, count: 0 }
    }

    /// Stores the next item, if a slot is left, and counts it.
    #[tactic(auto, using(crate::proofs::Walks::set_past), unfolding(crate::specs::Items::with_items))]
    pub(crate) fn emit(&mut self, item: Item)
        ensures { self.new ≡ with_items self.old (item ∷ []) }
    {
        if self.count < self.slots.len() {
            self.slots[self.count] = item;
        }
        self.count = self.count.saturating_add(1);
    }

    /// The number of items emitted. It saturates at the largest `usize`, more slots than memory can hold.
    pub(crate) fn count(&self) -> usize
        ensures { result ≡ self.now.1 }
    {
        self.count
    }

    /// The slots, after the walk.
    pub(crate) fn slots(self) -> Vec<Item>
        ensures { result.items ≡ self.0 }
    {
        self.slots
    }
}
