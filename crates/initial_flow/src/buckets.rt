//! Active nodes in buckets by label.
ghost use Rattle.std.specs.Prelude.{◌≡◌, ◌<◌, IfOk, IfSome, vec_len};

use std::alloc::{AllocError, Global};

/// Active nodes, in a linked list for each label: `firsts` has the first node of each label, `nexts` for each node the next one in its
/// list. A link that is the number of nodes ends a list.
#[derive(Drop)]
pub(crate) struct LabelBuckets {
    firsts: Vec<u32>,
    pub(crate) nexts: Vec<u32>,
    /// No active node has a greater label.
    highest: usize,
}

impl LabelBuckets {
    /// Empty buckets for this number of nodes and for labels below it. Fails if an allocation fails.
    pub(crate) fn new(alloc: Global, nodes: u32) -> Result<LabelBuckets, AllocError>
        ensures { IfOk result (λ b. vec_len b.nexts ≡ nodes) }
    {
        Ok(LabelBuckets {
            firsts: vec![in alloc; nodes; nodes as usize]?,
            nexts: vec![in alloc; nodes; nodes as usize]?,
            highest: 0,
        })
    }

    /// Adds a node to the list of its label, which must be below the number of nodes; otherwise nothing happens.
    pub(crate) fn add(&mut self, node: u32, label: u32)
        ensures { vec_len self.new.nexts ≡ vec_len self.old.nexts }
    {
        if let Some(first) = self.firsts.get_mut(label as usize)
            && let Some(next) = self.nexts.get_mut(node as usize)
        {
            *next = *first;
            *first = node;
            self.highest = self.highest.max(label as usize);
        }
    }

    /// Removes and returns a node of the highest label; `None` if there is no node.
    pub(crate) fn pop_highest(&mut self) -> Option<u32>
        ensures node { IfSome result (λ n. n < vec_len self.new.nexts) }
        ensures nodes { vec_len self.new.nexts ≡ vec_len self.old.nexts }
    {
        for _ in 0..self.firsts.len() {
            let first = self.firsts.get(self.highest).copied()?;
            if let Some(next) = self.nexts.get(first as usize) {
                self.firsts[self.highest] = *next;
                return Some(first);
            }
            self.highest = self.highest.saturating_sub(1);
        }
        None
    }
}
