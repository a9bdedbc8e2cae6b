//! Shares of a preflow's ledger, and the ledger that names the network.

ghost use Rattle.std.specs.Prelude.{◌≡◌};

use std::marker::{Brand, Model};
use std::sync::ledger;
use std::sync::ledger::Ledger;

/// The number of parts of a preflow's ledger: one for each share that may be out, and one for the preflow's own share.
pub const LEDGER_PARTS: u64 = 65;

/// The largest number of shares that may be out at a time: given away by `share` and not yet returned by `rejoin`.
pub(crate) const MOST_SHARES: u32 = 64;

/// The ledger of a preflow's steps, as a type parameter. It also identifies the preflow's network, source and sink, so preflows on
/// different networks have different types. In a call with `Brand` the proofs of the call choose the network.
pub trait NetworkLedger: Ledger {
    ghost use Rattle.cut_preflow.specs.Preflow.{FlowNetwork};

    ghost net: { FlowNetwork };
}

/// The placeholder for a call that chooses the ledger. Its own network is never used.
impl NetworkLedger for Brand {
    ghost use Rattle.std.specs.Prelude.{[]};

    ghost net = { record { nodes = 0; imports = []; source = 0; sink = 0 } };
}

/// The number of steps of one worker, and a flag that the worker may stop: it saw no active node, or had an event with outcome `Refused`.
/// The share has one part of its preflow's ledger.
#[derive(Drop)]
pub struct Share<L: Ledger> {
    pub(crate) part: ledger::Share<L>,
    pub(crate) count: u64,
    pub(crate) marked: bool,
}

impl<L: Ledger> Model for Share<L> {
    ghost use Rattle.std.specs.Prelude.{◌≡◌};
    ghost use Rattle.cut_preflow.specs.Shares.{Counted};

    ghost Value = { Counted };

    ghost view = { λ s. record { count = s.count; marked = s.marked } };

    ghost invariant = { λ s. (s.part.parts ≡ 1) × (s.part.amount ≡ s.count) };
}

impl<L: Ledger> Share<L> {
    /// The number of counted steps.
    pub fn count(&self) -> u64
        // It is the number of counted steps.
        ensures { result ≡ self.now.count }
    {
        self.count
    }

    /// Whether the share is flagged: its worker saw no active node, or had an event with outcome `Refused`.
    pub fn is_marked(&self) -> bool
        // It is the flag.
        ensures { result ≡ self.now.marked }
    {
        self.marked
    }
}
