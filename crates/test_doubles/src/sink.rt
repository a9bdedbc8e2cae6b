//! A sink that fails.

use byte_sink::{Sink, SinkFault};
use std::alloc::Global;

/// A sink that takes one byte at a time, fails from a certain write on, and counts the writes of no bytes.
#[derive(Drop)]
pub struct FailingSink {
    /// The number of bytes that the sink will still take. Each write of one byte or more takes one byte.
    pub writes: u64,
    /// The bytes taken so far.
    pub taken: Vec<u8>,
    /// The number of failed writes, at most 2^64 - 1.
    pub failures: u64,
    /// The number of writes of no bytes, at most 2^64 - 1.
    pub empty: u64,
}

impl FailingSink {
    /// A sink that takes `writes` bytes, one for each write, and then fails.
    pub fn new(alloc: Global, writes: u64) -> FailingSink {
        FailingSink {
            writes,
            taken: Vec::new(alloc),
            failures: 0,
            empty: 0,
        }
    }
}

impl Sink for FailingSink {
    ghost use Rattle.std.specs.Prelude.{Some};

    ghost taken = { λ s. Some s.taken.items };

    ghost failures = { λ s. s.failures };

    fn put(&mut self, bytes: &[u8]) -> Result<usize, SinkFault> {
        let Some(first) = bytes.first() else {
            self.empty = self.empty.saturating_add(1);
            return Ok(0);
        };
        if self.writes == 0 {
            self.failures = self.failures.saturating_add(1);
            return Err(SinkFault::Device);
        }
        self.taken.push(*first).map_err(|_| SinkFault::Memory)?;
        self.writes -= 1;
        Ok(1)
    }
}
