//! A sink that hashes what it takes.
ghost use Rattle.std.specs.Prelude.{None};

use byte_sink::{Sink, SinkFault};

/// A 64-bit FNV-1a hash (Fowler, Noll and Vo) of the bytes and exit statuses, with the number of jobs.
#[derive(Drop)]
pub struct Digest {
    sum: u64,
    jobs: u64,
    refused: u64,
}

impl Digest {
    pub fn new() -> Digest {
        Digest {
            sum: 0xCBF2_9CE4_8422_2325,
            jobs: 0,
            refused: 0,
        }
    }

    pub fn sum(&self) -> u64 {
        self.sum
    }

    /// The number of jobs that ended.
    pub fn jobs(&self) -> u64 {
        self.jobs
    }

    /// The number of jobs with an exit status other than 0.
    pub fn refused(&self) -> u64 {
        self.refused
    }

    /// Adds the exit status of a job.
    pub fn end(&mut self, status: u8) {
        self.add(&[status]);
        self.jobs = self.jobs.saturating_add(1);
        if status != 0 {
            self.refused = self.refused.saturating_add(1);
        }
    }

    pub fn add(&mut self, bytes: &[u8]) {
        let mut sum = self.sum;
        for byte in bytes {
            sum = (sum ^ u64::from(*byte)).wrapping_mul(0x0100_0000_01B3);
        }
        self.sum = sum;
    }
}

impl Sink for Digest {
    ghost use Rattle.std.specs.Prelude.{None};

    ghost taken = { λ _. None };

    ghost failures = { λ _. 0 };

    fn put(&mut self, bytes: &[u8]) -> Result<usize, SinkFault> {
        self.add(bytes);
        Ok(bytes.len())
    }
}
