//! The trait of byte sinks, with sinks over a vector and over a writer of std.
ghost use Rattle.std.specs.Prelude.{◌≡◌, ℕ, ◌<◌, ◌≤◌, List, Option, Some, length, IfOk};
ghost use Rattle.byte_sink.specs.Sinks.{failures_after, Writes, Takes};

use std::io;
use thiserror::Error;

/// Why a sink accepted no byte.
#[derive(Clone, Copy, Debug, PartialEq, Eq, Error)]
pub enum SinkFault {
    /// An allocation failed.
    #[error("memory ran out")]
    Memory,
    /// The device failed. The sink counted the failure.
    #[error("the device failed")]
    Device,
}

/// A receiver of bytes, which may accept fewer bytes at a call than it is given.
pub trait Sink {
    /// The bytes accepted so far, or `None` if the sink does not report them.
    ghost taken: { Self → Option (List ℕ) };

    /// The number of calls that failed at the device. It saturates at 2^64 - 1.
    ghost failures: { Self → ℕ };

    /// Accepts a prefix of the bytes, of at least one byte unless `bytes` is empty, and returns its length.
    /// After an error, Memory or Device, it has accepted none of them.
    fn put(&mut self, bytes: &[u8]) -> Result<usize, SinkFault>
        // The count is at most the number of bytes.
        ensures bound { IfOk result (λ k. k ≤ length bytes.now) }
        // The count is not 0 unless `bytes` is empty.
        ensures some { 0 < length bytes.now → IfOk result (λ k. 0 < k) }
        // The known bytes of the sink grow by the accepted prefix; after an error they are unchanged.
        ensures takes { Takes (taken self.old) (taken self.new) result bytes.now }
        // The count of failures grows by one, up to 2^64 - 1, exactly if the result is Device.
        ensures failures { failures self.new ≡ failures_after result (failures self.old) };
}

impl Sink for Vec<u8> {
    ghost taken = { λ v. Some v.items };

    ghost failures = { λ _. 0 };

    fn put(&mut self, bytes: &[u8]) -> Result<usize, SinkFault> {
        self.extend_from_slice(bytes)
            .map_err(|_| SinkFault::Memory)?;
        Ok(bytes.len())
    }
}

/// A sink over a writer of std. A writer that accepts nothing of a slice that is not empty counts as failed, and so does a write that was
/// interrupted.
#[derive(Drop)]
pub struct ToWrite<W: io::Write> {
    writer: W,
    failures: u64,
}

impl<W: io::Write> ToWrite<W> {
    /// A sink over `writer` without failures.
    pub fn new(writer: W) -> Self
        // The writer is unchanged.
        ensures writer { result.writer ≡ writer }
        // No failure is counted yet.
        ensures failures { result.failures ≡ 0 }
    {
        ToWrite {
            writer,
            failures: 0,
        }
    }
}

impl<W: io::Write> Sink for ToWrite<W> {
    ghost taken = { λ s. W.contents s.writer };

    ghost failures = { λ s. s.failures };

    fn put(&mut self, bytes: &[u8]) -> Result<usize, SinkFault> {
        match self.writer.write(bytes) {
            Ok(k) if 0 < k || bytes.is_empty() => Ok(k),
            _ => {
                self.failures = self.failures.saturating_add(1);
                Err(SinkFault::Device)
            }
        }
    }
}

/// Writes all bytes with as many calls of `put` as the sink needs, none of them with an empty slice. After an error the sink has accepted
/// a prefix of them.
pub fn write_fully<S: Sink>(sink: &mut S, bytes: &[u8]) -> Result<(), SinkFault>
    // The known bytes of the sink grow by all of `bytes`, or after an error by a prefix of `bytes`.
    ensures writes { Writes (S.taken sink.old) (S.taken sink.new) result bytes.now }
    // The count of failures grows by one, up to 2^64 - 1, exactly if the result is Device.
    ensures failures { S.failures sink.new ≡ failures_after result (S.failures sink.old) }
{
    let mut rest = bytes;
    while !rest.is_empty() {
        let k = sink.put(rest)?;
        rest = &rest[k..];
    }
    Ok(())
}
