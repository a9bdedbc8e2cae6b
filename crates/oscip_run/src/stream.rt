//! Standard output and standard error, with the number of writes that failed.
ghost use Rattle.std.specs.Prelude.{◌≡◌, MatchResult};
ghost use Rattle.byte_sink.specs.Sinks.{failures_after};
ghost use Rattle.oscip_run.specs.Streams.{WritesAll, WritesPrefix};

use byte_sink::{Sink, SinkFault, write_fully};

/// Standard output or standard error: its sink, and the number of texts that the sink didn't take whole. The count stops at 2^64 - 1.
#[derive(Drop)]
pub struct Stream<S> {
    sink: S,
    failures: u64,
}

impl<S: Sink> Stream<S> {
    /// A stream over this sink, without failures.
    pub fn new(sink: S) -> Self
        // The stream writes to this sink.
        ensures sink { result.sink ≡ sink }
        // The stream has counted no failure.
        ensures failures { result.failures ≡ 0 }
    {
        Stream { sink, failures: 0 }
    }

    /// Writes a text. Fails with the fault of the sink, `Device` or `Memory`, if the sink didn't take the whole text. The sink then has a
    /// prefix of the text, and the stream counts the failure.
    pub fn write(&mut self, text: &str) -> Result<(), SinkFault>
        // With `Ok` the sink took the whole text, and the count of failures is unchanged; otherwise it took a prefix, and the count is one
        // more.
        ensures written { MatchResult result (λ _. WritesAll S.taken self.old self.new text.now) (λ _. WritesPrefix S.taken self.old self.new text.now) }
        // The sink itself counts a failure if and only if the fault is `Device`.
        ensures failures { S.failures self.new.sink ≡ failures_after result (S.failures self.old.sink) }
    {
        let written = write_fully(&mut self.sink, text.as_bytes());
        if written.is_err() {
            self.failures = self.failures.saturating_add(1);
        }
        written
    }
}
