//! A buffer that is flushed when it is full.
ghost use Rattle.std.specs.Prelude.{◌≡◌, IfErr, OnErr, OnOk};
ghost use Rattle.std.specs.String.{string_bytes};
ghost use Rattle.byte_sink.specs.Sinks.{failures_after, AppendsPrefix};
ghost use Rattle.byte_sink.specs.Pieces.{WritesAllBut};

use crate::{Sink, SinkFault, write_fully};

/// The length in bytes from which the buffer is flushed.
const BUFFER_SIZE: usize = 65536;

/// Writes the buffer to the sink and empties it, if it has 65,536 bytes or more. After an error the sink has accepted a prefix of the
/// buffer, which is unchanged.
pub fn flush_if_full<S: Sink>(text: &mut String, sink: &mut S) -> Result<(), SinkFault>
    // The known bytes of the sink grow by exactly the bytes that have left the buffer.
    ensures moved { OnOk result (WritesAllBut (S.taken sink.old) (S.taken sink.new) (string_bytes text.old) (string_bytes text.new)) }
    // After an error the known bytes of the sink grow by a prefix of the buffer.
    ensures error_prefix { IfErr result (λ _. AppendsPrefix (S.taken sink.old) (S.taken sink.new) (string_bytes text.old)) }
    // After an error the buffer is unchanged.
    ensures unchanged { OnErr result (string_bytes text.new ≡ string_bytes text.old) }
    // The count of failures grows by one, up to 2^64 - 1, exactly if the result is Device.
    ensures failures { S.failures sink.new ≡ failures_after result (S.failures sink.old) }
{
    if text.len() >= BUFFER_SIZE {
        write_fully(sink, text.as_bytes())?;
        text.clear();
    }
    Ok(())
}
