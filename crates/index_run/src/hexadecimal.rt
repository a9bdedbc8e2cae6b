//! Writes bytes as a line of hexadecimal digits.
ghost use Rattle.std.specs.Prelude.{◌≡◌, ◌++◌, codes, IfErr, OnOk};
ghost use Rattle.std.specs.String.{string_bytes};
ghost use Rattle.byte_sink.specs.Sinks.{failures_after, AppendsPrefix, Writes};
ghost use Rattle.hex.specs.Hex.{encode_lower};
ghost use Rattle.byte_sink.specs.Pieces.{WritesAllBut};

use byte_sink::{Sink, SinkFault, flush_if_full, write_fully};
use std::alloc::Global;

/// The number of bytes that are converted at once.
const CHUNK: usize = 32768;

/// Appends two lower-case hexadecimal digits for each byte to the text. If the text is then long, writes it to the sink and empties it.
fn write_digits<S: Sink>(
    alloc: Global,
    text: &mut String,
    bytes: &[u8],
    sink: &mut S,
) -> Result<(), SinkFault>
    // With `Ok` the sink took the old text and the digits, without what the new text still holds.
    ensures gathered { OnOk result (WritesAllBut (S.taken sink.old) (S.taken sink.new)
        (string_bytes text.old ++ encode_lower bytes.now) (string_bytes text.new)) }
    // After an error the sink took a prefix of the old text and the digits.
    ensures error_prefix { IfErr result (λ _. AppendsPrefix (S.taken sink.old) (S.taken sink.new)
        (string_bytes text.old ++ encode_lower bytes.now)) }
    // The sink counts a failure if and only if the result is `Device`.
    ensures failures { S.failures sink.new ≡ failures_after result (S.failures sink.old) }
{
    let Ok(digits) = hex::encode(alloc, bytes) else {
        return Err(SinkFault::Memory);
    };
    text.push_str(digits.as_str())
        .map_err(|_| SinkFault::Memory)?;
    flush_if_full(text, sink)
}

/// Writes the bytes as a line: two lower-case hexadecimal digits for each byte, and an LF. Fails with the fault of the sink, `Device` or
/// `Memory`; the sink then has a prefix of the line.
pub fn hex_line<S: Sink>(alloc: Global, bytes: &[u8], sink: &mut S) -> Result<(), SinkFault>
    // With `Ok` the sink took the whole line, otherwise a prefix of it.
    ensures writes { Writes (S.taken sink.old) (S.taken sink.new) result (encode_lower bytes.now ++ codes "\n") }
    // The sink counts a failure if and only if the result is `Device`.
    ensures failures { S.failures sink.new ≡ failures_after result (S.failures sink.old) }
{
    let mut text = String::new(alloc);
    let mut rest = bytes;
    while !rest.is_empty() {
        let end = rest.len().min(CHUNK);
        write_digits(alloc, &mut text, &rest[..end], sink)?;
        rest = &rest[end..];
    }
    let Ok(()) = text.push_str("\n") else {
        return Err(SinkFault::Memory);
    };
    write_fully(sink, text.as_bytes())
}
